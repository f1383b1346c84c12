//! Disks by hand: what a stop, a fault and a cut leave, call by call.
ghost use Rattle.std.specs.Prelude.{◌≡◌, IfOk};

use crate::read_after_stop;
use disk_model::{Disk, DiskFault, Half, Leave, MemoryDisk, Plan, Power, Stop};
use std::alloc::Global;
use std::test::Fail;

fn planned(alloc: Global, stops: &[Stop], faults: &[u32]) -> Result<Plan, Fail>
    ensures { IfOk result (λ plan. plan.stops.items ≡ stops.now) }
{
    Ok(Plan {
        stops: stops.to_vec(alloc)?,
        faults: faults.to_vec(alloc)?,
    })
}

// What is proved of these bytes is read: no call before finds too little memory.
#[test]
fn what_a_stop_leaves_is_read(rt: HostRuntime) -> Result<(), Fail> {
    let alloc = rt.alloc();
    for &(leave, want) in &[
        (Leave::Old, [9, 8, 7, 6]),
        (Leave::New, [1, 2, 3, 6]),
        (Leave::Torn, [1, 0x5A, 3, 6]),
    ] {
        assert!(rt; read_after_stop(alloc, leave)? == want);
    }
    Ok(())
}

// A write, and the power goes off at the sync after it.
#[test]
fn a_stop_leaves_old_new_or_torn(rt: HostRuntime) -> Result<(), Fail> {
    let alloc = rt.alloc();
    for &(leave, want) in &[
        (Leave::Old, [9, 9, 9]),
        (Leave::New, [1, 2, 3]),
        (Leave::Torn, [1, 0x5A, 3]),
    ] {
        let mut disk = MemoryDisk::new(alloc, planned(alloc, &[Stop { call: 2, leave }], &[])?);
        let first_calls = disk.note().calls();
        disk.write_at(Half::A, 0, &[1, 2, 3])?;
        let first_stops = disk.stops_left();
        let synced = disk.sync().err();
        let stops = disk.stops_left();
        let read = disk.read(Half::A, 0, &mut [0; 3]).err();
        let counts = (first_calls, first_stops, stops, disk.note().calls());
        let failed = Some(DiskFault::Failed);
        assert!(rt; counts == (0, 1, 0, 2) && synced == failed && read == failed && disk.is_off());
        disk.switch_on()?;
        let mut bytes = [9; 3];
        disk.read(Half::A, 0, &mut bytes)?;
        assert!(rt; bytes == want && disk.note().calls() == 3);
    }
    Ok(())
}

// Calls 1 and 3 fail; what was written before the sync that failed is torn by the stop at call 4.
#[test]
fn a_fault_changes_nothing(rt: HostRuntime) -> Result<(), Fail> {
    let alloc = rt.alloc();
    let stop = Stop {
        call: 4,
        leave: Leave::Torn,
    };
    let mut disk = MemoryDisk::new(alloc, planned(alloc, &[stop], &[1, 3, 4])?);
    let written = (disk.write_at(Half::B, 0, &[5]).err(), disk.is_off());
    disk.write_at(Half::B, 0, &[1, 2, 3, 4])?;
    let synced = (disk.sync().err(), disk.is_off());
    let stopped = disk.sync().err();
    let failed = Some(DiskFault::Failed);
    assert!(rt;
        written == (failed, false)
            && synced == (failed, false)
            && stopped == failed
            && disk.is_off()
    );
    disk.switch_on()?;
    let mut bytes = [9; 6];
    let held = disk.read(Half::B, 0, &mut bytes)?;
    let held_by_a = disk.read(Half::A, 0, &mut [0; 6])?;
    assert!(rt; held == 4 && bytes == [1, 0x5A, 3, 0x5A, 9, 9] && held_by_a == 0);
    Ok(())
}

// Three bytes are synced, one is cut off and two are written; the stop is at the next call.
#[test]
fn a_cut_comes_back(rt: HostRuntime) -> Result<(), Fail> {
    let alloc = rt.alloc();
    for &(leave, want) in &[
        (Leave::Old, [1, 2, 3, 9]),
        (Leave::New, [1, 2, 6, 7]),
        (Leave::Torn, [1, 2, 6, 0x5A]),
    ] {
        let mut disk = MemoryDisk::new(alloc, planned(alloc, &[Stop { call: 5, leave }], &[])?);
        disk.write_at(Half::A, 0, &[1, 2, 3])?;
        disk.sync()?;
        disk.cut(Half::A, 2)?;
        disk.write_at(Half::A, 2, &[6, 7])?;
        let synced = disk.sync().err();
        assert!(rt; synced == Some(DiskFault::Failed) && disk.is_off());
        disk.switch_on()?;
        let mut bytes = [9; 4];
        disk.read(Half::A, 0, &mut bytes)?;
        assert!(rt; bytes == want);
        disk.sync()?;
    }
    Ok(())
}

fn crosses_threads<T: Send + Sync>(_value: &T) {}

#[test]
fn a_disk_may_go_to_another_thread(rt: HostRuntime) {
    let alloc = rt.alloc();
    let plan = Plan {
        stops: Vec::new(alloc),
        faults: Vec::new(alloc),
    };
    crosses_threads(&MemoryDisk::new(alloc, plan));
}
