//! A caller of a disk in memory whose sync is stopped. What it reads is proved by the contracts alone.

ghost use Rattle.std.specs.Prelude.{◌≡◌, [], ◌∷◌, IfOk, IfErr};

use disk_model::{Disk, DiskFault, Half, Leave, MemoryDisk, Plan, Power, Stop};
use std::alloc::Global;

/// What is read of four bytes that were synced, once three were written over them, and the power went off at the sync after
/// that. The stop is at the fourth call, and leaves what it is told to. The error is want of memory: no call but the fourth
/// fails, and the read is one with the power on and no fault planned.
pub fn read_after_stop(alloc: Global, leave: Leave) -> Result<[u8; 4], DiskFault>
    ensures bytes { IfOk result (λ bytes. (leave ≡ Leave.Old → bytes ≡ 9 ∷ 8 ∷ 7 ∷ 6 ∷ [])
        × (leave ≡ Leave.New → bytes ≡ 1 ∷ 2 ∷ 3 ∷ 6 ∷ [])
        × (leave ≡ Leave.Torn → bytes ≡ 1 ∷ 0x5A ∷ 3 ∷ 6 ∷ [])) }
    ensures memory { IfErr result (λ fault. fault ≡ DiskFault.Memory) }
{
    let plan = Plan {
        stops: Vec::from_slice(alloc, &[Stop { call: 4, leave }])?,
        faults: Vec::new(alloc),
    };
    let mut disk = MemoryDisk::new(alloc, plan);
    disk.write_at(Half::A, 0, &[9, 8, 7, 6])?;
    disk.sync()?;
    disk.write_at(Half::A, 0, &[1, 2, 3])?;
    let _stopped = disk.sync();
    disk.switch_on()?;
    let mut bytes = [0; 4];
    disk.read(Half::A, 0, &mut bytes)?;
    Ok(bytes)
}
