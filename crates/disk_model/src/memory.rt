//! A disk in memory, which fails and loses its power by a plan.
ghost use Rattle.std.specs.Prelude.{◌≡◌, ◌≤◌, ◌<◌, ◌+◌, ◌^◌, ◌==◌, ◌∷◌, true, false, Some, length, take, IfOk, OnOk, OnErr, IsErrOf, IsSomeAnd};
ghost use Rattle.std.specs.List.{list_any};
ghost use Rattle.std.proofs.Common.{inl};
ghost use Rattle.disk_model.specs.declared.disk.DiskFault.TheVariants.{Failed};
ghost use Rattle.disk_model.specs.Image.{half_of, with_half};
ghost use Rattle.disk_model.specs.Disk.{overwritten, Reads, TornWrite, Cut, OnHalf, Follows, Only, Keeps, Elapses};
ghost use Rattle.hb_base.specs.Limits.{most_stops};
ghost use Rattle.hb_base.specs.Outside.{HasCauseOf};
ghost use Rattle.disk_model.specs.Faults.{is_failed};
ghost use Rattle.disk_model.specs.Supply.{Draws, IsNamed};
ghost use Rattle.disk_model.specs.Area.{after_write, after_cut};
ghost use Rattle.disk_model.specs.Halves.{HalvesMayLeave, HasBytes, content_of, on_half, settled, restored};
ghost use Rattle.disk_model.specs.Memory.{IsDisk, LeftSince, met_of, met_by, met_at, stop_at, stops_after, supply_of, new_disk};
ghost use Rattle.disk_model.specs.Memory.{one_more, refused, faulted, restarted, Answers, AnswersOrMemory};
ghost use Rattle.disk_model.specs.Laws.{seen_stays, only_now_left};

use crate::disk::{Disk, DiskFault, Half, Power};
use crate::halves::Halves;
use crate::met::Met;
use crate::past::Past;
use crate::plan::{Leave, Note, Plan, Stop};
use std::alloc::{AllocError, Global};
use std::marker::Model;

/// A disk in memory, empty and on at first. Its calls of `read`, `write_at`, `cut` and `sync` are numbered from 1 over
/// its whole life. A call named in the stops of its plan fails and switches the power off; a write or a cut that is
/// stopped counts as done. A call named in the faults, and not in the stops, fails, changes nothing that a read gives,
/// and leaves the disk on. While the power is off every call fails and has no number.
#[derive(Drop)]
pub struct MemoryDisk {
    halves: Halves,
    plan: Plan,
    calls: u64,
    faults: u64,
    off: Option<Leave>,
    past: Past,
}

impl Model for MemoryDisk {
    ghost use Rattle.std.specs.Prelude.{◌≤◌, length};
    ghost use Rattle.hb_base.specs.Limits.{most_stops};
    ghost use Rattle.disk_model.specs.Memory.{MemoryState};

    ghost Value = { MemoryState };

    ghost view = { λ d. record {
      halves = d.halves;
      past = d.past.states;
      stops = d.plan.stops.items;
      planned = d.plan.faults.items;
      calls = d.calls;
      faults = d.faults;
      off = d.off;
    } };

    ghost invariant = { λ d. length d.plan.stops.items ≤ most_stops };
}

impl MemoryDisk {
    /// An empty disk that will meet this plan, with nothing pending. It takes no memory.
    pub fn new(alloc: Global, plan: Plan) -> MemoryDisk
        requires { length plan.stops.items ≤ most_stops }
        ensures { result ≡ new_disk plan.stops.items plan.faults.items }
    {
        MemoryDisk {
            halves: Halves::new(alloc),
            plan,
            calls: 0,
            faults: 0,
            off: None,
            past: Past::new(),
        }
    }

    // What its type keeps, for a proof.
    fn kept(&self)
        ensures { IsDisk self.now }
    {
        let (_calls, _faults) = (self.calls, self.faults);
        self.halves.kept();
    }

    // What the next call meets.
    fn met(&self) -> Met
        ensures { result ≡ met_of self.now }
    {
        met_by(self.off, self.calls.saturating_add(1), &self.plan)
    }

    // What it has held, with what it holds now.
    fn noted(&self) -> Past
        ensures { result.states ≡ self.now.halves ∷ self.now.past }
    {
        Past::with(&self.past, &self.halves)
    }

    // Numbers a call.
    fn pass(&mut self, past: Past)
        ensures { self.new ≡ record self.old { past = past.states; calls = one_more self.old.calls } }
    {
        self.past = past;
        self.calls = self.calls.saturating_add(1);
    }

    // Counts a fault.
    fn fail(&mut self) -> DiskFault
        ensures fault { result ≡ Failed }
        ensures after { self.new ≡ refused self.old }
    {
        self.faults = self.faults.saturating_add(1);
        DiskFault::Failed
    }

    // Fails by the plan, and leaves the disk on.
    fn fault(&mut self) -> DiskFault
        ensures fault { result ≡ Failed }
        ensures after { self.new ≡ faulted self.old }
    {
        self.calls = self.calls.saturating_add(1);
        self.fail()
    }

    // Fails by the plan, and the power goes off.
    fn stop(&mut self, past: Past, leave: Leave) -> DiskFault
        ensures fault { result ≡ Failed }
        ensures after { self.new ≡ record self.old {
          past = past.states;
          calls = one_more self.old.calls;
          faults = one_more self.old.faults;
          off = Some leave;
        } }
    {
        self.pass(past);
        self.off = Some(leave);
        self.fail()
    }

    fn read_as_planned(&mut self, half: Half, at: u64, buf: &mut [u8]) -> Result<usize, DiskFault>
        ensures bytes { IfOk result (λ n. Reads (half_of half (content_of self.old.halves)) at buf.old buf.new n) }
        ensures same { OnErr result (buf.new ≡ buf.old) }
        ensures exact { Answers self.old.halves self.old.halves self.old self.new result }
    {
        match self.met() {
            Met::Nothing => {
                let past = self.noted();
                self.pass(past);
                Ok(self.halves.read(half, at, buf))
            }
            Met::Fault => Err(self.fault()),
            Met::Stops(leave) => {
                let past = self.noted();
                Err(self.stop(past, leave))
            }
            Met::Off => Err(self.fail()),
        }
    }

    fn write_as_planned(&mut self, half: Half, at: u64, bytes: &[u8]) -> Result<(), DiskFault>
        requires { at ≤ length (half_of half (content_of self.old.halves)) }
        ensures small { OnOk result (at + length bytes.now < 2 ^ 63) }
        ensures wanting { IsErrOf result DiskFault.Memory → 0 < length bytes.now }
        ensures exact { let done = on_half half (after_write at bytes.now) self.old.halves in AnswersOrMemory done done self.old self.new result }
    {
        match self.met() {
            Met::Nothing => {
                let past = self.noted();
                self.halves.write(half, at, bytes)?;
                self.pass(past);
                Ok(())
            }
            Met::Fault => Err(self.fault()),
            Met::Stops(leave) => {
                let past = self.noted();
                self.halves.write(half, at, bytes)?;
                Err(self.stop(past, leave))
            }
            Met::Off => Err(self.fail()),
        }
    }

    fn cut_as_planned(&mut self, half: Half, len: u64) -> Result<(), DiskFault>
        requires { len ≤ length (half_of half (content_of self.old.halves)) }
        ensures exact { let done = on_half half (after_cut len) self.old.halves in Answers done done self.old self.new result }
    {
        match self.met() {
            Met::Nothing => {
                let past = self.noted();
                self.halves.cut(half, len);
                self.pass(past);
                Ok(())
            }
            Met::Fault => Err(self.fault()),
            Met::Stops(leave) => {
                let past = self.noted();
                self.halves.cut(half, len);
                Err(self.stop(past, leave))
            }
            Met::Off => Err(self.fail()),
        }
    }

    fn sync_as_planned(&mut self) -> Result<(), DiskFault>
        ensures exact { Answers (settled self.old.halves) self.old.halves self.old self.new result }
    {
        match self.met() {
            Met::Nothing => {
                let past = self.noted();
                self.halves.settle();
                self.pass(past);
                Ok(())
            }
            // All that was pending stays so.
            Met::Fault => Err(self.fault()),
            Met::Stops(leave) => {
                let past = self.noted();
                Err(self.stop(past, leave))
            }
            Met::Off => Err(self.fail()),
        }
    }
}

impl Disk for MemoryDisk {
    ghost seen = { λ d. content_of d.halves };

    ghost may_leave = { λ d. HalvesMayLeave d.halves };

    ghost moment = { λ d. length d.past };

    ghost left_since = { LeftSince };

    ghost faults = { λ d. d.faults };

    ghost supply = { supply_of };

    ghost explains = { λ d. IsNamed (supply_of d) };

    ghost counts_now = { λ d t c _ now. inl now };

    ghost only_now = { only_now_left };

    ghost seen_may_stay = { λ d. seen_stays d.halves };

    fn read(&mut self, half: Half, at: u64, buf: &mut [u8]) -> Result<usize, DiskFault>
        ensures bytes { IfOk result (λ n. Reads (half_of half (content_of self.old.halves)) at buf.old buf.new n) }
        ensures seen { content_of self.new.halves ≡ content_of self.old.halves }
        ensures crash { Keeps (HalvesMayLeave self.new.halves) (HalvesMayLeave self.old.halves) }
        ensures kept { Keeps (HalvesMayLeave self.old.halves) (HalvesMayLeave self.new.halves) }
        ensures time { Elapses (length self.old.past) (length self.new.past) (LeftSince self.old) (LeftSince self.new) (HalvesMayLeave self.new.halves) }
        ensures cause { HasCauseOf is_failed self.old.faults self.new.faults result }
        ensures explained { IsErrOf result DiskFault.Failed → IsNamed (supply_of self.new) }
        ensures off { (supply_of self.old).off ≡ true → IsErrOf result DiskFault.Failed }
        ensures power { (IsErrOf result DiskFault.Failed → ⊥) → (supply_of self.new).off ≡ (supply_of self.old).off }
        ensures supply { Draws (supply_of self.old) (supply_of self.new) }

        // It fails exactly where the plan names the call or the power is off, and leaves the buffer then.
        ensures same { OnErr result (buf.new ≡ buf.old) }
        ensures exact { Answers self.old.halves self.old.halves self.old self.new result }
    {
        self.kept();
        self.read_as_planned(half, at, buf)
    }

    fn write_at(&mut self, half: Half, at: u64, bytes: &[u8]) -> Result<(), DiskFault>
        requires { at ≤ length (half_of half (content_of self.old.halves)) }
        ensures written { OnOk result (content_of self.new.halves
            ≡ with_half half (overwritten at bytes.now (half_of half (content_of self.old.halves))) (content_of self.old.halves)) }
        ensures small { OnOk result (at + length bytes.now < 2 ^ 63) }
        ensures crash { Follows (OnHalf half (TornWrite at (length bytes.now))) (HalvesMayLeave self.old.halves) (HalvesMayLeave self.new.halves) }
        ensures kept { Keeps (HalvesMayLeave self.old.halves) (HalvesMayLeave self.new.halves) }
        ensures time { Elapses (length self.old.past) (length self.new.past) (LeftSince self.old) (LeftSince self.new) (HalvesMayLeave self.new.halves) }
        ensures cause { HasCauseOf is_failed self.old.faults self.new.faults result }
        ensures explained { IsErrOf result DiskFault.Failed → IsNamed (supply_of self.new) }
        ensures off { (supply_of self.old).off ≡ true → IsErrOf result DiskFault.Failed }
        ensures power { (IsErrOf result DiskFault.Failed → ⊥) → (supply_of self.new).off ≡ (supply_of self.old).off }
        ensures supply { Draws (supply_of self.old) (supply_of self.new) }

        // The same, unless no memory is left for a write that is done, of one byte at least. One that is stopped counts as done.
        ensures wanting { IsErrOf result DiskFault.Memory → 0 < length bytes.now }
        ensures exact { let done = on_half half (after_write at bytes.now) self.old.halves in AnswersOrMemory done done self.old self.new result }
    {
        self.kept();
        self.write_as_planned(half, at, bytes)
    }

    fn cut(&mut self, half: Half, len: u64) -> Result<(), DiskFault>
        requires { len ≤ length (half_of half (content_of self.old.halves)) }
        ensures cut { OnOk result (content_of self.new.halves
            ≡ with_half half (take len (half_of half (content_of self.old.halves))) (content_of self.old.halves)) }
        ensures crash { Follows (OnHalf half (Cut len)) (HalvesMayLeave self.old.halves) (HalvesMayLeave self.new.halves) }
        ensures kept { Keeps (HalvesMayLeave self.old.halves) (HalvesMayLeave self.new.halves) }
        ensures time { Elapses (length self.old.past) (length self.new.past) (LeftSince self.old) (LeftSince self.new) (HalvesMayLeave self.new.halves) }
        ensures cause { HasCauseOf is_failed self.old.faults self.new.faults result }
        ensures explained { IsErrOf result DiskFault.Failed → IsNamed (supply_of self.new) }
        ensures off { (supply_of self.old).off ≡ true → IsErrOf result DiskFault.Failed }
        ensures power { (IsErrOf result DiskFault.Failed → ⊥) → (supply_of self.new).off ≡ (supply_of self.old).off }
        ensures supply { Draws (supply_of self.old) (supply_of self.new) }

        // As `read`. A cut that is stopped counts as done.
        ensures exact { let done = on_half half (after_cut len) self.old.halves in Answers done done self.old self.new result }
    {
        self.kept();
        self.cut_as_planned(half, len)
    }

    fn sync(&mut self) -> Result<(), DiskFault>
        ensures durable { OnOk result (Only (content_of self.old.halves) (HalvesMayLeave self.new.halves)) }
        ensures seen { content_of self.new.halves ≡ content_of self.old.halves }
        ensures crash { Keeps (HalvesMayLeave self.new.halves) (HalvesMayLeave self.old.halves) }
        ensures kept { OnErr result (Keeps (HalvesMayLeave self.old.halves) (HalvesMayLeave self.new.halves)) }
        ensures time { Elapses (length self.old.past) (length self.new.past) (LeftSince self.old) (LeftSince self.new) (HalvesMayLeave self.new.halves) }
        ensures cause { HasCauseOf is_failed self.old.faults self.new.faults result }
        ensures explained { IsErrOf result DiskFault.Failed → IsNamed (supply_of self.new) }
        ensures off { (supply_of self.old).off ≡ true → IsErrOf result DiskFault.Failed }
        ensures power { (IsErrOf result DiskFault.Failed → ⊥) → (supply_of self.new).off ≡ (supply_of self.old).off }
        ensures supply { Draws (supply_of self.old) (supply_of self.new) }

        // As `read`. One that fails leaves pending what was.
        ensures exact { Answers (settled self.old.halves) self.old.halves self.old self.new result }
    {
        self.kept();
        self.sync_as_planned()
    }
}

impl Power for MemoryDisk {
    ghost named = { λ d is. is };

    fn is_off(&self) -> bool {
        self.off.is_some()
    }

    fn stops_left(&self) -> u8 {
        self.kept();
        count_after(&self.plan.stops, self.calls)
    }

    fn note(&self) -> Note {
        Note::at(self.calls.min(u64::from(u32::MAX)) as u32)
    }

    fn switch_on(&mut self) -> Result<(), AllocError>
        requires { (supply_of self.old).off ≡ true }
        ensures image { OnOk result (HalvesMayLeave self.old.halves (content_of self.new.halves)) }
        ensures durable { OnOk result (Only (content_of self.new.halves) (HalvesMayLeave self.new.halves)) }
        ensures time { Elapses (length self.old.past) (length self.new.past) (LeftSince self.old) (LeftSince self.new) (HalvesMayLeave self.new.halves) }
        ensures faults { self.new.faults ≡ self.old.faults }
        ensures supply { OnOk result (supply_of self.new ≡ record (supply_of self.old) { off = false }) }
        ensures refused { OnErr result (self.new ≡ self.old) }

        // It holds just what the stop leaves, unless no memory is left to copy that.
        ensures exact { OnOk result (IsSomeAnd self.old.off (λ leave. self.new ≡ restarted leave self.old)) }
        ensures wanting { OnErr result (IsSomeAnd self.old.off (λ leave. HasBytes (restored leave self.old.halves))) }
    {
        self.kept();
        let Some(leave) = self.off else {
            unreachable!()
        };
        let past = self.noted();
        self.halves = self.halves.left(leave)?;
        self.past = past;
        self.off = None;
        Ok(())
    }
}

// How many stops are at calls still to come.
fn count_after(stops: &[Stop], calls: u64) -> u8
    requires { length stops.now ≤ most_stops }
    ensures count { result ≡ stops_after calls stops.now }
    ensures few { result ≤ most_stops }
{
    let mut count = 0;
    for stop in stops {
        if calls < u64::from(stop.call) {
            count += 1;
        }
    }
    count
}

// Whether a call is named in the faults.
fn is_planned(faults: &[u32], call: u32) -> bool
    ensures { result ≡ list_any (λ fault. fault == call) faults.now }
{
    faults.contains(&call)
}

// What the call of a number meets.
fn met_by(off: Option<Leave>, number: u64, plan: &Plan) -> Met
    ensures { result ≡ met_by off number plan.now.stops.items plan.now.faults.items }
{
    match off {
        Some(_) => Met::Off,
        None => match u32::try_from(number) {
            Ok(call) => met_at(stop_at(&plan.stops, call), is_planned(&plan.faults, call)),
            Err(_) => Met::Nothing,
        },
    }
}

// A stop comes before a fault.
fn met_at(stop: Option<Leave>, fails: bool) -> Met
    ensures { result ≡ met_at stop fails }
{
    match stop {
        Some(leave) => Met::Stops(leave),
        None if fails => Met::Fault,
        None => Met::Nothing,
    }
}

// What the first stop at a call leaves.
fn stop_at(stops: &[Stop], call: u32) -> Option<Leave>
    ensures { result ≡ stop_at call stops.now }
{
    for stop in stops {
        if stop.call == call {
            return Some(stop.leave);
        }
    }
    None
}
