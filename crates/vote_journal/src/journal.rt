//! A journal in two halves: entries behind gates, folded into one in the other half when they are many.
ghost use Rattle.std.specs.Prelude.{◌≡◌, ◌+◌, ◌-◌, ◌^◌, ◌<◌, ◌≤◌, min, [], ◌∷◌, ◌++◌, length, ◌||◌, true, false, IfOk, OnOk, IfErr, IsErrOf, MatchResult, ◌≢◌};
ghost use Rattle.std.specs.List.{concat};
ghost use Rattle.disk_model.specs.Disk.{Only, LeavesOnly};
ghost use Rattle.disk_model.specs.Supply.{Draws};
ghost use Rattle.disk_model.specs.Image.{other};
ghost use Rattle.vote_journal.specs.Steps.{arranged};
ghost use Rattle.vote_journal.specs.Runs.{Runs, HasReason, IsUnfailed, IsStep, IsUntouched, LeftOrSays};
ghost use Rattle.vote_journal.specs.Text.{text_of, live_half, live_entries, both_have_entries, is_foreign, size_bytes, IsSound, SaysOnly, SaysMaybe};

use crate::JournalFault;
use crate::entry::{Entry, payload_in};
use crate::fold::fold_disk;
use crate::parse::Found;
use crate::recover::{Opened, open, other};
use crate::steps::{FIRST_GATE, add_entry};
use disk_model::{Disk, Half, Power};
use hb_base::Bytes;
use std::alloc::{AllocError, Global};

/// A journal on a disk. Its entries stand in the live half; the other half has none.
#[derive(Drop)]
pub struct Journal<D: Disk> {
    disk: D,
    alloc: Global,
    live: Half,
    gate: u64,
    entries: u32,
    bytes: u64,
}

impl<D: Disk> Journal<D> {
    ghost use Rattle.vote_journal.specs.Usable.{IsUsable, disk_of, disk_after, entries_in_journal, spare_bytes, entry_count, byte_count};

    /// Opens the journal of a disk, and gives its entries in order. An empty disk is begun, and what an interrupted fold
    /// left is put right. On refusal the disk is handed back: `NotAJournal` comes exactly where a half holds more than
    /// 9 bytes and doesn't begin with the magic.
    pub fn recover(alloc: Global, disk: D) -> Result<(Journal<D>, Vec<Bytes>), (D, JournalFault)>
        ensures entries { IfOk result (λ opened. opened.1.items ≡ live_entries (D.seen disk)) }
        ensures usable { IfOk result (λ opened. IsSound (D.seen disk) → IsUsable D.seen D.may_leave opened.0) }
        ensures same { IfOk result (λ opened. IsSound (D.seen disk) → entries_in_journal D.seen opened.0 ≡ live_entries (D.seen disk)) }
        ensures text { IfOk result (λ opened. IsSound (D.seen disk) → text_of (D.seen (disk_of opened.0)) ≡ text_of (D.seen disk)) }

        // The entries put together are the text.
        ensures read { IfOk result (λ opened. IsSound (D.seen disk) → concat opened.1.items ≡ text_of (D.seen disk)) }

        // A half of at most 9 bytes is begun. Where both halves had entries, the one that isn't live is cut to its first gate,
        // and else each half with more than 9 bytes is as it was.
        ensures image { IfOk result (λ opened. D.seen (disk_of opened.0)
            ≡ arranged (both_have_entries (D.seen disk)) (other (live_half (D.seen disk))) (D.seen disk)) }
        ensures cut { IfOk result (λ opened. IsSound (D.seen disk) → both_have_entries (D.seen disk) ≡ true
            → length (spare_bytes D.seen opened.0) ≡ 9) }
        ensures ours { OnOk result ((is_foreign (D.seen disk).a || is_foreign (D.seen disk).b) ≡ false) }

        // A disk that holds no journal is handed back as it was. It was synced and read, and nothing else.
        ensures foreign { IfErr result (λ refused. refused.1 ≡ JournalFault.NotAJournal
            → (is_foreign (D.seen disk).a || is_foreign (D.seen disk).b) ≡ true) }
        ensures no_foreign { IfErr result (λ refused. IsSound (D.seen disk) → refused.1 ≡ JournalFault.NotAJournal → ⊥) }
        ensures untouched { IfErr result (λ refused. refused.1 ≡ JournalFault.NotAJournal
            → IsUntouched D.seen D.may_leave D.moment D.left_since disk refused.0) }

        // Whatever the refusal, nothing is written on a disk with a half that is no journal's.
        ensures foreign_stays { (is_foreign (D.seen disk).a || is_foreign (D.seen disk).b) ≡ true
            → (D.seen (disk_after result) ≡ D.seen disk) × LeavesOnly D.moment D.left_since disk (disk_after result) (D.may_leave disk) }

        // Where nothing was pending, a crash at any moment of the call leaves a sound image of the same text, in no more entries.
        ensures runs { Only (D.seen disk) (D.may_leave disk) → IsSound (D.seen disk)
            → Runs D.moment D.left_since D.faults D.supply disk (disk_after result) (SaysOnly (text_of (D.seen disk)) (length (live_entries (D.seen disk)))) }

        // Whatever was pending, it leaves what one before the call may have left, or a sound image of the same text.
        ensures pending { IsSound (D.seen disk)
            → Runs D.moment D.left_since D.faults D.supply disk (disk_after result) (LeftOrSays (D.may_leave disk) (text_of (D.seen disk)) (length (live_entries (D.seen disk)))) }
        ensures supply { Draws (D.supply disk) (D.supply (disk_after result)) }
        ensures failed { IfErr result (λ refused. HasReason D.faults D.explains disk refused.0 refused.1) }

        // The disk fails and loses its power only where that is told.
        ensures unfailed { (IfErr result (λ refused. refused.1 ≢ JournalFault.Failed)) → IsUnfailed D.faults D.supply disk (disk_after result) }
    {
        let mut journal = Journal::shut(alloc, disk);
        match journal.reopen() {
            Ok(entries) => Ok((journal, entries)),
            Err(fault) => Err((journal.into_disk(), fault)),
        }
    }

    /// The journal of a disk, shut: it knows nothing of its entries, and is of no use before `reopen`. It takes no memory and
    /// touches nothing.
    pub fn shut(alloc: Global, disk: D) -> Journal<D>
        ensures { disk_of result ≡ disk }
    {
        Journal {
            disk,
            alloc,
            live: Half::A,
            gate: FIRST_GATE,
            entries: 0,
            bytes: 0,
        }
    }

    /// Opens the journal of the disk that it holds, in any state, and gives its entries in order, as `recover` does. After
    /// an `Err` it is shut.
    pub fn reopen(&mut self) -> Result<Vec<Bytes>, JournalFault>
        ensures entries { IfOk result (λ entries. entries.items ≡ live_entries (D.seen (disk_of self.old))) }
        ensures usable { OnOk result (IsSound (D.seen (disk_of self.old)) → IsUsable D.seen D.may_leave self.new) }
        ensures same { OnOk result (IsSound (D.seen (disk_of self.old))
            → entries_in_journal D.seen self.new ≡ live_entries (D.seen (disk_of self.old))) }
        ensures text { OnOk result (IsSound (D.seen (disk_of self.old))
            → text_of (D.seen (disk_of self.new)) ≡ text_of (D.seen (disk_of self.old))) }

        // The entries put together are the text.
        ensures read { IfOk result (λ entries. IsSound (D.seen (disk_of self.old))
            → concat entries.items ≡ text_of (D.seen (disk_of self.old))) }
        ensures image { OnOk result (D.seen (disk_of self.new)
            ≡ arranged (both_have_entries (D.seen (disk_of self.old))) (other (live_half (D.seen (disk_of self.old)))) (D.seen (disk_of self.old))) }
        ensures cut { OnOk result (IsSound (D.seen (disk_of self.old)) → both_have_entries (D.seen (disk_of self.old)) ≡ true
            → length (spare_bytes D.seen self.new) ≡ 9) }
        ensures ours { OnOk result ((is_foreign (D.seen (disk_of self.old)).a || is_foreign (D.seen (disk_of self.old)).b) ≡ false) }
        ensures foreign { IfErr result (λ fault. fault ≡ JournalFault.NotAJournal
            → (is_foreign (D.seen (disk_of self.old)).a || is_foreign (D.seen (disk_of self.old)).b) ≡ true) }
        ensures no_foreign { IfErr result (λ fault. IsSound (D.seen (disk_of self.old)) → fault ≡ JournalFault.NotAJournal → ⊥) }
        ensures untouched { IfErr result (λ fault. fault ≡ JournalFault.NotAJournal
            → IsUntouched D.seen D.may_leave D.moment D.left_since (disk_of self.old) (disk_of self.new)) }
        ensures foreign_stays { (is_foreign (D.seen (disk_of self.old)).a || is_foreign (D.seen (disk_of self.old)).b) ≡ true
            → (D.seen (disk_of self.new) ≡ D.seen (disk_of self.old))
            × LeavesOnly D.moment D.left_since (disk_of self.old) (disk_of self.new) (D.may_leave (disk_of self.old)) }
        ensures runs { Only (D.seen (disk_of self.old)) (D.may_leave (disk_of self.old)) → IsSound (D.seen (disk_of self.old))
            → Runs D.moment D.left_since D.faults D.supply (disk_of self.old) (disk_of self.new) (SaysOnly (text_of (D.seen (disk_of self.old))) (length (live_entries (D.seen (disk_of self.old))))) }
        ensures pending { IsSound (D.seen (disk_of self.old))
            → Runs D.moment D.left_since D.faults D.supply (disk_of self.old) (disk_of self.new)
            (LeftOrSays (D.may_leave (disk_of self.old)) (text_of (D.seen (disk_of self.old))) (length (live_entries (D.seen (disk_of self.old))))) }
        ensures supply { Draws (D.supply (disk_of self.old)) (D.supply (disk_of self.new)) }
        ensures failed { IfErr result (HasReason D.faults D.explains (disk_of self.old) (disk_of self.new)) }
        ensures unfailed { (IsErrOf result JournalFault.Failed → ⊥) → IsUnfailed D.faults D.supply (disk_of self.old) (disk_of self.new) }
    {
        match open(self.alloc, &mut self.disk) {
            Ok(opened) => {
                let Opened { live, found } = opened;
                let Found {
                    entries,
                    gate,
                    bytes,
                } = found;
                self.live = live;
                self.gate = FIRST_GATE + gate as u64;
                self.entries = entries.len().min(u32::MAX as usize) as u32;
                self.bytes = bytes as u64;
                Ok(entries)
            }
            Err(fault) => Err(fault),
        }
    }

    /// Adds an entry behind the others. At `Ok` it is acknowledged: from then on each crash leaves it. After an `Err`
    /// the journal isn't usable, and a crash leaves the entry or not. `NotAJournal` doesn't come.
    pub fn append(&mut self, entry: &[u8]) -> Result<(), JournalFault>
        requires usable { IsUsable D.seen D.may_leave self.old }
        requires short { length entry.now < 2 ^ 32 }
        ensures usable { OnOk result (IsUsable D.seen D.may_leave self.new) }
        ensures added { OnOk result (entries_in_journal D.seen self.new ≡ entries_in_journal D.seen self.old ++ entry.now ∷ []) }
        ensures spare { OnOk result (spare_bytes D.seen self.new ≡ spare_bytes D.seen self.old) }
        ensures text { OnOk result (text_of (D.seen (disk_of self.new)) ≡ text_of (D.seen (disk_of self.old)) ++ entry.now) }
        ensures step { IsStep D.seen D.may_leave D.moment D.left_since D.faults D.supply D.explains (disk_of self.old) (disk_of self.new)
            (SaysMaybe (text_of (D.seen (disk_of self.old))) entry.now (length (live_entries (D.seen (disk_of self.old))) + 1)) result }
    {
        let mut built = Entry::with_room(self.alloc, entry.len())?;
        built.extend_from_slice(entry)?;
        self.append_entry(built)
    }

    /// Adds an entry behind the others, as `append` does, from where it was built. It takes no memory but the disk's.
    pub fn append_entry(&mut self, entry: Entry) -> Result<(), JournalFault>
        requires usable { IsUsable D.seen D.may_leave self.old }
        requires short { length entry.payload < 2 ^ 32 }
        ensures usable { OnOk result (IsUsable D.seen D.may_leave self.new) }
        ensures added { OnOk result (entries_in_journal D.seen self.new ≡ entries_in_journal D.seen self.old ++ entry.payload ∷ []) }
        ensures spare { OnOk result (spare_bytes D.seen self.new ≡ spare_bytes D.seen self.old) }
        ensures text { OnOk result (text_of (D.seen (disk_of self.new)) ≡ text_of (D.seen (disk_of self.old)) ++ entry.payload) }
        ensures step { IsStep D.seen D.may_leave D.moment D.left_since D.faults D.supply D.explains (disk_of self.old) (disk_of self.new)
            (SaysMaybe (text_of (D.seen (disk_of self.old))) entry.payload (length (live_entries (D.seen (disk_of self.old))) + 1)) result }
    {
        let framed = entry.into_framed();
        self.add(payload_in(&framed), &framed)
    }

    // Adds an entry behind the others, which is framed.
    fn add(&mut self, payload: &[u8], framed: &[u8]) -> Result<(), JournalFault>
        requires usable { IsUsable D.seen D.may_leave self.old }
        requires short { length payload.now < 2 ^ 32 }
        requires framed { framed.now ≡ size_bytes (length payload.now) ++ (payload.now ++ 0 ∷ []) }
        ensures usable { OnOk result (IsUsable D.seen D.may_leave self.new) }
        ensures added { OnOk result (entries_in_journal D.seen self.new ≡ entries_in_journal D.seen self.old ++ payload.now ∷ []) }
        ensures spare { OnOk result (spare_bytes D.seen self.new ≡ spare_bytes D.seen self.old) }
        ensures text { OnOk result (text_of (D.seen (disk_of self.new)) ≡ text_of (D.seen (disk_of self.old)) ++ payload.now) }
        ensures step { IsStep D.seen D.may_leave D.moment D.left_since D.faults D.supply D.explains (disk_of self.old) (disk_of self.new)
            (SaysMaybe (text_of (D.seen (disk_of self.old))) payload.now (length (live_entries (D.seen (disk_of self.old))) + 1)) result }
    {
        add_entry(&mut self.disk, self.live, self.gate, payload, framed)?;
        self.gate += framed.len() as u64;
        self.entries = self.entries.saturating_add(1);
        self.bytes = bytes_with(self.bytes, payload);
        Ok(())
    }

    /// Folds the entries into one of all their payloads, in the other half, and cuts the half that held them to its first
    /// gate. After an `Err` the journal isn't usable; a crash leaves the same text. `NotAJournal` doesn't come.
    pub fn fold(&mut self) -> Result<(), JournalFault>
        requires usable { IsUsable D.seen D.may_leave self.old }
        requires some { 1 ≤ entry_count self.old }
        requires small { byte_count self.old < 2 ^ 32 }
        ensures usable { OnOk result (IsUsable D.seen D.may_leave self.new) }
        ensures one { OnOk result (entries_in_journal D.seen self.new ≡ concat (entries_in_journal D.seen self.old) ∷ []) }
        ensures cut { OnOk result (length (spare_bytes D.seen self.new) ≡ 9) }
        ensures text { OnOk result (text_of (D.seen (disk_of self.new)) ≡ text_of (D.seen (disk_of self.old))) }
        ensures step { IsStep D.seen D.may_leave D.moment D.left_since D.faults D.supply D.explains (disk_of self.old) (disk_of self.new)
            (SaysOnly (text_of (D.seen (disk_of self.old))) (length (live_entries (D.seen (disk_of self.old))))) result }
    {
        let mut half = vec![in self.alloc; 0; self.gate as usize + 1]?;
        let mut text = Vec::with_capacity(self.alloc, self.bytes as usize)?;
        let mut framed = Vec::with_capacity(self.alloc, self.bytes as usize + 5)?;
        let spare = other(self.live);
        fold_disk(
            &mut self.disk,
            self.live,
            spare,
            &mut half,
            &mut text,
            &mut framed,
        )?;
        self.live = spare;
        self.gate = FIRST_GATE + framed.len() as u64;
        self.entries = 1;
        self.bytes = text.len() as u64;
        Ok(())
    }

    /// How many entries there are, up to the greatest u32.
    pub fn entries(&self) -> u32
        ensures { result ≡ entry_count self.now }
    {
        self.entries
    }

    /// How many bytes of payload the entries have together, up to the greatest u64.
    pub fn bytes(&self) -> u64
        ensures { result ≡ byte_count self.now }
    {
        self.bytes
    }

    /// The disk, lent.
    pub fn disk(&self) -> &D
        ensures { result.now ≡ disk_of self.now }
    {
        &self.disk
    }

    /// The disk, handed back.
    pub fn into_disk(self) -> D
        ensures { result ≡ disk_of self }
    {
        let Journal {
            disk,
            alloc: _,
            live: _,
            gate: _,
            entries: _,
            bytes: _,
        } = self;
        disk
    }
}

impl<D: Power> Journal<D> {
    ghost use Rattle.vote_journal.specs.Usable.{disk_of};
    ghost use Rattle.std.specs.Prelude.{OnErr, true, false, OnOk, ◌≡◌};
    ghost use Rattle.disk_model.specs.Disk.{Only, Elapses};

    /// Switches the disk on, as `Power::switch_on` does. The journal is shut then.
    pub fn switch_on(&mut self) -> Result<(), AllocError>
        requires { (D.supply (disk_of self.old)).off ≡ true }
        ensures image { OnOk result (D.may_leave (disk_of self.old) (D.seen (disk_of self.new))) }
        ensures durable { OnOk result (Only (D.seen (disk_of self.new)) (D.may_leave (disk_of self.new))) }
        ensures time { Elapses (D.moment (disk_of self.old)) (D.moment (disk_of self.new)) (D.left_since (disk_of self.old))
            (D.left_since (disk_of self.new)) (D.may_leave (disk_of self.new)) }
        ensures faults { D.faults (disk_of self.new) ≡ D.faults (disk_of self.old) }
        ensures supply { OnOk result (D.supply (disk_of self.new) ≡ record (D.supply (disk_of self.old)) { off = false }) }
        ensures refused { OnErr result (disk_of self.new ≡ disk_of self.old) }
    {
        self.disk.switch_on()
    }
}

// How many bytes of payload there are with an entry more, up to the greatest u64.
fn bytes_with(bytes: u64, entry: &[u8]) -> u64
    ensures { result ≡ min (bytes + length entry.now) (2 ^ 64 - 1) }
{
    bytes.saturating_add(entry.len() as u64)
}
