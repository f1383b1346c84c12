ghost use Rattle.std.specs.Prelude.{◌≡◌, ℕ, ◌<◌, ◌≤◌, true, [], ◌∷◌, length};
ghost use Rattle.hb_rules.specs.Agreement.{confirms};
ghost use Rattle.aba_core.specs.State.{slot_round};
ghost use Rattle.aba_core.specs.Rows.{row_at, row_of, begin_slots, confirm_slots, names_of, needs_confirm, IsKnown, room_of};
ghost use Rattle.aba_core.specs.Passing.{Passed, Settled};

use crate::aba::Aba;
use hb_rules::{AgreementSlot, Due};

// A row of slots, with some for each round.
#[derive(Clone, Copy, Debug, PartialEq, Eq)]
pub(crate) enum Row {
    Support,
    Accept,
    ConfirmOne,
    ConfirmBoth,
    PickOne,
    PickBoth,
    ShowShare,
    GoOn,
    Decide,
}

// Going through the rows.
impl Aba {
    // Casts all that is owed, where no row owes anything in a round before this one.
    pub(crate) fn settle(&mut self, from: u8, due: &mut Due)
        requires from { from ≤ self.old.config.rounds }
        requires room { room_of self.old ≤ due.old.spare }
        ensures { Settled from self.old self.new due.old due.new }
    {
        'again: loop {
            let before = count(due);
            self.pass(from, due);
            let after = count(due);
            if after == before {
                return;
            }
        }
    }

    // Goes through all rows once, from this round on.
    fn pass(&mut self, from: u8, due: &mut Due)
        requires from { from ≤ self.old.config.rounds }
        requires room { room_of self.old ≤ due.old.spare }
        ensures passed { Passed from self.old self.new (names_of self.old.config) due.old due.new }
        ensures config { self.new.config ≡ self.old.config }
        ensures room { room_of self.new ≤ due.new.spare }
    {
        self.begin_rows(from, due);
        self.row(Row::Support, from, due);
        self.row(Row::Accept, from, due);
        self.confirm_rows(from, due);
        self.row(Row::PickOne, from, due);
        self.row(Row::PickBoth, from, due);
        self.row(Row::ShowShare, from, due);
        self.row(Row::GoOn, from, due);
        self.row(Row::Decide, from, due);
    }

    // Goes through the first two rows, which are of round 0.
    fn begin_rows(&mut self, from: u8, due: &mut Due)
        requires room { room_of self.old ≤ due.old.spare }
        ensures passed { Passed from self.old self.new begin_slots due.old due.new }
        ensures config { self.new.config ≡ self.old.config }
        ensures room { room_of self.new ≤ due.new.spare }
    {
        let rounds = self.config.rounds();
        prove!(rounds >= 1);
        if from > 0 {
            return;
        }
        self.offer(AgreementSlot::Begin { bit: true }, due);
        self.offer(AgreementSlot::Begin { bit: false }, due);
    }

    // Goes through the rows of the confirm phase, if the rules have one.
    fn confirm_rows(&mut self, from: u8, due: &mut Due)
        requires from { from ≤ self.old.config.rounds }
        requires room { room_of self.old ≤ due.old.spare }
        ensures passed { Passed from self.old self.new (confirm_slots (confirms self.old.config) self.old.config) due.old due.new }
        ensures config { self.new.config ≡ self.old.config }
        ensures room { room_of self.new ≤ due.new.spare }
    {
        if !self.confirms() {
            return;
        }
        self.row(Row::ConfirmOne, from, due);
        self.row(Row::ConfirmBoth, from, due);
    }

    // Goes through a row, from this round on. Rounds in which nothing is cast owe nothing there.
    fn row(&mut self, row: Row, from: u8, due: &mut Due)
        requires from { from ≤ self.old.config.rounds }
        requires room { room_of self.old ≤ due.old.spare }
        requires in_use { needs_confirm row ≡ true → confirms self.old.config ≡ true }
        ensures passed { Passed from self.old self.new (row_of self.old.config row) due.old due.new }
        ensures config { self.new.config ≡ self.old.config }
        ensures room { room_of self.new ≤ due.new.spare }
    {
        let mut round = from;
        while round < self.top {
            self.row_at(row, round, due);
            round += 1;
        }
    }

    // Goes through the slots of a row in one round.
    fn row_at(&mut self, row: Row, round: u8, due: &mut Due)
        requires room { room_of self.old ≤ due.old.spare }
        requires round { round < self.old.config.rounds }
        requires in_use { needs_confirm row ≡ true → confirms self.old.config ≡ true }
        ensures passed { (from : ℕ) → from ≤ round → Passed from self.old self.new (row_at self.old.config row round) due.old due.new }
        ensures config { self.new.config ≡ self.old.config }
        ensures room { room_of self.new ≤ due.new.spare }
    {
        match row {
            Row::Support => {
                self.offer(AgreementSlot::Support { round, bit: false }, due);
                self.offer(AgreementSlot::Support { round, bit: true }, due);
            }
            Row::Accept => self.offer(AgreementSlot::Accept { round }, due),
            Row::ConfirmOne => {
                self.offer(AgreementSlot::ConfirmOne { round, bit: false }, due);
                self.offer(AgreementSlot::ConfirmOne { round, bit: true }, due);
            }
            Row::ConfirmBoth => self.offer(AgreementSlot::ConfirmBoth { round }, due),
            Row::PickOne => {
                self.offer(AgreementSlot::PickOne { round, bit: false }, due);
                self.offer(AgreementSlot::PickOne { round, bit: true }, due);
            }
            Row::PickBoth => self.offer(AgreementSlot::PickBoth { round }, due),
            Row::ShowShare => self.offer(AgreementSlot::ShowShare { round }, due),
            Row::GoOn => self.go_on_at(round, due),
            Row::Decide => self.offer(AgreementSlot::Decide { round }, due),
        }
    }

    // No round follows the last.
    fn go_on_at(&mut self, round: u8, due: &mut Due)
        requires room { room_of self.old ≤ due.old.spare }
        requires round { round < self.old.config.rounds }
        ensures passed { (from : ℕ) → from ≤ round → Passed from self.old self.new (row_at self.old.config Row.GoOn round) due.old due.new }
        ensures config { self.new.config ≡ self.old.config }
        ensures room { room_of self.new ≤ due.new.spare }
    {
        let rounds = self.config.rounds();
        prove!(round < rounds);
        if round + 1 >= rounds {
            return;
        }
        self.offer(AgreementSlot::GoOn { round }, due);
    }

    // Casts the vote of a slot, if it is owed.
    fn offer(&mut self, slot: AgreementSlot, due: &mut Due)
        requires known { IsKnown self.old.config slot }
        requires room { room_of self.old ≤ due.old.spare }
        ensures passed { (from : ℕ) → from ≤ slot_round slot → Passed from self.old self.new (slot ∷ []) due.old due.new }
        ensures config { self.new.config ≡ self.old.config }
        ensures room { room_of self.new ≤ due.new.spare }
    {
        if self.is_filled(slot) {
            return;
        }
        match self.choice(slot) {
            Some(vote) => {
                self.cast(&vote);
                due.push_reserved(vote);
            }
            None => {}
        }
    }
}

// How many votes are due.
fn count(due: &Due) -> usize
    ensures { result ≡ length due.now.votes }
{
    due.votes().len()
}
