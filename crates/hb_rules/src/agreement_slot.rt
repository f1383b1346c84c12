//! The names of a lane's slots in an agreement.

/// A place for one vote of a lane in the binary agreement of an epoch (after PODC 2014, figure 2). Rounds count from 0.
#[derive(Clone, Copy, Debug, PartialEq, Eq)]
pub enum AgreementSlot {
    /// The estimate with which the lane begins: 1 once it has delivered, 0 once its desk wants no more lanes.
    Begin { bit: bool },
    /// That the lane supports a bit.
    Support { round: u8, bit: bool },
    /// The bit that the lane has accepted.
    Accept { round: u8 },
    /// That the lane is left with one bit, before the coin is shown: in the rules with a confirm phase.
    ConfirmOne { round: u8, bit: bool },
    /// That the lane is left with both bits, likewise.
    ConfirmBoth { round: u8 },
    /// That the lane picks one bit.
    PickOne { round: u8, bit: bool },
    /// That the lane picks both bits.
    PickBoth { round: u8 },
    /// The node's share of the coin of the round.
    ShowShare { round: u8 },
    /// The estimate of the round after this one.
    GoOn { round: u8 },
    /// The decision, by this round.
    Decide { round: u8 },
}
