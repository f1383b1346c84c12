//! The keys under which posts are kept.

// What a place is for: the votes that an actor has cast, or those of some kinds that actors hear.
#[derive(Clone, Copy, Debug, PartialEq, Eq, PartialOrd, Ord)]
pub(crate) enum Topic {
    Own,
    Handed,
    Spread,
    Claimed,
    Shared,
    FromDesk,
    FromLanes,
}

// A place for posts. The owner is a node, or the lane whose votes they are; the part is an actor, a target or a round, and 0
// where there is none.
#[derive(Clone, Copy, Debug, PartialEq, Eq, PartialOrd, Ord)]
pub(crate) struct Place {
    pub(crate) topic: Topic,
    pub(crate) owner: u8,
    pub(crate) epoch: u8,
    pub(crate) part: u8,
}
