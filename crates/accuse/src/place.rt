//! The keys under which first posts are found.

// What a place is for: the votes of a kind that exclude each other, or the root that the Vals of an epoch show.
#[derive(Clone, Copy, Debug, PartialEq, Eq, PartialOrd, Ord)]
pub(crate) enum Kind {
    Root,
    Val,
    Echo,
    Ready,
    Delivered,
    Est,
    Aux,
    Conf,
    Pick,
    Coin,
    Decided,
    Propose,
    Closed,
}

// A place for votes of an actor that exclude each other. Round and target are 0 where the kind has none.
#[derive(Clone, Copy, Debug, PartialEq, Eq, PartialOrd, Ord)]
pub(crate) struct Place {
    pub(crate) actor: u8,
    pub(crate) kind: Kind,
    pub(crate) epoch: u8,
    pub(crate) round: u8,
    pub(crate) target: u8,
}
