//! The six kinds as one type, and the cast of a run.

ghost use Rattle.std.specs.Prelude.{◌≡◌, ◌++◌, map, replicate, IfOk, OnOk};
ghost use Rattle.std.specs.List.{flat_map};
ghost use Rattle.hb_base.specs.Limits.{most_faulty};
ghost use Rattle.liar_cast.specs.Kinds.{names, name_of};

use crate::babble::Babble;
use crate::bval_both::BvalBoth;
use crate::echo_split::EchoSplit;
use crate::equivocate::Equivocate;
use crate::false_share::FalseShare;
use crate::liar::{Liar, LiarSeat};
use crate::lies::Lies;
use crate::silent::Silent;
use hb_base::LiarName;
use hb_base::limits::MOST_FAULTY;
use hb_wire::Post;
use std::alloc::{AllocError, Global};

/// A liar of one of the six kinds.
#[derive(Drop)]
pub enum Kind {
    /// Says nothing.
    Silent(Silent),
    /// Broadcasts two values at once.
    Equivocate(Equivocate),
    /// Echoes to the even nodes, and not to the odd ones.
    EchoSplit(EchoSplit),
    /// Supports both bits.
    BvalBoth(BvalBoth),
    /// Hands out a share of no coin.
    FalseShare(FalseShare),
    /// Says bytes that mean nothing.
    Babble(Babble),
}

impl Liar for Kind {
    ghost called = { name_of };

    fn name(&self) -> LiarName {
        match self {
            Kind::Silent(liar) => liar.name(),
            Kind::Equivocate(liar) => liar.name(),
            Kind::EchoSplit(liar) => liar.name(),
            Kind::BvalBoth(liar) => liar.name(),
            Kind::FalseShare(liar) => liar.name(),
            Kind::Babble(liar) => liar.name(),
        }
    }

    fn start(&mut self, alloc: Global, me: &LiarSeat, lies: &mut Lies) {
        match self {
            Kind::Silent(liar) => liar.start(alloc, me, lies),
            Kind::Equivocate(liar) => liar.start(alloc, me, lies),
            Kind::EchoSplit(liar) => liar.start(alloc, me, lies),
            Kind::BvalBoth(liar) => liar.start(alloc, me, lies),
            Kind::FalseShare(liar) => liar.start(alloc, me, lies),
            Kind::Babble(liar) => liar.start(alloc, me, lies),
        }
    }

    fn hear(&mut self, alloc: Global, me: &LiarSeat, post: &Post, lies: &mut Lies) {
        match self {
            Kind::Silent(liar) => liar.hear(alloc, me, post, lies),
            Kind::Equivocate(liar) => liar.hear(alloc, me, post, lies),
            Kind::EchoSplit(liar) => liar.hear(alloc, me, post, lies),
            Kind::BvalBoth(liar) => liar.hear(alloc, me, post, lies),
            Kind::FalseShare(liar) => liar.hear(alloc, me, post, lies),
            Kind::Babble(liar) => liar.hear(alloc, me, post, lies),
        }
    }
}

/// The names of the kinds, in order.
pub fn all_names() -> [LiarName; 6]
    ensures { result ≡ names }
{
    [
        Silent::new().name(),
        Equivocate::new().name(),
        EchoSplit::new().name(),
        BvalBoth::new().name(),
        FalseShare::new().name(),
        Babble::new().name(),
    ]
}

// Adds one liar of each kind, in order.
fn add_each(cast: &mut Vec<Kind>) -> Result<(), AllocError>
    ensures { OnOk result (map name_of cast.new.items ≡ map name_of cast.old.items ++ names) }
{
    cast.push(Kind::Silent(Silent::new()))?;
    cast.push(Kind::Equivocate(Equivocate::new()))?;
    cast.push(Kind::EchoSplit(EchoSplit::new()))?;
    cast.push(Kind::BvalBoth(BvalBoth::new()))?;
    cast.push(Kind::FalseShare(FalseShare::new()))?;
    cast.push(Kind::Babble(Babble::new()))?;
    Ok(())
}

/// One liar of each kind, in the order of the names, and that five times, since as many may lie in a run. A program
/// boxes each of them where it hands them over.
pub fn cast(alloc: Global) -> Result<Vec<Kind>, AllocError>
    ensures { IfOk result (λ cast. map name_of cast.items ≡ flat_map (λ each. each) (replicate most_faulty names)) }
{
    let mut cast = Vec::new(alloc);
    for _time in 0..MOST_FAULTY {
        add_each(&mut cast)?;
    }
    Ok(cast)
}
