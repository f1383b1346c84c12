//! Whether a run's broadcasts agree.

ghost use Rattle.std.specs.Prelude.{◌≡◌, ◌↔◌, IsTrue};
ghost use Rattle.hb_rules.specs.History.{IsLegal};
ghost use Rattle.hb_rules.specs.Strings.{NoCollision};
ghost use Rattle.rbc_world.specs.Agreed.{IsAgreed};
ghost use Rattle.rbc_world.specs.Backing.{RootsAreBound, SaidRootsAreBound, IsHashedOrSaid, NoCollisionAmong};

use crate::claims::Kind;
use crate::entries::first_claims;
use crate::proposed::{are_none, unproposed};
use hb_rules::Report;

/// Whether in each lane and epoch of a run all correct nodes' Ready votes name one root, all their Delivered votes carry
/// one value, and in the lane of a correct node this value is one that its desk proposed (CCS 2016, section 4.2). It is so
/// for each legal history in which no two hashed strings share a digest. It takes no memory.
///
/// In each such history a root for which more than f nodes are ready in a lane binds one codeword, which isn't computed here.
/// It binds all Echoes that were said, where their strings have digests of their own too.
///
/// It goes through the posts three times. A post's bytes are read, and once more those of the first post of its lane and
/// epoch, with which it is compared until they differ: equal ones are equally long, so time is linear in the bytes of the
/// history. Where a desk proposes more than once for an epoch, what was delivered there is read again for each proposal.
pub fn delivered_agree(report: &Report) -> bool
    ensures exact { IsTrue result ↔ IsAgreed report.now.config report.now.history.items }
    ensures legal { IsLegal report.now.config report.now.history.items → NoCollision report.now.config report.now.history.items → IsTrue result }
    ensures roots { IsLegal report.now.config report.now.history.items → NoCollision report.now.config report.now.history.items
        → RootsAreBound report.now.config report.now.history.items }
    ensures said { IsLegal report.now.config report.now.history.items → NoCollisionAmong (IsHashedOrSaid report.now.config report.now.history.items)
        → SaidRootsAreBound report.now.config report.now.history.items }
{
    let config = &report.config;
    let liars = config.liars();
    let posts = report.history.as_slice();
    let Some(_readies) = first_claims(config, Kind::Ready, posts) else {
        return false;
    };
    let Some(deliveries) = first_claims(config, Kind::Delivered, posts) else {
        return false;
    };
    are_none(&liars, &unproposed(config, posts, deliveries))
}
