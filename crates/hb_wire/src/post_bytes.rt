//! The bytes of a post, with what is known of them.

ghost use Rattle.std.specs.Prelude.{◌≡◌, ◌≤◌, ◌↔◌, nat_eq, true, Some, None, Err, IfOk};
ghost use Rattle.std.specs.Cmp.{partial_equiv_from_equiv};
ghost use Rattle.std.specs.Cmp.Lexicographic.{pointwise, nat_list_eq_equiv};
ghost use Rattle.hb_base.specs.Limits.{most_nodes};
ghost use Rattle.hb_wire.specs.Echoes.{is_valid_echo};
ghost use Rattle.hb_wire.specs.Reading.{vote_at};
ghost use Rattle.hb_wire.specs.Votes.{Spells};

use crate::fault::WireFault;
use crate::reading::read_shared;
use crate::spoken::Spoken;
use crate::vote::Vote;
use hb_base::Bytes;
use std::alloc::{AllocError, Global};
use std::fmt;
use std::marker::Model;

/// The bytes of a post. Who posts an Echo whose branch is valid can say so with a proof, and who hears it need not hash the
/// branch. No clause tells whether it was said: clauses see the list of the bytes alone.
#[derive(Drop)]
pub struct PostBytes {
    bytes: Bytes,
    valid: Option<ValidEcho>,
}

// What the bytes spell among n nodes under this version of the rules, if anything, is an Echo that is valid as leaf m.
#[derive(Clone, Copy)]
struct ValidEcho {
    n: u8,
    version: u8,
    m: u8,
}

impl Model for PostBytes {
    ghost use Rattle.std.specs.Prelude.{◌≡◌, ℕ, List, true, Some, IfSome};
    ghost use Rattle.hb_wire.specs.declared.vote.Vote.{Vote};
    ghost use Rattle.hb_wire.specs.Echoes.{is_valid_echo};
    ghost use Rattle.hb_wire.specs.Reading.{vote_at};

    ghost Value = { List ℕ };

    ghost view = { λ w. w.bytes };

    ghost invariant = { λ w. IfSome w.valid (λ v. (vote : Vote) → vote_at v.n v.version w.bytes ≡ Some vote → is_valid_echo v.n v.m vote ≡ true) };
}

impl PostBytes {
    /// Bytes of which nothing is known.
    pub fn plain(bytes: Bytes) -> PostBytes
        ensures { result ≡ bytes }
    {
        PostBytes { bytes, valid: None }
    }

    /// The spelling of this vote among n nodes under this version of the rules: an Echo whose branch leads from its shard, as
    /// leaf m, to its root.
    pub fn of_valid_echo(bytes: Bytes, n: u8, version: u8, m: u8, vote: &Vote) -> PostBytes
        requires spells { Spells n version bytes vote.now }
        requires valid { is_valid_echo n m vote.now ≡ true }
        ensures { result ≡ bytes }
    {
        let valid = Some(ValidEcho { n, version, m });
        PostBytes { bytes, valid }
    }

    /// The vote that the bytes spell among n nodes under this version of the rules. Its shard or its value is a part of them,
    /// with no copy; the batches of a Closed are copied.
    pub fn vote(&self, alloc: Global, n: u8, version: u8) -> Result<Spoken, WireFault>
        requires some { 1 ≤ n }
        requires few { n ≤ most_nodes }
        ensures found { IfOk result (λ vote. Spells n version self.now vote) }
        ensures meant { IfOk result (λ vote. vote_at n version self.now ≡ Some vote) }

        // Bytes are refused exactly where they spell no vote.
        ensures refused { (result ≡ Err WireFault.NotAMessage) ↔ (vote_at n version self.now ≡ None) }
    {
        let vote = read_shared(alloc, n, version, &self.bytes)?;
        match &self.valid {
            Some(echo) if echo.n == n && echo.version == version => {
                Ok(Spoken::of_valid_echo(vote, n, echo.m))
            }
            _ => Ok(Spoken::plain(vote)),
        }
    }

    /// The bytes, lent.
    pub fn as_slice(&self) -> &[u8]
        ensures { result.now ≡ self.now }
    {
        self.bytes.as_slice()
    }

    /// The bytes, lent with what owns them.
    pub fn as_bytes(&self) -> &Bytes
        ensures { result.now ≡ self.now }
    {
        &self.bytes
    }
}

/// One more owner of the same bytes. Err only where 2^63 - 1 owners are counted already.
impl Clone for PostBytes {
    ghost is_clone = { λ bytes copy. copy ≡ bytes };

    fn clone(&self) -> Result<PostBytes, AllocError> {
        let bytes = self.bytes.clone()?;
        Ok(PostBytes {
            bytes,
            valid: self.valid,
        })
    }
}

impl fmt::Debug for PostBytes {
    fn fmt<W: fmt::Write>(&self, f: &mut fmt::Formatter<W>) -> Result<(), fmt::Error> {
        self.bytes.fmt(f)
    }
}

// They are compared as bytes: what is known of them follows from these.
impl PartialEq for PostBytes {
    ghost eq = { pointwise nat_eq };

    ghost laws = { partial_equiv_from_equiv nat_list_eq_equiv };

    fn eq(&self, other: &PostBytes) -> bool {
        self.bytes == other.bytes
    }
}

impl Eq for PostBytes {
    ghost laws = { nat_list_eq_equiv };
}
