//! Byte strings that never change.
ghost use Rattle.std.specs.Prelude.{◌≡◌, ◌+◌, ◌++◌, ◌≤◌, IfOk, IfSome, nat_eq, refl, Some, length, take, drop};
ghost use Rattle.std.specs.Ordering.{nat_cmp};
ghost use Rattle.std.specs.Cmp.Lexicographic.{pointwise, slice_cmp, nat_list_eq_equiv, nat_list_cmp_total, texts_ties, texts_po};
ghost use Rattle.std.specs.Cmp.{partial_equiv_from_equiv};

use std::alloc::{AllocError, Global};
use std::cmp::Ordering;
use std::fmt;
use std::marker::Model;
use std::sync::ArcSlice;

/// A byte string that never changes. Its owners, which may be in several threads, share one copy of the bytes, which
/// goes with the last of them. Clauses see it as the list of its bytes.
#[derive(Drop)]
pub struct Bytes {
    // The string is so many of these bytes, from this place on: owners of a part keep the whole.
    whole: ArcSlice<u8>,
    from: usize,
    len: usize,
}

impl Model for Bytes {
    ghost use Rattle.std.specs.Prelude.{ℕ, List, ◌+◌, ◌≤◌, take, drop, length};
    ghost use Rattle.std.specs.Arc.{arc_slice_items};

    ghost Value = { List ℕ };

    ghost view = { λ b. take b.len (drop b.from (arc_slice_items b.whole)) };

    ghost invariant = { λ b. b.from + b.len ≤ length (arc_slice_items b.whole) };
}

impl Bytes {
    /// A copy of these bytes. Err where there is no memory for it.
    pub fn copy(alloc: Global, from: &[u8]) -> Result<Bytes, AllocError>
        ensures { IfOk result (λ b. b ≡ from.now) }
    {
        let whole = ArcSlice::from_slice(alloc, from)?;
        Ok(Bytes {
            whole,
            from: 0,
            len: from.len(),
        })
    }

    /// The same bytes, without a copy of them. Err where there is no memory for the count of owners: the bytes are
    /// then gone.
    pub fn from_vec(bytes: Vec<u8>) -> Result<Bytes, AllocError>
        ensures { IfOk result (λ b. b ≡ bytes.items) }
    {
        let len = bytes.len();
        let whole = ArcSlice::from_vec(bytes)?;
        Ok(Bytes {
            whole,
            from: 0,
            len,
        })
    }

    /// So many of the bytes, from this place on: one more owner of the whole, and no copy. Err only where 2 ^ 63 - 1 owners are
    /// counted already.
    pub fn part(&self, from: usize, len: usize) -> Result<Bytes, AllocError>
        requires { from + len ≤ length self.now }
        ensures { IfOk result (λ b. b ≡ take len (drop from self.now)) }
    {
        let whole = self.whole.clone()?;
        Ok(Bytes {
            whole,
            from: self.from + from,
            len,
        })
    }

    /// The longer part that begins with `front`, if `front` is found just before these bytes in the bytes that their owners
    /// share: one more owner, and no copy. No clause says when None or Err comes: a caller has to be ready for both at any call.
    pub fn with_front(&self, front: &[u8]) -> Result<Option<Bytes>, AllocError>
        ensures { IfOk result (λ longer. IfSome longer (λ b. b ≡ front.now ++ self.now)) }
    {
        let len = front.len();
        if self.from < len {
            return Ok(None);
        }
        let from = self.from - len;
        let before = &self.whole.as_slice()[from..self.from];
        let stands = before == front;
        if !stands {
            return Ok(None);
        }
        let whole = self.whole.clone()?;
        Ok(Some(Bytes {
            whole,
            from,
            len: len + self.len,
        }))
    }

    /// The bytes, lent.
    pub fn as_slice(&self) -> &[u8]
        ensures { result.now ≡ self.now }
    {
        &self.whole.as_slice()[self.from..self.from + self.len]
    }
}

/// One more owner of the same bytes: nothing is copied and no memory is taken. Err only where 2 ^ 63 - 1 owners are
/// counted already.
impl Clone for Bytes {
    ghost is_clone = { λ b copy. copy ≡ b };

    fn clone(&self) -> Result<Bytes, AllocError> {
        let whole = self.whole.clone()?;
        Ok(Bytes {
            whole,
            from: self.from,
            len: self.len,
        })
    }
}

impl fmt::Debug for Bytes {
    fn fmt<W: fmt::Write>(&self, f: &mut fmt::Formatter<W>) -> Result<(), fmt::Error> {
        self.as_slice().fmt(f)
    }
}

// Byte strings compare as their lists do, in lexicographic order.
impl PartialEq for Bytes {
    ghost eq = { pointwise nat_eq };

    ghost laws = { partial_equiv_from_equiv nat_list_eq_equiv };

    fn eq(&self, other: &Bytes) -> bool {
        self.as_slice() == other.as_slice()
    }
}

impl Eq for Bytes {
    ghost laws = { nat_list_eq_equiv };
}

impl PartialOrd for Bytes {
    ghost partial_cmp = { λ x y. Some (slice_cmp nat_cmp x y) };

    ghost laws = { texts_po };

    fn partial_cmp(&self, other: &Bytes) -> Option<Ordering> {
        Some(self.cmp(other))
    }
}

impl Ord for Bytes {
    ghost cmp = { slice_cmp nat_cmp };

    ghost total = { nat_list_cmp_total };

    ghost matches_partial_cmp = { λ x y. refl };

    ghost matches_eq = { texts_ties };

    fn cmp(&self, other: &Bytes) -> Ordering {
        self.as_slice().cmp(other.as_slice())
    }
}
