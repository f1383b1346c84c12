//! Posts by their places.
ghost use Rattle.std.specs.Prelude.{◌≡◌, ◌<◌, ◌≤◌, [], ◌∷◌, ◌++◌, vec_len, vec_capacity, None, IsOk, IfOk, OnOk, if◌then◌else◌};
ghost use Rattle.post_judge.specs.declared.place.Place.{Place};
ghost use Rattle.post_judge.specs.Tables.{same_place, numbers_at, votes_at, HasRoomAt, Adds};

use crate::place::Place;
use hb_wire::Vote;
use std::alloc::{AllocError, Global};
use std::collections::BTreeMap;

// The numbers of the posts at one place, in order, and beside them the vote of each, so that the votes can be lent as they lie.
#[derive(Drop)]
pub(crate) struct Bucket {
    numbers: Vec<u32>,
    votes: Vec<Vote>,
}

impl Bucket {
    // No post, and room for one: many places never have more.
    fn new(alloc: Global) -> Result<Bucket, AllocError>
        ensures numbers { IfOk result (λ bucket. bucket.numbers.items ≡ []) }
        ensures votes { IfOk result (λ bucket. bucket.votes.items ≡ []) }
        ensures room { IfOk result (λ bucket. (vec_capacity bucket.numbers ≡ 1) × (vec_capacity bucket.votes ≡ 1)) }
    {
        Ok(Bucket {
            numbers: Vec::with_capacity(alloc, 1)?,
            votes: Vec::with_capacity(alloc, 1)?,
        })
    }

    // Puts a number behind the others, and the vote of its post. With room for both it succeeds, and it gives no room back.
    fn push(&mut self, number: u32, vote: Vote) -> Result<(), AllocError>
        ensures numbers { OnOk result (self.new.numbers.items ≡ self.old.numbers.items ++ number ∷ []) }
        ensures votes { OnOk result (self.new.votes.items ≡ self.old.votes.items ++ vote ∷ []) }
        ensures enough { vec_len self.old.numbers < vec_capacity self.old.numbers → vec_len self.old.votes < vec_capacity self.old.votes
            → IsOk result }
        ensures no_less { (vec_capacity self.old.numbers ≤ vec_capacity self.new.numbers)
            × (vec_capacity self.old.votes ≤ vec_capacity self.new.votes) }
    {
        self.numbers.push(number)?;
        self.votes.push(vote)?;
        Ok(())
    }
}

// The posts at each place. A look-up takes time logarithmic in the number of places.
#[derive(Drop)]
pub(crate) struct Buckets {
    pub(crate) by_place: BTreeMap<Place, Bucket>,
}

impl Buckets {
    // No post. It takes no memory.
    pub(crate) fn new(alloc: Global) -> Buckets
        ensures numbers { (place : Place) → numbers_at result.by_place place ≡ [] }
        ensures votes { (place : Place) → votes_at result.by_place place ≡ [] }
    {
        Buckets {
            by_place: BTreeMap::new(alloc),
        }
    }

    // The numbers of the posts at a place and their votes, lent.
    pub(crate) fn at(&self, place: Place) -> (&[u32], &[Vote])
        ensures numbers { result.0.now ≡ numbers_at self.now.by_place place }
        ensures votes { result.1.now ≡ votes_at self.now.by_place place }
    {
        match self.by_place.get(&place) {
            Some(bucket) => (bucket.numbers.as_slice(), bucket.votes.as_slice()),
            None => (&[], &[]),
        }
    }

    // Puts a number behind those at a place, and the vote of its post. Where there is room for both it succeeds.
    fn add(
        &mut self,
        alloc: Global,
        place: Place,
        number: u32,
        vote: Vote,
    ) -> Result<(), AllocError>
        ensures numbers { OnOk result ((other : Place) → numbers_at self.new.by_place other
            ≡ (if same_place place other then numbers_at self.old.by_place place ++ number ∷ [] else numbers_at self.old.by_place other)) }
        ensures votes { OnOk result ((other : Place) → votes_at self.new.by_place other
            ≡ (if same_place place other then votes_at self.old.by_place place ++ vote ∷ [] else votes_at self.old.by_place other)) }
        ensures enough { HasRoomAt self.old.by_place place → IsOk result }
    {
        match self.by_place.get_mut(&place) {
            Some(bucket) => {
                bucket.push(number, vote)?;
                Ok(())
            }
            None => {
                let mut bucket = Bucket::new(alloc)?;
                bucket.push(number, vote)?;
                self.by_place.insert(place, bucket)?;
                Ok(())
            }
        }
    }

    // Puts it at the place, if there is one. The vote is cloned, and no byte string is copied; this may fail where there is room
    // too. Without a place it succeeds, and no place has more.
    pub(crate) fn add_at(
        &mut self,
        alloc: Global,
        place: Option<Place>,
        number: u32,
        vote: &Vote,
    ) -> Result<(), AllocError>
        ensures ok { OnOk result (Adds self.old.by_place self.new.by_place place number vote.now) }
        ensures nowhere { place ≡ None → IsOk result }
    {
        match place {
            Some(place) => {
                let kept = vote.clone()?;
                self.add(alloc, place, number, kept)?;
                Ok(())
            }
            None => Ok(()),
        }
    }
}
