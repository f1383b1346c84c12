//! What is kept of the posts that were judged.
ghost use Rattle.std.specs.Prelude.{◌≡◌, ◌↔◌, ◌≤◌, ◌^◌, [], ◌∷◌, ◌++◌, true, length, Some, Contains, IsOk, IfOk, IfSome, OnOk, OnErr};
ghost use Rattle.std.specs.List.{list_any};
ghost use Rattle.hb_rules.specs.Hearing.{spelled};
ghost use Rattle.hb_rules.specs.History.{HasSpelling};
ghost use Rattle.hb_rules.specs.Lanes.{is_correct};
ghost use Rattle.post_judge.specs.Tables.{is_post, AreTold};

use crate::buckets::Buckets;
use crate::placing::{cast_place, own_place, told_place};
use coin_deal::{Deal, deal};
use hb_base::Config;
use hb_wire::{Post, Vote, WireFault, equality_laws, read_shared};
use std::alloc::{AllocError, Global};

// The posts of a run with this config, in order, and by their places the numbers of those that may count, and their votes. A vote
// has its shard or its value in common with its post.
#[derive(Drop)]
pub(crate) struct Table {
    pub(crate) alloc: Global,
    pub(crate) config: Config,
    pub(crate) deal: Deal,
    pub(crate) posts: Vec<Post>,
    pub(crate) buckets: Buckets,
}

// The vote that a post spells, if it spells one.
pub(crate) fn vote_of(
    alloc: Global,
    config: &Config,
    post: &Post,
) -> Result<Option<Vote>, AllocError>
    ensures exact { IfOk result (λ vote. vote ≡ spelled config.now post.now) }
    ensures fits { IfOk result (λ vote. IfSome vote (HasSpelling config.now)) }
{
    match read_shared(alloc, config.n(), config.version(), post.bytes.as_bytes()) {
        Ok(vote) => Ok(Some(vote)),
        Err(WireFault::NotAMessage) => Ok(None),
        Err(WireFault::Memory) => Err(AllocError),
    }
}

// Whether the post of a number is this one.
fn is_post(posts: &[Post], number: u32, post: &Post) -> bool
    ensures { result ≡ is_post posts.now post.now number }
{
    match posts.get(number as usize) {
        Some(one) => *one == *post,
        None => false,
    }
}

// Whether a post is among those of these numbers.
fn has_post(posts: &[Post], numbers: &[u32], post: &Post) -> bool
    ensures { result ≡ list_any (is_post posts.now post.now) numbers.now }
{
    numbers.iter().any(|number| is_post(posts, *number, post))
}

impl Table {
    // No post of a run with this config, and the deal of its coins.
    pub(crate) fn new(alloc: Global, config: &Config) -> Result<Table, AllocError>
        ensures config { IfOk result (λ table. table.config ≡ config.now) }
        ensures deal { IfOk result (λ table. table.deal ≡ config.now) }
        ensures posts { IfOk result (λ table. table.posts.items ≡ []) }
        ensures told { IfOk result (λ table. AreTold config.now [] table.buckets.by_place) }
    {
        let deal = deal(alloc, config)?;
        Ok(Table {
            alloc,
            config: *config,
            deal,
            posts: Vec::new(alloc),
            buckets: Buckets::new(alloc),
        })
    }

    // Whether a post that spells this vote was judged before, and is of a correct node.
    fn was_judged(&self, post: &Post, vote: &Vote) -> bool
        requires told { AreTold self.now.config self.now.posts.items self.now.buckets.by_place }
        requires vote { spelled self.now.config post.now ≡ Some vote.now }
        ensures { (result ≡ true) ↔ (Contains self.now.posts.items post.now × (is_correct self.now.config post.now.from ≡ true)) }
    {
        equality_laws();
        let n = self.config.n();
        let place = own_place(n, post.from, post.actor, vote);
        let (numbers, _) = self.buckets.at(place);
        has_post(&self.posts, numbers, post)
    }

    // The number of the next post. Where 32 bits don't hold it, it is as where there is no memory.
    fn next_number(&self) -> Result<u32, AllocError>
        ensures next { IfOk result (λ number. number ≡ length self.now.posts.items) }
        ensures full { OnErr result (2 ^ 32 ≤ length self.now.posts.items) }
    {
        match u32::try_from(self.posts.len()) {
            Ok(number) => Ok(number),
            Err(_) => Err(AllocError),
        }
    }

    // Puts a post that spells a vote at its places. One of a correct node that was judged before is there, and takes no memory:
    // an actor that is started again says again what it has said.
    fn put_vote(&mut self, post: &Post, vote: &Vote) -> Result<(), AllocError>
        requires deal { self.old.deal ≡ self.old.config }
        requires told { AreTold self.old.config self.old.posts.items self.old.buckets.by_place }
        requires vote { spelled self.old.config post.now ≡ Some vote.now }
        ensures config { self.new.config ≡ self.old.config }
        ensures deal { self.new.deal ≡ self.old.deal }
        ensures posts { self.new.posts.items ≡ self.old.posts.items }
        ensures again { Contains self.old.posts.items post.now → is_correct self.old.config post.now.from ≡ true
            → IsOk result × (self.new ≡ self.old) }
        ensures told { OnOk result (AreTold self.old.config (self.old.posts.items ++ post.now ∷ []) self.new.buckets.by_place) }
    {
        if self.was_judged(post, vote) {
            return Ok(());
        }
        let cast = cast_place(&self.config, post, vote);
        let told = told_place(&self.config, &self.deal, post, vote);
        let number = self.next_number()?;
        self.buckets.add_at(self.alloc, cast, number, vote)?;
        self.buckets.add_at(self.alloc, told, number, vote)?;
        Ok(())
    }

    // The same of any post, which may spell none.
    fn put(&mut self, post: &Post, vote: &Option<Vote>) -> Result<(), AllocError>
        requires deal { self.old.deal ≡ self.old.config }
        requires told { AreTold self.old.config self.old.posts.items self.old.buckets.by_place }
        requires vote { vote.now ≡ spelled self.old.config post.now }
        ensures config { self.new.config ≡ self.old.config }
        ensures deal { self.new.deal ≡ self.old.deal }
        ensures posts { self.new.posts.items ≡ self.old.posts.items }
        ensures again { Contains self.old.posts.items post.now → is_correct self.old.config post.now.from ≡ true
            → IsOk result × (self.new ≡ self.old) }
        ensures told { OnOk result (AreTold self.old.config (self.old.posts.items ++ post.now ∷ []) self.new.buckets.by_place) }
    {
        match vote {
            Some(vote) => self.put_vote(post, vote),
            None => Ok(()),
        }
    }

    // Takes in a post, with the vote that it spells, if it spells one.
    pub(crate) fn note(&mut self, post: &Post, vote: &Option<Vote>) -> Result<(), AllocError>
        requires deal { self.old.deal ≡ self.old.config }
        requires told { AreTold self.old.config self.old.posts.items self.old.buckets.by_place }
        requires vote { vote.now ≡ spelled self.old.config post.now }
        ensures config { self.new.config ≡ self.old.config }
        ensures deal { self.new.deal ≡ self.old.deal }
        ensures posts { OnOk result (self.new.posts.items ≡ self.old.posts.items ++ post.now ∷ []) }
        ensures again { Contains self.old.posts.items post.now → is_correct self.old.config post.now.from ≡ true
            → self.new.buckets ≡ self.old.buckets }
        ensures told { OnOk result (AreTold self.old.config (self.old.posts.items ++ post.now ∷ []) self.new.buckets.by_place) }
    {
        self.put(post, vote)?;
        self.posts.push(post.clone()?)?;
        Ok(())
    }
}
