//! What the turn book keeps.
ghost use Rattle.std.specs.Prelude.{◌≡◌, ◌<◌, ◌≤◌, true, Err, List, [], ◌∷◌, ◌++◌, All, length, IsOk, IsOkAnd, IfOk, IfSome, OnOk, OnErr, slice_get};
ghost use Rattle.hb_base.specs.Limits.{most_posts};
ghost use Rattle.hb_base.specs.NodeSet.{is_in};
ghost use Rattle.hb_wire.specs.Votes.{Spells};
ghost use Rattle.hb_wire.specs.declared.post.Post.{Post};
ghost use Rattle.hb_rules.specs.History.{IsAllowed, IsLegal};
ghost use Rattle.hb_rules.specs.Book.{post_of, lie_of};

use crate::naming::Naming;
use hb_base::{Bytes, Config};
use hb_rules::{BookFault, Posts};
use hb_wire::{Post, PostBytes, To, Vote};
use std::alloc::{AllocError, Global};
use std::marker::{Model, PhantomData};
use turn_book::History;

/// The posts of a run of the config that `J` names, as the value in a turn book. Clauses see them as a list.
#[derive(Drop)]
pub struct NamedPosts<J: Naming> {
    posts: Posts,
    naming: PhantomData<J>,
}

impl<J: Naming> Model for NamedPosts<J> {
    ghost Value = { List Post };

    ghost view = { λ p. p.posts.posts };

    ghost invariant = { λ p. p.posts.config ≡ J.config };
}

impl<J: Naming> History for NamedPosts<J> {
    ghost use Rattle.post_book.specs.Numbering.{post_number};

    type Entry = Post;

    ghost entries = { λ p. p };

    ghost names = { post_number J.config };
}

impl<J: Naming> NamedPosts<J> {
    // No posts yet.
    pub(crate) fn new(alloc: Global, config: &Config) -> NamedPosts<J>
        requires { config.now ≡ J.config }
        ensures { result ≡ [] }
    {
        NamedPosts {
            posts: Posts::new(alloc, config),
            naming: PhantomData,
        }
    }

    // How many posts there are.
    pub(crate) fn count(&self) -> u32
        ensures { result ≡ length self.now }
    {
        self.posts.count()
    }

    // Post k, as `Posts::read`.
    pub(crate) fn read(&self, k: u32) -> Result<Option<Post>, AllocError>
        ensures found { IfOk result (λ post. post ≡ slice_get self.now k) }
        ensures known { IfOk result (λ post. IfSome post (λ p. p.from < J.config.n)) }
        ensures none { length self.now ≤ k → IsOk result }
    {
        self.posts.read(k)
    }

    // Adds the post of a vote, as `Posts::add_vote`.
    pub(crate) fn add_vote(
        &mut self,
        node: u8,
        actor: u8,
        vote: &Vote,
        bytes: Result<PostBytes, AllocError>,
    ) -> Result<u32, BookFault>
        requires known { node < J.config.n }
        requires spelled { IfOk bytes (λ b. Spells J.config.n J.config.version b vote.now) }
        requires allowed { IsAllowed J.config node actor self.old vote.now }
        ensures number { IfOk result (λ k. (k ≡ length self.old) × (k < most_posts)) }
        ensures added { OnOk result (self.new ≡ self.old ++ post_of node actor vote.now ∷ []) }
        ensures refused { OnErr result (self.new ≡ self.old) }
        ensures full { result ≡ Err BookFault.Full → length self.old ≡ most_posts }
        ensures memory { result ≡ Err BookFault.Memory → length self.old < most_posts }
    {
        self.posts.add_vote(node, actor, vote, bytes)
    }

    // Adds a lie, as `Posts::add_lie`.
    pub(crate) fn add_lie(
        &mut self,
        node: u8,
        actor: u8,
        to: To,
        bytes: Result<Bytes, AllocError>,
    ) -> Result<u32, BookFault>
        requires known { node < J.config.n }
        requires liar { is_in J.config.liars node ≡ true }
        ensures number { IfOk result (λ k. (k ≡ length self.old) × (k < most_posts)) }
        ensures added { OnOk result (IsOkAnd bytes (λ b. self.new ≡ self.old ++ lie_of node actor to b ∷ [])) }
        ensures refused { OnErr result (self.new ≡ self.old) }
        ensures full { result ≡ Err BookFault.Full → length self.old ≡ most_posts }
        ensures memory { result ≡ Err BookFault.Memory → length self.old < most_posts }
    {
        self.posts.add_lie(node, actor, to, bytes)
    }

    // The posts, which are legal and name actors below 256.
    pub(crate) fn into_vec(self) -> Vec<Post>
        ensures posts { result.items ≡ self }
        ensures legal { IsLegal J.config self }
        ensures actors { All (λ post. post.actor < 256) self }
    {
        let _ = self.posts.as_slice();
        let NamedPosts { posts, naming: _ } = self;
        posts.into_vec()
    }
}
