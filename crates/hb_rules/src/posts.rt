//! A list of posts to which only what is legal is added, and the bytes of votes.
ghost use Rattle.std.specs.Prelude.{◌≡◌, ◌<◌, ◌≤◌, true, false, Err, [], ◌∷◌, ◌++◌, length, IsOk, IsOkAnd, IfOk, IfSome, OnOk, OnErr, slice_get};
ghost use Rattle.hb_base.specs.Limits.{most_posts};
ghost use Rattle.hb_base.specs.NodeSet.{is_in};
ghost use Rattle.hb_wire.specs.Votes.{Spells};
ghost use Rattle.hb_rules.specs.History.{HasSpelling, IsAllowed, MayFollow, IsLegal};
ghost use Rattle.hb_rules.specs.Echoes.{HasValidBranchIfCorrect};
ghost use Rattle.hb_rules.specs.Book.{post_of, lie_of, AreKept};

use crate::book::BookFault;
use hb_base::limits::MOST_POSTS;
use hb_base::{Bytes, Config};
use hb_wire::{Post, PostBytes, To, Vote, write};
use std::alloc::{AllocError, Global};
use std::marker::Model;

/// The bytes of a vote in a run of this config. Err where there is no memory for them.
pub fn spell(alloc: Global, config: &Config, vote: &Vote) -> Result<Bytes, AllocError>
    requires { HasSpelling config.now vote.now }
    ensures { IfOk result (λ b. Spells config.now.n config.now.version b vote.now) }
{
    write(alloc, config.n(), config.version(), vote)
}

/// The bytes of a vote that a node posts in a run of this config. An Echo of a correct node is marked as valid, which the rules
/// ask it to be, so that who reads it need not hash its branch. No clause tells of the mark. Err where there is no memory.
pub fn spell_for(
    alloc: Global,
    config: &Config,
    node: u8,
    vote: &Vote,
) -> Result<PostBytes, AllocError>
    requires spelled { HasSpelling config.now vote.now }
    requires valid { HasValidBranchIfCorrect config.now node vote.now }
    ensures { IfOk result (λ b. Spells config.now.n config.now.version b vote.now) }
{
    let bytes = spell(alloc, config, vote)?;
    match vote {
        Vote::Echo { .. } if !config.liars().has(node) => {
            let (n, version) = (config.n(), config.version());
            Ok(PostBytes::of_valid_echo(bytes, n, version, node, vote))
        }
        _ => Ok(PostBytes::plain(bytes)),
    }
}

/// The posts of a run, in order, by the run's config. At every moment they are a legal history of at most 2^22 posts, since a
/// post is added only where it may follow those before it. Each kind of book keeps its posts so. Clauses see a `BookView`.
#[derive(Drop)]
pub struct Posts {
    config: Config,
    items: Vec<Post>,
}

impl Model for Posts {
    ghost use Rattle.hb_rules.specs.Book.{BookView, AreKept};

    ghost Value = { BookView };

    ghost view = { λ p. record { config = p.config; posts = p.items.items } };

    ghost invariant = { λ p. AreKept (record { config = p.config; posts = p.items.items }) };
}

impl Posts {
    /// No posts yet. It takes no memory.
    pub fn new(alloc: Global, config: &Config) -> Posts
        ensures { result ≡ record { config = config.now; posts = [] } }
    {
        Posts {
            config: *config,
            items: Vec::new(alloc),
        }
    }

    /// The config of the run.
    pub fn config(&self) -> Config
        ensures { result ≡ self.now.config }
    {
        self.config
    }

    /// The allocator of what it keeps.
    pub fn alloc(&self) -> Global {
        *self.items.allocator()
    }

    /// How many posts there are.
    pub fn count(&self) -> u32
        ensures exact { result ≡ length self.now.posts }
        ensures few { length self.now.posts ≤ most_posts }
    {
        self.items.len() as u32
    }

    /// Whether no post more may be added, since there are 2^22.
    pub fn is_full(&self) -> bool
        ensures full { result ≡ true → length self.now.posts ≡ most_posts }
        ensures room { result ≡ false → length self.now.posts < most_posts }
    {
        self.count() >= MOST_POSTS
    }

    /// The posts, lent. They are legal, and name actors below 256.
    pub fn as_slice(&self) -> &[Post]
        ensures posts { result.now ≡ self.now.posts }
        ensures kept { AreKept self.now }
    {
        self.items.as_slice()
    }

    /// The posts, which are legal. It takes no memory.
    pub fn into_vec(self) -> Vec<Post>
        ensures posts { result.items ≡ self.posts }
        ensures legal { IsLegal self.config self.posts }
    {
        let Posts { config: _, items } = self;
        items
    }

    /// Post k, which is of one of the n nodes, and None exactly where there are no more than k. It shares the post's bytes and
    /// takes no memory; Err is as of `Bytes::clone`, and never told of a post that does not stand. It takes constant time.
    pub fn read(&self, k: u32) -> Result<Option<Post>, AllocError>
        ensures found { IfOk result (λ post. post ≡ slice_get self.now.posts k) }
        ensures known { IfOk result (λ post. IfSome post (λ p. p.from < self.now.config.n)) }
        ensures none { length self.now.posts ≤ k → IsOk result }
    {
        match self.items.get(k as usize) {
            None => Ok(None),
            Some(post) => Ok(Some(post.clone()?)),
        }
    }

    /// The bytes of a vote that the rules allow to this actor of this node, as `spell_for` gives them. Err where there is no
    /// memory.
    pub fn spell_for(&self, node: u8, actor: u8, vote: &Vote) -> Result<PostBytes, AllocError>
        requires spelled { HasSpelling self.now.config vote.now }
        requires allowed { IsAllowed self.now.config node actor self.now.posts vote.now }
        ensures { IfOk result (λ b. Spells self.now.config.n self.now.config.version b vote.now) }
    {
        spell_for(self.alloc(), &self.config, node, vote)
    }

    /// Adds the post of a vote that the rules allow to this actor of this node, and answers its number. `bytes` is what
    /// `spell_for` gave for the vote, so that nothing is spelled where a book is locked. `Full` comes exactly where there are
    /// 2^22 posts, and a refusal adds nothing.
    pub fn add_vote(
        &mut self,
        node: u8,
        actor: u8,
        vote: &Vote,
        bytes: Result<PostBytes, AllocError>,
    ) -> Result<u32, BookFault>
        requires known { node < self.old.config.n }
        requires spelled { IfOk bytes (λ b. Spells self.old.config.n self.old.config.version b vote.now) }
        requires allowed { IsAllowed self.old.config node actor self.old.posts vote.now }
        ensures number { IfOk result (λ k. (k ≡ length self.old.posts) × (k < most_posts)) }
        ensures added { OnOk result (self.new ≡ record self.old { posts = self.old.posts ++ post_of node actor vote.now ∷ [] }) }
        ensures refused { OnErr result (self.new ≡ self.old) }
        ensures full { result ≡ Err BookFault.Full → length self.old.posts ≡ most_posts }
        ensures memory { result ≡ Err BookFault.Memory → length self.old.posts < most_posts }
    {
        if self.is_full() {
            return Err(BookFault::Full);
        }
        self.add(Post {
            from: node,
            actor,
            to: vote.to(),
            bytes: bytes?,
        })
    }

    /// Adds a post of a liar's node, with any actor, address and bytes, and answers its number. `bytes` is a copy that was
    /// made before. `Full` comes exactly where there are 2^22 posts, and a refusal adds nothing.
    pub fn add_lie(
        &mut self,
        node: u8,
        actor: u8,
        to: To,
        bytes: Result<Bytes, AllocError>,
    ) -> Result<u32, BookFault>
        requires known { node < self.old.config.n }
        requires liar { is_in self.old.config.liars node ≡ true }
        ensures number { IfOk result (λ k. (k ≡ length self.old.posts) × (k < most_posts)) }
        ensures added { OnOk result (IsOkAnd bytes (λ b. self.new ≡ record self.old { posts = self.old.posts ++ lie_of node actor to b ∷ [] })) }
        ensures refused { OnErr result (self.new ≡ self.old) }
        ensures full { result ≡ Err BookFault.Full → length self.old.posts ≡ most_posts }
        ensures memory { result ≡ Err BookFault.Memory → length self.old.posts < most_posts }
    {
        if self.is_full() {
            return Err(BookFault::Full);
        }
        self.add(Post {
            from: node,
            actor,
            to,
            bytes: PostBytes::plain(bytes?),
        })
    }

    // Adds a post that may follow the others, where there is room for it in the history, and answers its number.
    fn add(&mut self, post: Post) -> Result<u32, BookFault>
        requires room { length self.old.posts < most_posts }
        requires follows { MayFollow self.old.config self.old.posts post }
        requires actor { post.actor < 256 }
        ensures number { IfOk result (λ k. k ≡ length self.old.posts) }
        ensures added { OnOk result (self.new ≡ record self.old { posts = self.old.posts ++ post ∷ [] }) }
        ensures refused { OnErr result ((self.new ≡ self.old) × (result ≡ Err BookFault.Memory)) }
    {
        let number = self.count();
        self.items.push(post)?;
        Ok(number)
    }
}
