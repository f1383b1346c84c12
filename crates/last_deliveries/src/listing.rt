//! The posts that were read, with lists by which an actor finds the new ones that may come to it.

ghost use Rattle.std.specs.Prelude.{◌≡◌, ℕ, ◌<◌, ◌≤◌, ◌++◌, ◌∷◌, [], true, false, length, slice_get, slice_index_or, Contains, Some, IfOk, OnOk, OnErr};
ghost use Rattle.hb_base.specs.Limits.{most_posts};
ghost use Rattle.hb_wire.specs.declared.post.Post.{Post};
ghost use Rattle.last_deliveries.specs.Listing.{no_numbers, listing, HasNew, IsKept, leads_to_node, leads_to_actor};

use hb_wire::{Post, To};
use std::alloc::{AllocError, Global};
use std::marker::Model;

// The numbers of some posts.
#[derive(Drop)]
struct Numbers {
    numbers: Vec<u32>,
}

impl Model for Numbers {
    ghost use Rattle.std.specs.Prelude.{ℕ, List};

    ghost Value = { List ℕ };

    ghost view = { λ numbers. numbers.numbers.items };
}

impl Numbers {
    // No number. It takes no memory.
    fn new(alloc: Global) -> Numbers
        ensures { result ≡ [] }
    {
        Numbers {
            numbers: Vec::new(alloc),
        }
    }

    // Adds one, and keeps the others. Err is want of memory.
    fn push(&mut self, k: u32) -> Result<(), AllocError>
        ensures kept { (j : ℕ) → Contains self.old j → Contains self.new j }
        ensures added { OnOk result (Contains self.new k) }
    {
        self.numbers.push(k)?;
        Ok(())
    }

    // Forgets all, and keeps the room.
    fn clear(&mut self) {
        self.numbers.clear();
    }

    fn as_slice(&self) -> &[u32]
        ensures { result.now ≡ self.now }
    {
        self.numbers.as_slice()
    }
}

// Posts in their order; those from `first` on are new. The numbers of the new ones stand in lists by where their addresses
// lead: to one node, or to one actor of each node. So an actor finds in two of the lists all new posts that may reach it.
// Clauses see the posts, and the number of the first new one.
#[derive(Drop)]
pub(crate) struct ListedPosts {
    posts: Vec<Post>,
    first: u32,
    to_nodes: Vec<Numbers>,
    to_actors: Vec<Numbers>,
}

impl Model for ListedPosts {
    ghost use Rattle.std.specs.Prelude.{◌≤◌, length};
    ghost use Rattle.last_deliveries.specs.Listing.{Listing, listing, AreListed, leads_to_node, leads_to_actor};

    ghost Value = { Listing };

    ghost view = { λ listed. listing listed.posts.items listed.first };

    ghost invariant = { λ listed. (listed.first ≤ length listed.posts.items)
        × AreListed leads_to_node listed.posts.items listed.first listed.to_nodes.items
        × AreListed leads_to_actor listed.posts.items listed.first listed.to_actors.items };
}

impl ListedPosts {
    // No post. Err is want of memory for the lists.
    pub(crate) fn new(alloc: Global) -> Result<ListedPosts, AllocError>
        ensures { IfOk result (λ listed. listed ≡ listing [] 0) }
    {
        Ok(ListedPosts {
            posts: Vec::new(alloc),
            first: 0,
            to_nodes: no_numbers(alloc)?,
            to_actors: no_numbers(alloc)?,
        })
    }

    // From now on none of them is new. The lists are empty then, and keep their room.
    pub(crate) fn grow_old(&mut self)
        requires few { length self.old.posts ≤ most_posts }
        ensures { self.new ≡ listing self.old.posts (length self.old.posts) }
    {
        self.first = self.posts.len() as u32;
        clear_all(&mut self.to_nodes);
        clear_all(&mut self.to_actors);
    }

    // Adds a new post behind the others. Err is want of memory, and it was not added.
    pub(crate) fn push(&mut self, post: Post) -> Result<(), AllocError>
        requires few { length self.old.posts ≤ most_posts }
        ensures added { OnOk result (self.new ≡ listing (self.old.posts ++ post ∷ []) self.old.first) }
        ensures none { OnErr result (self.new ≡ self.old) }
    {
        let k = self.posts.len() as u32;
        enter(&mut self.to_nodes, &mut self.to_actors, &post, k)?;
        self.posts.push(post)?;
        Ok(())
    }

    pub(crate) fn as_slice(&self) -> &[Post]
        ensures { result.now ≡ self.now.posts }
    {
        self.posts.as_slice()
    }

    // The number of the first that is new.
    pub(crate) fn first(&self) -> u32
        ensures { result ≡ self.now.first }
    {
        self.first
    }

    // Whether any is new.
    pub(crate) fn has_new(&self) -> bool
        ensures some { result ≡ true → self.now.first < length self.now.posts }
        ensures none { result ≡ false → self.now.first ≡ length self.now.posts }
    {
        (self.first as usize) < self.posts.len()
    }

    // The numbers of the new posts whose address leads to one node, this one.
    pub(crate) fn to_node(&self, node: u8) -> &[u32]
        ensures { HasNew (λ post. leads_to_node post node) self.now.posts self.now.first result.now }
    {
        self.to_nodes[node as usize].as_slice()
    }

    // The numbers of the new posts whose address leads to an actor of each node, to that with this number.
    pub(crate) fn to_actor(&self, actor: u8) -> &[u32]
        ensures { HasNew (λ post. leads_to_actor post actor) self.now.posts self.now.first result.now }
    {
        self.to_actors[actor as usize].as_slice()
    }
}

// An empty list for each number that fits a byte.
fn no_numbers(alloc: Global) -> Result<Vec<Numbers>, AllocError>
    ensures { IfOk result (λ lists. length lists.items ≡ 256) }
{
    let mut lists = Vec::new(alloc);
    for _number in 0..256usize {
        lists.push(Numbers::new(alloc))?;
    }
    Ok(lists)
}

// Empties each list.
fn clear_all(lists: &mut Vec<Numbers>)
    ensures { length lists.new.items ≡ length lists.old.items }
{
    for number in 0..lists.len() {
        lists[number].clear();
    }
}

// Adds the number of a post to the list to which its address leads, if there is one. Err is want of memory.
fn enter(
    to_nodes: &mut Vec<Numbers>,
    to_actors: &mut Vec<Numbers>,
    post: &Post,
    k: u32,
) -> Result<(), AllocError>
    requires each { (length to_nodes.old.items ≡ 256) × (length to_actors.old.items ≡ 256) }
    ensures kept { IsKept to_nodes.old.items to_nodes.new.items × IsKept to_actors.old.items to_actors.new.items }
    ensures to_node { OnOk result ((i : ℕ) → leads_to_node post.now i ≡ true → Contains (slice_index_or to_nodes.new.items i no_numbers) k) }
    ensures to_actor { OnOk result ((x : ℕ) → leads_to_actor post.now x ≡ true → Contains (slice_index_or to_actors.new.items x no_numbers) k) }
{
    match post.to {
        To::Book => Ok(()),
        To::Home => add_to(to_nodes, post.from, k),
        To::Node(target) => add_to(to_nodes, target, k),
        To::All => add_to(to_actors, post.actor, k),
    }
}

// Adds a number to one list. Err is want of memory.
fn add_to(lists: &mut Vec<Numbers>, number: u8, k: u32) -> Result<(), AllocError>
    requires each { length lists.old.items ≡ 256 }
    ensures kept { IsKept lists.old.items lists.new.items }
    ensures added { OnOk result (Contains (slice_index_or lists.new.items number no_numbers) k) }
{
    lists[number as usize].push(k)
}
