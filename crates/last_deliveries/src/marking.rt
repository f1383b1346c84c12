//! What an actor has received of the posts of a book, and what it lacks.

ghost use Rattle.std.specs.Prelude.{◌≡◌, ℕ, ◌<◌, ◌≤◌, ◌++◌, [], true, false, length, filter, slice_index_or, Contains, IfOk, OnOk};
ghost use Rattle.std.specs.List.Sorted.{IsSorted};
ghost use Rattle.std.specs.Ordering.{nat_cmp};
ghost use Rattle.hb_base.specs.Limits.{most_posts};
ghost use Rattle.last_deliveries.specs.Catching.{AreMarked, lacks};

use crate::listing::ListedPosts;
use hb_wire::Post;
use net_script::Script;
use std::alloc::{AllocError, Global};
use step_driver::comes_to;

// For each of so many posts whether its number is among these.
fn marks_of(alloc: Global, numbers: &[u32], count: usize) -> Result<Vec<bool>, AllocError>
    ensures { IfOk result (λ marks. AreMarked numbers.now count marks.items) }
{
    let mut marks = vec![in alloc; false; count]?;
    for number in numbers {
        let place = *number as usize;
        if place < count {
            marks[place] = true;
        }
    }
    Ok(marks)
}

// Marks for posts: only one that the actor has received may be marked. Where some are not new none is marked: the new ones
// came after those that it has received.
pub(crate) fn marks_for(
    alloc: Global,
    got: &[u32],
    posts: &ListedPosts,
) -> Result<Vec<bool>, AllocError>
    ensures { IfOk result (λ marks. (k : ℕ) → k < length posts.now.posts → slice_index_or marks.items k false ≡ true → Contains got.now k) }
{
    if posts.first() > 0 {
        return Ok(Vec::new(alloc));
    }
    marks_of(alloc, got, posts.as_slice().len())
}

// The numbers of the new posts that come to this actor of this node and are not marked, rising. It looks only at the lists in
// which such posts stand. Err is want of memory for the numbers.
pub(crate) fn lacking(
    alloc: Global,
    script: &Script,
    posts: &ListedPosts,
    marks: &[bool],
    node: u8,
    actor: u8,
) -> Result<Vec<u32>, AllocError>
    ensures all { IfOk result (λ numbers. (k : ℕ) → posts.now.first ≤ k
        → lacks script.now posts.now.posts marks.now node actor k ≡ true → Contains numbers.items k) }
    ensures rising { IfOk result (λ numbers. IsSorted nat_cmp numbers.items) }
{
    let all = posts.as_slice();
    let mut numbers = Vec::new(alloc);
    add_lacking(
        script,
        all,
        marks,
        node,
        actor,
        posts.to_node(node),
        &mut numbers,
    )?;
    add_lacking(
        script,
        all,
        marks,
        node,
        actor,
        posts.to_actor(actor),
        &mut numbers,
    )?;
    numbers.sort_unstable();
    Ok(numbers)
}

// The numbers of all posts that come to this actor of this node, rising. Err is want of memory for them.
pub(crate) fn coming(
    alloc: Global,
    script: &Script,
    posts: &[Post],
    node: u8,
    actor: u8,
) -> Result<Vec<u32>, AllocError>
    requires few { length posts.now ≤ most_posts }
    ensures { IfOk result (λ numbers. (k : ℕ) → k < length posts.now → lacks script.now posts.now [] node actor k ≡ true → Contains numbers.items k) }
{
    let mut numbers = Vec::new(alloc);
    for k in 0..posts.len() as u32 {
        add_coming(script, posts, node, actor, k, &mut numbers)?;
    }
    Ok(numbers)
}

// Adds the number of post k where it comes to this actor of this node.
fn add_coming(
    script: &Script,
    posts: &[Post],
    node: u8,
    actor: u8,
    k: u32,
    numbers: &mut Vec<u32>,
) -> Result<(), AllocError>
    ensures kept { (j : ℕ) → Contains numbers.old.items j → Contains numbers.new.items j }
    ensures added { OnOk result (lacks script.now posts.now [] node actor k ≡ true → Contains numbers.new.items k) }
{
    if !lacks(script, posts, &[], node, actor, k) {
        return Ok(());
    }
    numbers.push(k)?;
    Ok(())
}

// Adds those of a list that come to this actor of this node and are not marked.
fn add_lacking(
    script: &Script,
    posts: &[Post],
    marks: &[bool],
    node: u8,
    actor: u8,
    list: &[u32],
    numbers: &mut Vec<u32>,
) -> Result<(), AllocError>
    ensures { OnOk result (numbers.new.items ≡ numbers.old.items ++ filter (lacks script.now posts.now marks.now node actor) list.now) }
{
    for k in list {
        if lacks(script, posts, marks, node, actor, *k) {
            numbers.push(*k)?;
        }
    }
    Ok(())
}

// Whether post k stands, comes to this actor of this node, and is not marked.
fn lacks(script: &Script, posts: &[Post], marks: &[bool], node: u8, actor: u8, k: u32) -> bool
    ensures { result ≡ lacks script.now posts.now marks.now node actor k }
{
    let Some(post) = posts.get(k as usize) else {
        return false;
    };
    !is_marked(marks, k) && comes_to(&script.config, script, post, node, actor, k)
}

// Whether there is a mark for post k, and it is set.
fn is_marked(marks: &[bool], k: u32) -> bool
    ensures { result ≡ slice_index_or marks.now k false }
{
    match marks.get(k as usize) {
        None => false,
        Some(mark) => *mark,
    }
}
