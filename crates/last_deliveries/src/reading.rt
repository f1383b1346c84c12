//! What an actor reads by its own seat, over any kind of book.

ghost use Rattle.std.specs.Prelude.{◌≡◌, ◌<◌, ◌≤◌, true, length, slice_get, IfOk};
ghost use Rattle.hb_base.specs.Limits.{most_posts};
ghost use Rattle.hb_rules.specs.Ledger.{IsPrefix};
ghost use Rattle.hb_rules.specs.declared.report.Fate.TheVariants.{Running};
ghost use Rattle.actor_cell.specs.Held.{player_at};
ghost use Rattle.actor_cell.specs.Turning.{IsShown};

use crate::listing::ListedPosts;
use hb_base::limits::MOST_POSTS;
use hb_rules::{Actor, Book};
use hb_wire::Post;
use std::alloc::AllocError;

// Post k, if it stands, by the seat of the actor.
fn read_one<B: Book, A: Actor<B>>(
    book: &mut B,
    actor: &mut A,
    k: u32,
) -> Result<Option<Post>, AllocError>
    requires seat { B.knows book.old (A.seat actor.old) }
    ensures seat { B.knows book.new (A.seat actor.new) }
    ensures moved { B.moved (B.node (A.seat actor.old)) (B.actor (A.seat actor.old)) book.old book.new }
    ensures shown { IsShown (player_at B.config B.node B.actor B.seen A.seat A.view actor.old Running)
        (player_at B.config B.node B.actor B.seen A.seat A.view actor.new Running) }
    ensures found { IfOk result (λ post. post ≡ slice_get (B.seen (A.seat actor.new)) k) }
{
    actor.kept();
    actor.read(book, k)
}

// Reads on behind these posts, which are a beginning of what the seat of the actor has seen, until they are all that it has
// seen then. They share their bytes with the book. Err is want of memory, or a book of more than 2^22 posts, and there is no
// such book.
pub(crate) fn read_on<B: Book, A: Actor<B>>(
    book: &mut B,
    actor: &mut A,
    posts: &mut ListedPosts,
) -> Result<(), AllocError>
    requires seat { B.knows book.old (A.seat actor.old) }
    requires front { IsPrefix posts.old.posts (B.seen (A.seat actor.old)) }
    requires few { length posts.old.posts ≤ most_posts }
    ensures seat { B.knows book.new (A.seat actor.new) }
    ensures moved { B.moved (B.node (A.seat actor.old)) (B.actor (A.seat actor.old)) book.old book.new }
    ensures shown { IsShown (player_at B.config B.node B.actor B.seen A.seat A.view actor.old Running)
        (player_at B.config B.node B.actor B.seen A.seat A.view actor.new Running) }
    ensures more { IsPrefix posts.old.posts posts.new.posts }
    ensures first { posts.new.first ≡ posts.old.first }
    ensures all { IfOk result (λ _. posts.new.posts ≡ B.seen (A.seat actor.new)) }
    ensures few { IfOk result (λ _. length posts.new.posts ≤ most_posts) }
{
    let first = posts.as_slice().len() as u32;
    for k in first..MOST_POSTS + 1 {
        match read_one(book, actor, k)? {
            None => return Ok(()),
            Some(post) => posts.push(post)?,
        }
    }
    Err(AllocError)
}

// Whether no more than this many posts stand. Where the next one can't be read, it stands.
pub(crate) fn ends_by<B: Book, A: Actor<B>>(book: &mut B, actor: &mut A, count: u32) -> bool
    requires seat { B.knows book.old (A.seat actor.old) }
    ensures seat { B.knows book.new (A.seat actor.new) }
    ensures moved { B.moved (B.node (A.seat actor.old)) (B.actor (A.seat actor.old)) book.old book.new }
    ensures shown { IsShown (player_at B.config B.node B.actor B.seen A.seat A.view actor.old Running)
        (player_at B.config B.node B.actor B.seen A.seat A.view actor.new Running) }
    ensures few { result ≡ true → length (B.seen (A.seat actor.new)) ≤ count }
{
    match read_one(book, actor, count) {
        Ok(None) => true,
        Ok(Some(_)) | Err(_) => false,
    }
}

// Whether post k stands and can be read.
fn stands<B: Book, A: Actor<B>>(book: &mut B, actor: &mut A, k: u32) -> bool
    requires seat { B.knows book.old (A.seat actor.old) }
    ensures seat { B.knows book.new (A.seat actor.new) }
    ensures moved { B.moved (B.node (A.seat actor.old)) (B.actor (A.seat actor.old)) book.old book.new }
    ensures shown { IsShown (player_at B.config B.node B.actor B.seen A.seat A.view actor.old Running)
        (player_at B.config B.node B.actor B.seen A.seat A.view actor.new Running) }
    ensures stands { result ≡ true → k < length (B.seen (A.seat actor.new)) }
{
    match read_one(book, actor, k) {
        Ok(Some(_)) => true,
        Ok(None) | Err(_) => false,
    }
}

// Whether exactly this many posts stand.
pub(crate) fn is_level<B: Book, A: Actor<B>>(book: &mut B, actor: &mut A, count: u32) -> bool
    requires seat { B.knows book.old (A.seat actor.old) }
    ensures seat { B.knows book.new (A.seat actor.new) }
    ensures moved { B.moved (B.node (A.seat actor.old)) (B.actor (A.seat actor.old)) book.old book.new }
    ensures shown { IsShown (player_at B.config B.node B.actor B.seen A.seat A.view actor.old Running)
        (player_at B.config B.node B.actor B.seen A.seat A.view actor.new Running) }
    ensures level { result ≡ true → length (B.seen (A.seat actor.new)) ≡ count }
{
    if count == 0 {
        return ends_by(book, actor, 0);
    }
    if !stands(book, actor, count - 1) {
        return false;
    }
    ends_by(book, actor, count)
}
