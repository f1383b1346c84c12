//! Mailboxes of a run of four nodes, of which one lies: by hand, and with two senders.
ghost use Rattle.std.specs.Prelude.{◌<◌, ◌≤◌, All, IfSome};
ghost use Rattle.std.specs.Thread.{IsSync};
ghost use Rattle.actor_cell.specs.Passes.{ArePassesOf};

use actor_cell::{Arrival, Boxes, Mail, Marks, Passes, arrival_found};
use hb_base::{Bytes, Config, NodeSet};
use hb_wire::{Post, PostBytes, To};
use net_script::{Link, Order, Script, Shape};
use std::alloc::{AllocError, Global};
use std::sync::Wait;
use std::test::*;
use std::thread;
use std::thread::Threads;

const EACH: u32 = 5_000;

// The mailboxes of node 1, and the one of node 3, which lies.
const NODE_1: usize = 5;

const LIAR: usize = 15;

// Four nodes, of which node 3 lies.
fn four() -> Option<Config> {
    let mut liars = NodeSet::new();
    liars.add(3);
    Config::new(4, 1, 1, 1, 1, 0, 1, liars)
}

// Puts a number by the passes at a place.
fn put<R: Wait>(
    rt: &R,
    boxes: &Boxes,
    all: &mut Vec<Passes>,
    from: usize,
    to: (u8, u8),
    number: u32,
) -> Result<(), u32>
    requires passes { All (ArePassesOf boxes.now) all.old.items }
    ensures passes { All (ArePassesOf boxes.now) all.new.items }
{
    let n = boxes.config().n();
    if from >= all.len() || to.0 >= n || to.1 > n {
        return Err(number);
    }
    let passes = &mut all[from];
    boxes.put(rt, passes, to.0, to.1, number)
}

// Takes a number by the passes at a place.
fn take<R: Wait>(rt: &R, boxes: &Boxes, all: &mut Vec<Passes>, at: usize) -> Option<u32>
    requires passes { All (ArePassesOf boxes.now) all.old.items }
    ensures passes { All (ArePassesOf boxes.now) all.new.items }
{
    if at >= all.len() {
        return None;
    }
    let passes = &mut all[at];
    boxes.take(rt, passes)
}

// Takes by the passes at a place as often as numbers were put, and once more.
fn take_each<R: Wait>(
    rt: &R,
    alloc: Global,
    boxes: &Boxes,
    all: &mut Vec<Passes>,
    at: usize,
) -> Result<Vec<u32>, AllocError>
    requires passes { All (ArePassesOf boxes.now) all.old.items }
{
    let mut taken = Vec::new(alloc);
    for _ in 0..2 * EACH + 1 {
        if let Some(number) = take(rt, boxes, all, at) {
            taken.push(number)?;
        }
    }
    Ok(taken)
}

// Puts the numbers from `first` on into the mailbox of lane 2 of node 1, and gives the passes back.
fn send<R: Wait>(rt: &R, boxes: &Boxes, mut passes: Passes, first: u32) -> Passes
    requires known { (1 < boxes.now.config.n) × (2 ≤ boxes.now.config.n) }
    requires passes { ArePassesOf boxes.now passes }
    requires first { first ≤ 5000 }
    ensures { ArePassesOf boxes.now result }
{
    for i in 0..EACH {
        if boxes.put(rt, &mut passes, 1, 2, first + i).is_err() {
            break;
        }
    }
    passes
}

// Takes the last passes out.
fn take_out(boxes: &Boxes, all: &mut Vec<Passes>) -> Option<Passes>
    requires passes { All (ArePassesOf boxes.now) all.old.items }
    ensures rest { All (ArePassesOf boxes.now) all.new.items }
    ensures last { IfSome result (ArePassesOf boxes.now) }
{
    let _ = boxes;
    all.pop()
}

// Two senders in threads.
fn send_both<R: Threads + Wait + Sync>(
    rt: &R,
    boxes: &Boxes,
    one: Passes,
    other: Passes,
) -> (Passes, Passes)
    requires known { (1 < boxes.now.config.n) × (2 ≤ boxes.now.config.n) }
    requires passes { ArePassesOf boxes.now one × ArePassesOf boxes.now other }
    ensures { ArePassesOf boxes.now result.0 × ArePassesOf boxes.now result.1 }
{
    thread::join(
        rt,
        move || -> Passes
            requires { IsSync R.row × (1 < boxes.now.config.n) × (2 ≤ boxes.now.config.n) × ArePassesOf boxes.now one }
            ensures { ArePassesOf boxes.entry.now result }
        { send(rt, boxes, one, 0) },
        move || -> Passes
            requires { IsSync R.row × (1 < boxes.now.config.n) × (2 ≤ boxes.now.config.n) × ArePassesOf boxes.now other }
            ensures { ArePassesOf boxes.entry.now result }
        { send(rt, boxes, other, EACH) },
    )
}

// All numbers have come, each once, and those of each sender in their order.
fn is_complete(taken: &[u32]) -> bool {
    let mut low = 0u32;
    let mut high = EACH;
    for &number in taken {
        if number == low {
            low = low.saturating_add(1);
        } else if number == high {
            high = high.saturating_add(1);
        } else {
            return false;
        }
    }
    low == EACH && high == 2 * EACH
}

// Takes three times by the passes at a place.
fn take_thrice<R: Wait>(rt: &R, boxes: &Boxes, all: &mut Vec<Passes>, at: usize) -> [Option<u32>; 3]
    requires passes { All (ArePassesOf boxes.now) all.old.items }
    ensures passes { All (ArePassesOf boxes.now) all.new.items }
{
    let one = take(rt, boxes, all, at);
    let two = take(rt, boxes, all, at);
    let three = take(rt, boxes, all, at);
    [one, two, three]
}

// Whether five numbers are put, of which three come from lane 0 of node 0 and two from the liar.
fn put_five<R: Wait>(rt: &R, boxes: &Boxes, all: &mut Vec<Passes>) -> [bool; 5]
    requires passes { All (ArePassesOf boxes.now) all.old.items }
    ensures passes { All (ArePassesOf boxes.now) all.new.items }
{
    let one = put(rt, boxes, all, 0, (1, 2), 7).is_ok();
    let two = put(rt, boxes, all, 0, (3, 0), 8).is_ok();
    let three = put(rt, boxes, all, 0, (3, 4), 9).is_ok();
    let four = put(rt, boxes, all, LIAR, (1, 2), 11).is_ok();
    let five = put(rt, boxes, all, LIAR, (0, 4), 12).is_ok();
    [one, two, three, four, five]
}

#[test]
fn one_thread(rt: HostRuntime) -> Result<(), Fail> {
    let config = four().expect(&rt, "a config");
    let (boxes, mut all) = Boxes::new(rt.alloc(), &config)?;
    let count = all.len();
    let are_put = put_five(&rt, &boxes, &mut all);
    let by_lane = take_thrice(&rt, &boxes, &mut all, NODE_1 + 2);
    let by_liar = take_thrice(&rt, &boxes, &mut all, LIAR);
    let by_desk = take(&rt, &boxes, &mut all, 4);
    let by_first = take(&rt, &boxes, &mut all, 0);
    assert!(rt; count == 16 && are_put == [true, true, true, true, true]);
    assert!(rt;
        by_lane == [Some(7), Some(11), None]
            && by_liar == [Some(8), Some(9), None]
            && by_desk == Some(12)
            && by_first == None
    );
    Ok(())
}

#[test]
fn two_senders(rt: HostRuntime) -> Result<(), Fail> {
    let config = four().expect(&rt, "a config");
    let (boxes, mut all) = Boxes::new(rt.alloc(), &config)?;
    let other = take_out(&boxes, &mut all).expect(&rt, "passes");
    let one = take_out(&boxes, &mut all).expect(&rt, "passes");
    let n = boxes.config().n();
    assert!(rt; n >= 2);
    let (_one, _other) = send_both(&rt, &boxes, one, other);
    let taken = take_each(&rt, rt.alloc(), &boxes, &mut all, NODE_1 + 2)?;
    assert!(rt; is_complete(taken.as_slice()));
    Ok(())
}

#[test]
fn marks(rt: HostRuntime) -> Result<(), Fail> {
    let mut marks = Marks::new();
    let is_new = !marks.has(15, 16);
    marks.note(15, 16);
    marks.note(0, 3);
    let copy = marks;
    assert!(rt; is_new && copy.has(15, 16) && copy.has(0, 3));
    assert!(rt; !copy.has(3, 0) && !copy.has(0, 16) && !copy.has(16, 16) && !copy.has(0, 17));
    Ok(())
}

// A run of these nodes in which each post comes twice to node 1, not at all to node 2, and late from node 3 to node 0.
fn script_of(alloc: Global, config: Config) -> Result<Script, AllocError> {
    let rules: [(Option<u8>, u8, Shape); 3] = [
        (Some(3), 0, Shape::Late),
        (None, 1, Shape::Twice),
        (None, 2, Shape::Drop),
    ];
    let mut links = Vec::new(alloc);
    for (from, to, shape) in rules {
        links.push(Link {
            from,
            to: Some(to),
            every: 1,
            at: 0,
            shape,
        })?;
    }
    Ok(Script {
        config,
        workers: 1,
        order: Order::Fifo,
        submit: Vec::new(alloc),
        liars: Vec::new(alloc),
        links,
        plans: Vec::new(alloc),
    })
}

// A post of lane 2 of a node to lane 2 of all nodes.
fn post_of(alloc: Global, from: u8) -> Result<Post, AllocError> {
    Ok(Post {
        from,
        actor: 2,
        to: To::All,
        bytes: PostBytes::plain(Bytes::copy(alloc, b"?")?),
    })
}

#[test]
fn sends_by_shape(rt: HostRuntime) -> Result<(), Fail> {
    let config = four().expect(&rt, "a config");
    let script = script_of(rt.alloc(), config)?;
    let (boxes, mut all) = Boxes::new(rt.alloc(), &config)?;
    let own = take_out(&boxes, &mut all).expect(&rt, "passes");
    let mut mail = Mail::new(&boxes, own);
    let post = post_of(rt.alloc(), 0)?;
    mail.send(&rt, &script, &post, 7);
    // Lane 2 of the nodes 0, 1 and 2, and node 3, whose passes send.
    let of_0 = take_thrice(&rt, &boxes, &mut all, 2);
    let of_1 = take_thrice(&rt, &boxes, &mut all, NODE_1 + 2);
    let of_2 = take_thrice(&rt, &boxes, &mut all, NODE_1 + 7);
    let of_3 = [mail.take(&rt), mail.take(&rt)];
    assert!(rt;
        of_0 == [Some(7), None, None]
            && of_1 == [Some(7), Some(7), None]
            && of_2 == [None, None, None]
            && of_3 == [Some(7), None]
    );
    assert!(rt; !mail.noted().has(0, 2) && !mail.noted().has(1, 2));
    Ok(())
}

#[test]
fn arrivals(rt: HostRuntime) -> Result<(), Fail> {
    let config = four().expect(&rt, "a config");
    let script = script_of(rt.alloc(), config)?;
    let own = Some(post_of(rt.alloc(), 0)?);
    let lie = Some(post_of(rt.alloc(), 3)?);
    let of_own = [
        arrival_found(&script, &own, 0, 2, 7),
        arrival_found(&script, &own, 0, 1, 7),
        arrival_found(&script, &own, 1, 2, 7),
        arrival_found(&script, &own, 2, 2, 7),
    ];
    let of_lie = arrival_found(&script, &lie, 0, 2, 7);
    let of_none = arrival_found(&script, &None, 0, 2, 7);
    let wanted = [
        Arrival::Prompt,
        Arrival::Aside,
        Arrival::Prompt,
        Arrival::Aside,
    ];
    assert!(rt; of_own == wanted && of_lie == Arrival::Late && of_none == Arrival::Aside);
    Ok(())
}
