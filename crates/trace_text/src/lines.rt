//! The lines of the text of a history.

ghost use Rattle.std.specs.Prelude.{◌≡◌, ◌+◌, ◌*◌, ◌≤◌, ◌++◌, length, codes};
ghost use Rattle.hb_base.specs.Limits.{most_nodes};
ghost use Rattle.hb_base.specs.NodeSet.{is_in};
ghost use Rattle.script_fault.specs.Line.{Writes};
ghost use Rattle.trace_text.specs.Text.{nodes_number, trace_line, address_text, bytes_text, post_words, post_line};

use hb_base::limits::MOST_NODES;
use hb_base::{Config, Failed, NodeSet, Sink};
use hb_wire::{Post, To};
use ledger_text::add_count;
use script_fault::{Line, put_hex};

/// Puts the first line, with the numbers of the run.
#[tactic(auto, unfolding(crate::specs::Text::trace_line))]
pub(crate) fn put_numbers<O: Sink>(config: &Config, out: &mut O) -> Result<(), Failed>
    ensures { Writes (O.held out.old) (O.held out.new) (O.faults out.old) (O.faults out.new) result (trace_line config.now) }
{
    let mut line = Line::new();
    add_count(&mut line, "trace nodes ", u64::from(config.n()));
    add_count(&mut line, " faulty ", u64::from(config.f()));
    add_count(&mut line, " version ", u64::from(config.version()));
    add_count(&mut line, " epochs ", u64::from(config.epochs()));
    add_count(&mut line, " rounds ", u64::from(config.rounds()));
    add_count(&mut line, " batch ", u64::from(config.batch()));
    add_count(&mut line, " seed ", config.seed());
    add_count(&mut line, " liars ", nodes_number(&config.liars()));
    line.text("\n");
    out.put(line.as_slice())
}

// The sum of 2 ^ i over the nodes i of a set.
fn nodes_number(nodes: &NodeSet) -> u64
    ensures { result ≡ nodes_number most_nodes (is_in nodes.now) }
{
    let mut sum = 0;
    let mut power = 1;
    for node in 0..MOST_NODES {
        if nodes.has(node) {
            sum += power;
        }
        power *= 2;
    }
    sum
}

/// Puts the line of a post with its number. It is put whole where the post has at most 256 bytes, and else in pieces.
#[tactic(auto, using(script_fault::proofs::Writing::writes_then, script_fault::proofs::Writing::writes_front), unfolding(crate::specs::Text::post_line))]
pub(crate) fn put_post<O: Sink>(k: u64, post: &Post, out: &mut O) -> Result<(), Failed>
    ensures { Writes (O.held out.old) (O.held out.new) (O.faults out.old) (O.faults out.new) result (post_line k post.now) }
{
    let bytes = post.bytes.as_slice();
    if bytes.len() <= 256 {
        return put_whole(k, post, bytes, out);
    }
    put_words(k, post, out)?;
    put_bytes(bytes, out)?;
    put_line_end(out)
}

// Puts the whole line of a post at once.
#[tactic(auto, unfolding(crate::specs::Text::post_line))]
fn put_whole<O: Sink>(k: u64, post: &Post, bytes: &[u8], out: &mut O) -> Result<(), Failed>
    requires bytes { bytes.now ≡ post.now.bytes }
    requires short { length bytes.now ≤ 256 }
    ensures { Writes (O.held out.old) (O.held out.new) (O.faults out.old) (O.faults out.new) result (post_line k post.now) }
{
    let mut line = Line::new();
    add_words(&mut line, k, post);
    add_bytes(&mut line, bytes);
    line.text("\n");
    out.put(line.as_slice())
}

fn put_words<O: Sink>(k: u64, post: &Post, out: &mut O) -> Result<(), Failed>
    ensures { Writes (O.held out.old) (O.held out.new) (O.faults out.old) (O.faults out.new) result (post_words k post.now) }
{
    let mut line = Line::new();
    add_words(&mut line, k, post);
    out.put(line.as_slice())
}

// Puts bytes, of which there are some.
#[tactic(auto, unfolding(crate::specs::Text::bytes_text))]
fn put_bytes<O: Sink>(bytes: &[u8], out: &mut O) -> Result<(), Failed>
    requires { 1 ≤ length bytes.now }
    ensures { Writes (O.held out.old) (O.held out.new) (O.faults out.old) (O.faults out.new) result (bytes_text bytes.now) }
{
    put_hex(bytes, out)
}

fn put_line_end<O: Sink>(out: &mut O) -> Result<(), Failed>
    ensures { Writes (O.held out.old) (O.held out.new) (O.faults out.old) (O.faults out.new) result (codes "\n") }
{
    out.put(b"\n")
}

// Appends what the line of a post says up to its bytes.
#[tactic(auto, unfolding(crate::specs::Text::post_words))]
fn add_words(line: &mut Line, k: u64, post: &Post)
    requires { length line.old ≡ 0 }
    ensures value { line.new ≡ line.old ++ post_words k post.now }
    ensures len { length line.new ≤ 108 }
{
    add_count(line, "post ", k);
    add_count(line, " from ", u64::from(post.from));
    add_count(line, " actor ", u64::from(post.actor));
    line.text(" to ");
    add_address(line, post.to);
    line.text(" ")
}

// Appends where a post goes.
#[tactic(auto, unfolding(crate::specs::Text::address_text))]
fn add_address(line: &mut Line, to: To)
    requires { length line.old ≤ 200 }
    ensures value { line.new ≡ line.old ++ address_text to }
    ensures len { length line.new ≤ length line.old + 25 }
{
    match to {
        To::Book => line.text("book"),
        To::Home => line.text("home"),
        To::All => line.text("all"),
        To::Node(node) => add_count(line, "node ", u64::from(node)),
    }
}

// Appends bytes in lower-case hex, and a dash where there are none.
#[tactic(auto, unfolding(crate::specs::Text::bytes_text))]
fn add_bytes(line: &mut Line, bytes: &[u8])
    requires short { length bytes.now ≤ 256 }
    requires room { length line.old ≤ 110 }
    ensures value { line.new ≡ line.old ++ bytes_text bytes.now }
    ensures len { length line.new ≤ length line.old + 512 }
{
    if bytes.is_empty() {
        line.text("-")
    } else {
        line.hex(bytes)
    }
}
