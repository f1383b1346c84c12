//! The first line: the numbers of the run.

ghost use Rattle.std.specs.Prelude.{◌≡◌, ◌^◌, ◌++◌, length, IfSome, IfNone};
ghost use Rattle.hb_base.specs.Limits.{most_nodes};
ghost use Rattle.hb_base.specs.NodeSet.{is_in};
ghost use Rattle.hb_base.specs.Numbers.{Numbers};
ghost use Rattle.hb_wire.specs.Reading.{Shows};
ghost use Rattle.trace_text.specs.Text.{nodes_number, trace_line};
ghost use Rattle.trace_reader.specs.Reading.{head_at, numbers_of};
ghost use Rattle.trace_reader.specs.Trace.{IsConfig, HasNoHead};

use crate::words::{Field, after, byte_before, number_before};
use hb_base::limits::MOST_NODES;
use hb_base::{Config, NodeSet};

// The numbers of a first line, of the liars the sum of 2 ^ i over them.
#[derive(Clone, Copy)]
pub(crate) struct Head {
    pub(crate) nodes: u8,
    pub(crate) faulty: u8,
    pub(crate) version: u8,
    pub(crate) epochs: u8,
    pub(crate) rounds: u8,
    pub(crate) batch: u8,
    pub(crate) seed: u64,
    pub(crate) liars: u16,
}

// The numbers of a first line, and what is behind the line.
#[tactic(auto, unfolding(crate::specs::Reading::head_at))]
fn head_at(bytes: &[u8]) -> Field<'_, Head>
    ensures { Shows (λ x. (x.0, x.1.now)) result (head_at bytes.now) }
{
    let rest = after(bytes, b"trace nodes ")?;
    let (nodes, rest) = byte_before(rest, b" faulty ")?;
    let (faulty, rest) = byte_before(rest, b" version ")?;
    let (version, rest) = byte_before(rest, b" epochs ")?;
    let (epochs, rest) = byte_before(rest, b" rounds ")?;
    let (rounds, rest) = byte_before(rest, b" batch ")?;
    let (batch, rest) = byte_before(rest, b" seed ")?;
    let (seed, rest) = number_before(rest, u64::MAX, b" liars ")?;
    let (liars, rest) = number_before(rest, 65535, b"\n")?;
    let head = Head {
        nodes,
        faulty,
        version,
        epochs,
        rounds,
        batch,
        seed,
        liars: liars as u16,
    };
    Some((head, rest))
}

// The set of the nodes i of which a number is the sum of 2 ^ i.
fn nodes_of(number: u16) -> NodeSet
    ensures number { nodes_number most_nodes (is_in result) ≡ number }
    ensures marks { length result ≡ most_nodes }
{
    let mut nodes = NodeSet::new();
    let mut rest = number;
    for node in 0..MOST_NODES {
        if rest % 2 == 1 {
            nodes.add(node);
        }
        rest /= 2;
    }
    nodes
}

// The run with these numbers, where there can be one.
fn config_of(head: &Head) -> Option<Config>
    ensures found { IfSome result (λ c. IsConfig c × (numbers_of c ≡ head.now)) }
    ensures none { IfNone result ((c : Numbers) → IsConfig c → numbers_of c ≡ head.now → ⊥) }
{
    let liars = nodes_of(head.liars);
    Config::new(
        head.nodes,
        head.faulty,
        head.epochs,
        head.rounds,
        head.batch,
        head.seed,
        head.version,
        liars,
    )
}

/// The run that the first line tells of, and what is behind the line.
pub fn config_at(bytes: &[u8]) -> Option<(Config, &[u8])>
    ensures found { IfSome result (λ x. IsConfig x.0 × (bytes.now ≡ trace_line x.0 ++ x.1.now)) }
    ensures none { IfNone result (HasNoHead bytes.now) }
{
    let (head, rest) = head_at(bytes)?;
    let config = config_of(&head)?;
    Some((config, rest))
}
