ghost use Rattle.std.specs.Prelude.{◌≡◌, ◌+◌, ◌<◌, ◌++◌, ◌↔◌, map, IsTrue, IfOk, OnOk};
ghost use Rattle.std.specs.List.{range_with_len};
ghost use Rattle.hb_rules.specs.Report.{actors};

use hb_base::Config;
use hb_rules::End;
use std::alloc::{AllocError, Global};

// Whether the ends are those of the actors of all correct nodes, by node and then actor.
pub(crate) fn are_actors(alloc: Global, config: &Config, ends: &[End]) -> Result<bool, AllocError>
    ensures { IfOk result (λ all. IsTrue all ↔ (map (λ end. (end.node, end.actor)) ends.now ≡ actors config.now)) }
{
    let names = names_of(alloc, config)?;
    Ok(are_named(names.as_slice(), ends))
}

// The actors of all correct nodes, by node and then actor.
fn names_of(alloc: Global, config: &Config) -> Result<Vec<(u8, u8)>, AllocError>
    ensures { IfOk result (λ names. names.items ≡ actors config.now) }
{
    let n = config.n();
    let liars = config.liars();
    let mut names = Vec::new(alloc);
    for node in 0..n {
        if liars.has(node) {
            continue;
        }
        add_node(&mut names, n, node)?;
    }
    Ok(names)
}

// Adds the n + 1 actors of a node.
fn add_node(names: &mut Vec<(u8, u8)>, n: u8, node: u8) -> Result<(), AllocError>
    requires { n < 255 }
    ensures { OnOk result (names.new.items ≡ names.old.items ++ map (λ x. (node, x)) (range_with_len 0 (n + 1))) }
{
    for actor in 0..n + 1 {
        names.push((node, actor))?;
    }
    Ok(())
}

// Whether the ends are those of the actors with these names, in order.
fn are_named(names: &[(u8, u8)], ends: &[End]) -> bool
    ensures { IsTrue result ↔ (map (λ end. (end.node, end.actor)) ends.now ≡ names.now) }
{
    if names.len() != ends.len() {
        return false;
    }
    for place in 0..ends.len() {
        let named = is_named(names[place], &ends[place]);
        if !named {
            return false;
        }
    }
    true
}

fn is_named(name: (u8, u8), end: &End) -> bool
    ensures { IsTrue result ↔ ((end.now.node, end.now.actor) ≡ name) }
{
    let (node, actor) = name;
    end.node == node && end.actor == actor
}
