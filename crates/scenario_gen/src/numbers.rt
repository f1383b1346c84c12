//! What the number of nodes decides: the numbers of the run, its liars, and the rules on its links.

ghost use Rattle.std.specs.Prelude.{◌≡◌, ◌+◌, ◌-◌, ◌≤◌, IfOk};
ghost use Rattle.hb_base.specs.Limits.{most_epochs, most_rounds, most_batch};
ghost use Rattle.hb_base.specs.Numbers.{numbers};
ghost use Rattle.scenario_gen.specs.Generated.{faulty, first_liar, liar_marks, links};

use hb_base::limits::MOST_ROUNDS;
use hb_base::{Config, NodeSet};
use net_script::{Link, Shape};
use std::alloc::{AllocError, Global};

/// How many of n nodes lie: as many as may.
pub(crate) fn faulty_of(n: u8) -> u8
    requires { 1 ≤ n }
    ensures value { result ≡ faulty n }
    ensures few { result ≤ n }
{
    (n - 1) / 3
}

/// The numbers of the run, with this number as its seed.
pub(crate) fn config_of(number: u64, n: u8, epochs: u8, batch: u8) -> Config
    requires nodes { (4 ≤ n) × (n ≤ 10) }
    requires epochs { (1 ≤ epochs) × (epochs ≤ most_epochs) }
    requires batch { (1 ≤ batch) × (batch ≤ most_batch) }
    ensures { result ≡ numbers n (faulty n) epochs most_rounds batch number 1 (liar_marks n) }
{
    Config::new(
        n,
        faulty_of(n),
        epochs,
        MOST_ROUNDS,
        batch,
        number,
        1,
        liars_of(n),
    )
    .unwrap()
}

// The liars are the last nodes.
fn liars_of(n: u8) -> NodeSet
    requires { (1 ≤ n) × (n ≤ 10) }
    ensures { result ≡ liar_marks n }
{
    let mut liars = NodeSet::new();
    let f = faulty_of(n);
    for j in 0..f {
        liars.add(n - f + j);
    }
    liars
}

/// The rules on the links of n nodes: for each liar one that drops, then two for all nodes.
pub(crate) fn links_of(alloc: Global, n: u8) -> Result<Vec<Link>, AllocError>
    requires { (1 ≤ n) × (n ≤ 10) }
    ensures { IfOk result (λ rules. rules.items ≡ links n) }
{
    let f = faulty_of(n);
    let mut rules = Vec::with_capacity(alloc, f as usize + 2)?;
    for j in 0..f {
        rules.push(Link {
            from: Some(n - f + j),
            to: None,
            every: 3,
            at: 1,
            shape: Shape::Drop,
        })?;
    }
    rules.push(Link {
        from: None,
        to: None,
        every: 5,
        at: 2,
        shape: Shape::Twice,
    })?;
    rules.push(Link {
        from: None,
        to: None,
        every: 7,
        at: 3,
        shape: Shape::Late,
    })?;
    Ok(rules)
}
