//! What no clause says: that there is memory, and that the scenarios are those that were meant.
use disk_model::Stop;
use net_script::{ActorPlan, Order, Script, Shape, Submit};
use scenario_gen::generate;
use std::alloc::Global;
use std::process::Abort;
use std::test::Fail;

// What `tools/oracles/run generated_scenarios` draws: the number, the nodes, the liars, the epochs, the transactions in a
// batch and the workers; the first transaction and the last; each liar; and each stop with its node, its actor, its call and
// what it leaves.
const ROWS: &str = "\
0: 9 2 2 8 3, bdd219b8a08ded1a, c383761677bdb435, 7 babble, 8 babble, 0 6 10 Torn, 1 0 21 Torn, 2 2 7 New, 3 3 14 Torn, 4 5 22 Old, 5 1 16 Old, 6 8 34 Old
1: 5 1 3 17 1, 0dd6a36ca4fb6eab, de97e2864b8d1b7a, 4 bval_both, 0 1 34 Torn, 1 4 22 New, 2 1 34 Torn, 3 2 21 New
7: 4 1 5 22 2, 29048c50d3750b10, 6aa122146ecd768e, 3 bval_both, 0 1 23 New, 1 2 10 Torn, 2 2 15 Old
18446744073709551615: 10 3 4 12 1, 099223f33bb44e43, 0140b32ffb5a39ca, 7 babble, 8 babble, 9 echo_split, 0 2 30 Torn, 1 10 2 New, 2 0 1 Torn, 3 6 15 New, 4 10 22 New, 5 9 3 Old, 6 0 29 Old";

// The row of a scenario.
fn row_of(alloc: Global, script: &Script) -> Result<String, Fail> {
    let Script {
        config,
        workers,
        ..
    } = script;
    let [n, f, epochs, batch] = [config.n(), config.f(), config.epochs(), config.batch()];
    let mut row = format!(in alloc; "{}: {n} {f} {epochs} {batch} {workers}", config.seed())?;
    for entry in [script.submit.first(), script.submit.last()] {
        add_transaction(&mut row, entry)?;
    }
    for liar in &script.liars {
        let name = str::from_utf8(liar.name.as_bytes())?;
        write!(row, ", {} {name}", liar.node)?;
    }
    for entry in &script.plans {
        add_stops(&mut row, entry)?;
    }
    Ok(row)
}

fn add_transaction(row: &mut String, entry: Option<&Submit>) -> Result<(), Fail> {
    let Submit { tx, .. } = entry.ok_or("no submission")?;
    row.push_str(", ")?;
    for byte in tx.as_slice() {
        write!(row, "{byte:02x}")?;
    }
    Ok(())
}

fn add_stops(row: &mut String, entry: &ActorPlan) -> Result<(), Fail> {
    let ActorPlan { node, actor, plan } = entry;
    for Stop { call, leave } in plan.stops.as_slice() {
        write!(row, ", {node} {actor} {call} {leave:?}")?;
    }
    Ok(())
}

#[test]
fn scenarios(rt: HostRuntime) -> Result<(), Fail> {
    for row in ROWS.lines() {
        let (number, _) = row.split_once(": ").ok_or("a row without a number")?;
        let script = generate(rt.alloc(), number.parse::<u64>()?)?;
        assert!(rt; row_of(rt.alloc(), &script)?.as_str() == row);
        check_rest(&rt, &script);
        check_links(&rt, &script);
    }
    Ok(())
}

// What the rows don't tell, since it is always so.
fn check_rest(rt: &impl Abort, script: &Script) {
    let config = &script.config;
    assert!(rt;
        config.rounds() == 32
            && config.version() == 1
            && script.order == Order::Fifo
            && script.submit.len() == 64 * config.n() as usize
            && config.liars().count() as usize == script.liars.len()
    );
    for (t, Submit { node, tx }) in script.submit.iter().enumerate() {
        assert!(rt; *node as usize == t / 64 && tx.as_slice().len() == 8);
    }
    for liar in &script.liars {
        assert!(rt; liar.hears == 4_194_304 && config.liars().has(liar.node));
    }
    for entry in &script.plans {
        assert!(rt; entry.plan.stops.len() == 1 && entry.plan.faults.is_empty());
    }
}

// A rule for each liar, and the two for all.
fn check_links(rt: &impl Abort, script: &Script) {
    assert!(rt; script.links.len() == script.liars.len() + 2);
    for (place, link) in script.links.iter().enumerate() {
        let from = script.liars.get(place).map(|liar| liar.node);
        let (every, at, shape) = match place.checked_sub(script.liars.len()) {
            None => (3, 1, Shape::Drop),
            Some(0) => (5, 2, Shape::Twice),
            Some(_) => (7, 3, Shape::Late),
        };
        assert!(rt;
            link.from == from
                && link.to.is_none()
                && link.every == every
                && link.at == at
                && link.shape == shape
        );
    }
}
