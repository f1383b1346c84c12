//! Scenarios of four nodes that submit a transaction each, and of one node alone, and what is printed of runs.

use crate::calls::{Answer, Host, Request, call_with, check_ran, run};
use liar_cast::Liar;
use std::alloc::{AllocError, Global};

// One node with one transaction, whose run of three rounds has 23 posts.
pub(crate) const ALONE: &str =
    r#"{"nodes":1,"faulty":0,"epochs":1,"rounds":3,"seed":0,"submit":[{"node":0,"tx":"6869"}]}"#;

// The same node with two rounds, whose coins are 0: it spends them, and decides nothing.
pub(crate) const SPENT: &str =
    r#"{"nodes":1,"faulty":0,"epochs":1,"rounds":2,"seed":0,"submit":[{"node":0,"tx":"6869"}]}"#;

// Four nodes, of which one may be faulty, with a transaction each, up to what else the scenario has.
const FOUR: &str =
    r#"{"nodes":4,"faulty":1,"epochs":1,"submit":[{"node":0,"tx":"6130"},{"node":1,"tx":"6131"},{"node":2,"tx":"6132"},{"node":3,"tx":"6133"}]"#;

// The scenario of the four nodes, with these keys besides.
pub(crate) fn four_nodes(alloc: Global, keys: &str) -> Result<String, AllocError> {
    let mut scenario = String::new(alloc);
    for part in [FOUR, keys, "}"] {
        scenario.push_str(part)?;
    }
    Ok(scenario)
}

// Runs them, with these keys besides.
pub(crate) fn run_four(rt: &impl Host, alloc: Global, keys: &str) -> Result<Answer, AllocError> {
    let scenario = four_nodes(alloc, keys)?;
    run(rt, alloc, scenario.as_str())
}

// The four nodes with a liar of this name at node 3 that hears so many posts.
pub(crate) fn with_liar(alloc: Global, name: &str, hears: u32) -> Result<String, AllocError> {
    let keys = format!(in alloc;
        ",\"liars\":[{{\"node\":3,\"name\":\"{name}\",\"hears\":{hears}}}]"
    )?;
    four_nodes(alloc, keys.as_str())
}

// A liar that goes on is asked to hear at most so many posts.
const ALL: u32 = 4_194_304;

// Checks that a command that runs them, where node 3 is this liar, ends with 0 and prints this text.
pub(crate) fn check_with_liar(
    rt: &impl Host,
    alloc: Global,
    word: &str,
    name: &str,
    liar: Box<dyn Liar>,
    text: &str,
) -> Result<(), AllocError> {
    let mut liars: Vec<Box<dyn Liar>> = Vec::new(alloc);
    liars.push(liar)?;
    let scenario = with_liar(alloc, name, ALL)?;
    let answer = call_with(rt, alloc, &Request::new(word, scenario.as_str()), liars)?;
    check_ran(rt, &answer, 0, text, word);
    Ok(())
}
