//! What the six kinds of liars of liar_cast say, against bytes that `tools/oracles/run said_by_liars` puts together from the
//! formats. Tables are texts, a row a line.

mod limits;
mod said;
mod vals;

use hb_base::{Bytes, Config, NodeSet};
use hb_wire::{Lie, Post, PostBytes, To};
use liar_cast::{Kind, Liar, LiarSeat, Lies, all_names, cast};
use std::alloc::{AllocError, Global};
use std::test::*;

const NAMES: [&str; 6] = [
    "silent",
    "equivocate",
    "echo_split",
    "bval_both",
    "false_share",
    "babble",
];

fn seat(n: u8, f: u8, epochs: u8, version: u8, node: u8) -> Result<LiarSeat, Fail> {
    let config = Config::new(n, f, epochs, 32, 64, 0, version, NodeSet::new());
    Ok(LiarSeat {
        node,
        config: config.ok_or("a config")?,
    })
}

// A liar of this name, as a program takes it from the cast.
fn liar_of(alloc: Global, name: &str) -> Result<Kind, Fail> {
    for liar in cast(alloc)? {
        if liar.name().as_bytes() == name.as_bytes() {
            return Ok(liar);
        }
    }
    Err(Fail::from("no such liar"))
}

#[test]
fn whole_cast(rt: HostRuntime) -> Result<(), Fail> {
    let cast = cast(rt.alloc())?;
    assert!(rt; cast.len() == 30);
    for (place, liar) in cast.iter().enumerate() {
        assert!(rt; liar.name().as_bytes() == NAMES[place % 6].as_bytes());
    }
    for (place, name) in all_names().iter().enumerate() {
        assert!(rt; name.as_bytes() == NAMES[place].as_bytes());
    }
    Ok(())
}

// A program boxes the liars of a cast. At their start the five that equivocate send each node a VAL.
#[test]
fn boxed(rt: HostRuntime) -> Result<(), Fail> {
    let me = seat(4, 1, 1, 1, 2)?;
    let mut lies = Lies::new(rt.alloc(), 2);
    for liar in cast(rt.alloc())? {
        let mut liar: Box<dyn Liar> = Box::new(rt.alloc(), liar)?;
        liar.start(rt.alloc(), &me, &mut lies);
    }
    assert!(rt; lies.waiting().len() == 20);
    Ok(())
}
