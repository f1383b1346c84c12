//! A lane that hears one post and then nothing, and a node that lies and hears nothing but its own lies.
ghost use Rattle.std.specs.Prelude.{◌≡◌, ◌<◌, true, false, []};
ghost use Rattle.std.specs.Arc.{arc_value};
ghost use Rattle.hb_base.specs.NodeSet.{is_in};

use super::*;
use actor_cell::Served;
use coin_deal::{Deal, deal};
use hb_base::{Config, NodeSet};
use hb_rules::Fate;
use net_script::{Order, Script};
use post_book::Naming;
use std::alloc::{AllocError, Global};
use std::marker::Brand;
use std::sync::{Arc, Wait};
use std::test::*;

// Four nodes, of which this one lies.
fn four(liar: u8) -> Option<Config>
    requires { liar < 16 }
{
    let mut liars = NodeSet::new();
    liars.add(liar);
    Config::new(4, 1, 1, 1, 1, 0, 1, liars)
}

// A run of these nodes with no plans, in which each post comes once.
fn plain_script(alloc: Global, config: Config) -> Script
    ensures { (result.config ≡ config) × (result.plans.items ≡ []) }
{
    Script {
        config,
        workers: 1,
        order: Order::Fifo,
        submit: Vec::new(alloc),
        liars: Vec::new(alloc),
        links: Vec::new(alloc),
        plans: Vec::new(alloc),
    }
}

// The turns, where the script is of four nodes of which node 3 lies.
fn turns<K: Naming, R: Wait>(
    rt: &R,
    alloc: Global,
    script: &Script,
) -> Result<Option<Turns>, AllocError>
    requires config { script.now.config ≡ K.config }
    requires plans { script.now.plans.items ≡ [] }
{
    let liars = script.config.liars();
    if script.config.n() != 4 || liars.has(0) || !liars.has(3) {
        return Ok(None);
    }
    let dealt = Arc::new(alloc, deal(alloc, &script.config)?)?;
    hear_a_lie::<K, R>(rt, alloc, script, dealt)
}

#[test]
fn one_post_and_then_none(rt: HostRuntime) -> Result<(), Fail> {
    let config = four(3).expect(&rt, "a config");
    let script = plain_script(rt.alloc(), config);
    let turns = turns::<Brand, HostRuntime>(&rt, rt.alloc(), &script)?.expect(&rt, "turns");
    assert!(rt;
        turns.one == Some(Served::Did)
            && turns.two == Some(Served::Idle)
            && turns.fate == Fate::Running
            && turns.entered == 1
            && turns.got == 1
    );
    Ok(())
}

// The turns of node 0, where it lies and hears so many posts.
fn liar_turns<K: Naming, R: Wait>(
    rt: &R,
    alloc: Global,
    script: &Script,
    hears: u32,
) -> Result<Option<LiarTurns>, AllocError>
    requires config { script.now.config ≡ K.config }
{
    if script.config.n() == 0 || !script.config.liars().has(0) {
        return Ok(None);
    }
    lie_and_hear::<K, R>(rt, alloc, script, hears)
}

#[test]
fn a_liar_that_hears_two_posts(rt: HostRuntime) -> Result<(), Fail> {
    let config = four(0).expect(&rt, "a config");
    let script = plain_script(rt.alloc(), config);
    let turns = liar_turns::<Brand, HostRuntime>(&rt, rt.alloc(), &script, 2)?.expect(&rt, "turns");
    let (did, idle) = (Some(Served::Did), Some(Served::Idle));
    assert!(rt; turns.served == [did, did, did, idle] && turns.entered == 3 && turns.posts == 3);
    Ok(())
}

#[test]
fn a_liar_that_hears_nothing(rt: HostRuntime) -> Result<(), Fail> {
    let config = four(0).expect(&rt, "a config");
    let script = plain_script(rt.alloc(), config);
    let turns = liar_turns::<Brand, HostRuntime>(&rt, rt.alloc(), &script, 0)?.expect(&rt, "turns");
    let (did, idle) = (Some(Served::Did), Some(Served::Idle));
    assert!(rt; turns.served == [did, idle, idle, idle] && turns.entered == 1 && turns.posts == 1);
    Ok(())
}
