//! The core of any actor of a node.
ghost use Rattle.ledger_run.specs.Cores.{core_terms, core_stands};

use desk_core::DeskCore;
use hb_base::Config;
use hb_rules::Due;
use hb_wire::{Spoken, Vote};
use journaled_actor::Core;
use lane_core::LaneCore;
use std::alloc::{AllocError, Global};

/// The core of an actor of a node: of one of its lanes, or of its desk.
#[derive(Drop)]
pub enum NodeCore {
    /// That of a lane.
    Lane(LaneCore),
    /// That of the desk.
    Desk(DeskCore),
}

impl Core for NodeCore {
    ghost terms = { core_terms };

    ghost stands = { core_stands };

    fn config(&self) -> Config {
        match self {
            NodeCore::Lane(lane) => lane.config(),
            NodeCore::Desk(desk) => desk.config(),
        }
    }

    fn node(&self) -> u8 {
        match self {
            NodeCore::Lane(lane) => lane.node(),
            NodeCore::Desk(desk) => desk.node(),
        }
    }

    fn actor(&self) -> u8 {
        match self {
            NodeCore::Lane(lane) => lane.actor(),
            NodeCore::Desk(desk) => desk.actor(),
        }
    }

    fn lawful(&self) {
        match self {
            NodeCore::Lane(lane) => lane.lawful(),
            NodeCore::Desk(desk) => desk.lawful(),
        }
    }

    fn rebuild(&mut self, alloc: Global, own: &[Vote], due: &mut Due) -> Result<(), AllocError> {
        match self {
            NodeCore::Lane(lane) => lane.rebuild(alloc, own, due),
            NodeCore::Desk(desk) => desk.rebuild(alloc, own, due),
        }
    }

    fn hear(
        &mut self,
        alloc: Global,
        from: u8,
        vote: &Spoken,
        due: &mut Due,
    ) -> Result<(), AllocError> {
        match self {
            NodeCore::Lane(lane) => lane.hear(alloc, from, vote, due),
            NodeCore::Desk(desk) => desk.hear(alloc, from, vote, due),
        }
    }
}
