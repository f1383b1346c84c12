ghost use Rattle.std.specs.Prelude.{◌≡◌, ◌<◌, ◌≤◌, ◌||◌, false, List, [], ◌++◌, length, replicate};
ghost use Rattle.std.specs.Prelude.{IfOk, OnOk, OnErr, IsOk};
ghost use Rattle.std.specs.Option.{option_map, option_to_list};
ghost use Rattle.std.specs.List.{list_any, filter};
ghost use Rattle.hb_wire.specs.declared.vote.Vote.{Vote};
ghost use Rattle.hb_wire.specs.declared.vote.Vote.TheVariants.{Decided, Delivered, NoMore, Closed};
ghost use Rattle.hb_rules.specs.Claims.{is_no_more, is_any_delivery};
ghost use Rattle.hb_rules.specs.DeskRows.{accepted_below};
ghost use Rattle.hb_rules.specs.Hearing.{Hearing, hearing};
ghost use Rattle.hb_rules.specs.Slots.{when};
ghost use Rattle.acs_core.specs.Shown.{accepted_of, nothing};
ghost use Rattle.acs_core.specs.Subset.{AcsView, node_epoch_of, fresh, Stands, Hears, is_no_more_due, heard_in_subset};

use crate::shown::{Shown, accepted, count_accepted, note_decision, note_value};
use hb_base::{Bytes, Config};
use hb_rules::{Due, has_no_more};
use hb_wire::Vote;
use std::alloc::{AllocError, Global};
use std::marker::Model;

/// One node's state of the common subset of one epoch (CCS 2016, figure 4): whether its desk has cast NoMore, and what each
/// of its lanes has decided and delivered. Clauses see an `AcsView`.
#[derive(Debug, Drop)]
pub struct Acs {
    config: Config,
    node: u8,
    epoch: u8,
    is_no_more_cast: bool,
    lanes: Vec<Shown>,
}

impl Model for Acs {
    ghost use Rattle.std.specs.Prelude.{◌≡◌, length};
    ghost use Rattle.acs_core.specs.Subset.{AcsView};

    ghost Value = { AcsView };

    ghost view = { λ a. record {
      config = a.config;
      node = a.node;
      epoch = a.epoch;
      is_no_more_cast = a.is_no_more_cast;
      lanes = a.lanes.items;
    } };

    ghost invariant = { λ a. length a.lanes.items ≡ a.config.n };
}

impl Acs {
    /// The state of an epoch at a desk that has cast these votes, of any epoch, and has heard nothing since.
    pub fn rebuild(
        alloc: Global,
        config: &Config,
        node: u8,
        epoch: u8,
        own: &[Vote],
    ) -> Result<Acs, AllocError>
        ensures exact { IfOk result (λ a. a ≡ fresh config.now node epoch (list_any (is_no_more epoch) own.now)) }
        ensures stands { IfOk result (λ a. Stands a own.now []) }
    {
        let (n, f) = (config.n(), config.f());
        prove!(f < n);
        let lanes = no_lanes(alloc, n)?;
        Ok(Acs {
            config: *config,
            node,
            epoch,
            is_no_more_cast: has_no_more(epoch, own),
            lanes,
        })
    }

    /// Hears a vote of the node's own lane `lane`, and adds NoMore where it becomes due: once n - f lanes have decided 1. Of a
    /// lane the first decision and the first delivery count. It does not heed a vote of another epoch or kind. Want of
    /// memory changes nothing; with room for one vote only a delivery can want any.
    pub fn hear(&mut self, lane: u8, vote: &Vote, due: &mut Due) -> Result<(), AllocError>
        requires { lane < (node_epoch_of self.old).config.n }
        ensures ok { OnOk result (Hears self.old self.new (hearing lane vote.now) due.old.votes due.new.votes) }
        ensures err { OnErr result (self.new ≡ self.old) }
        ensures due { OnErr result (due.new.votes ≡ due.old.votes) }
        ensures enough { 1 ≤ due.old.spare → is_any_delivery (node_epoch_of self.old).epoch vote.now ≡ false → IsOk result }
    {
        match vote {
            Vote::Decided { epoch, bit } => {
                if *epoch == self.epoch {
                    self.hear_decision(lane, *bit, due)
                } else {
                    Ok(())
                }
            }
            Vote::Delivered { epoch, value } => {
                if *epoch == self.epoch {
                    self.hear_delivery(lane, value)
                } else {
                    Ok(())
                }
            }
            _ => Ok(()),
        }
    }

    /// The vote that closes the epoch: None exactly where some lane has not decided, or one that decided 1 has not
    /// delivered. Its list has the lanes that decided 1, rising, each with the value that it delivered first. Err where
    /// there is no memory for the list; the values are shared.
    pub fn closed(&self) -> Result<Option<Vote>, AllocError>
        ensures exact { IfOk result (λ vote. vote ≡ option_map (Closed self.now.epoch) (accepted_of self.now.lanes self.now.config.n)) }
        ensures heard { IfOk result (λ vote. (own : List Vote) (heard : List Hearing) → Stands self.now own heard
            → vote ≡ option_map (Closed (node_epoch_of self.now).epoch) (accepted_below (node_epoch_of self.now).epoch heard (node_epoch_of self.now).config.n)) }
    {
        let n = self.config.n();
        prove!(n <= 16);
        match accepted(*self.lanes.allocator(), &self.lanes)? {
            Some(list) => Ok(Some(Vote::Closed {
                epoch: self.epoch,
                list,
            })),
            None => Ok(None),
        }
    }

    // A lane decides.
    fn hear_decision(&mut self, lane: u8, bit: bool, due: &mut Due) -> Result<(), AllocError>
        requires { lane < (node_epoch_of self.old).config.n }
        ensures ok { OnOk result (Hears self.old self.new (hearing lane (Decided self.old.epoch bit)) due.old.votes due.new.votes) }
        ensures err { OnErr result (self.new ≡ self.old) }
        ensures due { OnErr result (due.new.votes ≡ due.old.votes) }
        ensures enough { 1 ≤ due.old.spare → IsOk result }
    {
        due.reserve(1)?;
        note_decision(&mut self.lanes, lane, bit);
        self.cast_no_more(due);
        Ok(())
    }

    // A lane delivers.
    fn hear_delivery(&mut self, lane: u8, value: &Bytes) -> Result<(), AllocError>
        requires { lane < (node_epoch_of self.old).config.n }
        ensures ok { OnOk result ((due : List Vote) → Hears self.old self.new (hearing lane (Delivered self.old.epoch value.now)) due due) }
        ensures err { OnErr result (self.new ≡ self.old) }
    {
        let value = value.clone()?;
        note_value(&mut self.lanes, lane, value);
        Ok(())
    }

    // Casts NoMore if it is due, for which there is room.
    fn cast_no_more(&mut self, due: &mut Due)
        requires { 1 ≤ due.old.spare }
        ensures state { self.new ≡ record self.old { is_no_more_cast = self.old.is_no_more_cast || is_no_more_due self.old } }
        ensures votes { due.new.votes ≡ due.old.votes ++ option_to_list (when (is_no_more_due self.old) (NoMore self.old.epoch)) }
    {
        let config = self.config;
        let (n, f) = (config.n(), config.f());
        prove!(n <= 16);
        if !self.is_no_more_cast && count_accepted(&self.lanes) >= n - f {
            self.is_no_more_cast = true;
            due.push_reserved(Vote::NoMore { epoch: self.epoch });
        }
    }
}

/// What a state stands for is of its epoch alone: it stands for other votes with the same answer to whether NoMore of the
/// epoch is among them, and for other hearings with the same ones of the epoch.
pub fn subset_laws()
    ensures part { (a : AcsView) (own other : List Vote) (heard now : List Hearing)
        → list_any (is_no_more (node_epoch_of a).epoch) own ≡ list_any (is_no_more (node_epoch_of a).epoch) other
        → filter (heard_in_subset (node_epoch_of a).epoch) heard ≡ filter (heard_in_subset (node_epoch_of a).epoch) now
        → Stands a own heard → Stands a other now }
{}

// So many lanes that have shown nothing.
fn no_lanes(alloc: Global, n: u8) -> Result<Vec<Shown>, AllocError>
    ensures { IfOk result (λ lanes. lanes.items ≡ replicate n nothing) }
{
    let mut lanes = Vec::with_capacity(alloc, n as usize)?;
    'lanes: for _ in 0..n {
        lanes.push(Shown {
            decision: None,
            value: None,
        })?;
    }
    Ok(lanes)
}
