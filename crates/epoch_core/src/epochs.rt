ghost use Rattle.std.specs.Prelude.{◌≡◌, ℕ, ◌<◌, ◌≤◌, List, [], ◌∷◌, ◌++◌, length, IfOk, OnOk, OnErr, IsOk};
ghost use Rattle.hb_base.specs.Numbers.{Numbers};
ghost use Rattle.hb_wire.specs.declared.vote.Vote.{Vote};
ghost use Rattle.hb_wire.specs.declared.vote.Vote.TheVariants.{Propose};
ghost use Rattle.tx_pool.specs.Calls.{first_places};
ghost use Rattle.hb_rules.specs.Hearing.{Hearing, hearing};
ghost use Rattle.hb_rules.specs.Desk.{MayAtDesk};
ghost use Rattle.hb_rules.specs.Owing.{desk_slots};
ghost use Rattle.hb_rules.specs.Room.{KeepsRoom};
ghost use Rattle.hb_rules.specs.Slots.{IsIdle};
ghost use Rattle.hb_rules.specs.Turns.{InTurn};
ghost use Rattle.epoch_core.specs.Tables.{ArePlaced, HearsAll};
ghost use Rattle.epoch_core.specs.Epochs.{AreInOrder, AreWithin, Stands, Starts, Hears, has_started};

use crate::closing::close_all;
use crate::pending::{Pending, cast, push_first};
use crate::recovery::{closed_by, settle_all, unheard, unproposed};
use crate::table::Table;
use hb_base::{Bytes, Config};
use hb_rules::Due;
use hb_wire::Vote;
use std::alloc::{AllocError, Global};
use std::marker::Model;
use tx_pool::Pool;

/// One desk's state of all epochs (CCS 2016, figures 3 and 4): how many it has closed, its pool, and what it has heard of
/// each. Clauses see an `EpochsView`.
#[derive(Drop)]
pub struct Epochs {
    config: Config,
    node: u8,
    pool: Pool,

    // The epochs below this one are closed.
    closed: u8,

    // The value of the first proposal, where it is not cast.
    first: Option<Bytes>,

    // One table for each epoch.
    tables: Vec<Table>,
}

impl Model for Epochs {
    ghost use Rattle.std.specs.Prelude.{◌≡◌, ◌≤◌, length};
    ghost use Rattle.epoch_core.specs.Epochs.{EpochsView};
    ghost use Rattle.epoch_core.specs.Tables.{IsSound};

    ghost Value = { EpochsView };

    ghost view = { λ d. record {
      config = d.config;
      node = d.node;
      pooled = d.pool.pooled;
      closed = d.closed;
      first = d.first;
      tables = d.tables.items;
    } };

    ghost invariant = { λ d. IsSound d.config d.node d.closed d.tables.items };
}

impl Epochs {
    /// The state of a desk whose pool has what was submitted at its node and nothing settled, which has cast these votes, of
    /// any epochs, and has heard nothing since. Where the first proposal is not among them, its value is taken before what
    /// they close is settled.
    pub fn rebuild(
        alloc: Global,
        config: &Config,
        node: u8,
        pool: Pool,
        own: &[Vote],
    ) -> Result<Epochs, AllocError>
        ensures config { IfOk result (λ d. d.config ≡ config.now) }
        ensures node { IfOk result (λ d. d.node ≡ node) }
        ensures stands { IfOk result (λ d. (submitted : List (List ℕ)) → pool.pooled ≡ first_places submitted
            → AreInOrder config.now own.now → Stands d submitted own.now []) }
    {
        let (n, f, epochs) = (config.n(), config.f(), config.epochs());
        prove!(f < n);
        let mut pool = pool;
        let first = unproposed(alloc, own, &pool, config.batch())?;
        settle_all(alloc, own, &mut pool)?;
        let tables = unheard(alloc, own, epochs)?;
        let closed = closed_by(own, epochs);
        Ok(Epochs {
            config: *config,
            node,
            pool,
            closed,
            first,
            tables,
        })
    }

    /// Casts the first proposal, if it is not cast. Want of memory changes nothing; with room for one vote there is none.
    pub fn start(&mut self, due: &mut Due) -> Result<(), AllocError>
        ensures ok { OnOk result (Starts self.old self.new due.old.votes due.new.votes) }
        ensures err { OnErr result (self.new ≡ self.old) }
        ensures due { OnErr result (due.new.votes ≡ due.old.votes) }
        ensures enough { 1 ≤ due.old.spare → IsOk result }
        ensures keeps_room { KeepsRoom due.old due.new }
    {
        due.reserve(1)?;
        push_first(self.first.take(), due);
        Ok(())
    }

    /// Hears a vote of the node's own lane `lane`, and adds the votes that it makes due: NoMore once n - f lanes have decided
    /// 1; then the closings of the epochs that are complete now, rising; then a proposal for each epoch that opens, rising.
    /// It does not heed a vote of another kind, or of an epoch that the run does not have. Want of memory adds no vote; the
    /// state is of no use then.
    pub fn hear(
        &mut self,
        alloc: Global,
        lane: u8,
        vote: &Vote,
        due: &mut Due,
    ) -> Result<(), AllocError>
        requires lane { lane < self.old.config.n }
        requires started { has_started self.old }
        ensures ok { OnOk result (Hears self.old self.new (hearing lane vote.now) due.old.votes due.new.votes) }
        ensures due { OnErr result (due.new.votes ≡ due.old.votes) }
        ensures keeps_room { KeepsRoom due.old due.new }
    {
        let epoch = vote.epoch();
        let is_no_more_due = hear_in(alloc, &self.config, self.node, &mut self.tables, lane, vote)?;
        let mut pending = Pending::new(alloc);
        let closed = close_all(
            alloc,
            &self.config,
            &self.tables,
            self.closed,
            &mut self.pool,
            &mut pending,
        )?;
        cast(is_no_more_due, epoch, pending, due)?;
        self.closed = closed;
        Ok(())
    }
}

// Hears a vote of a lane in the table of its epoch, if the run has it. Whether NoMore becomes due.
fn hear_in(
    alloc: Global,
    config: &Config,
    node: u8,
    tables: &mut [Table],
    lane: u8,
    vote: &Vote,
) -> Result<bool, AllocError>
    requires count { length tables.old ≡ config.now.epochs }
    requires placed { ArePlaced config.now node tables.old }
    requires lane { lane < config.now.n }
    ensures ok { IfOk result (λ is_due. HearsAll config.now node tables.old tables.new (hearing lane vote.now) is_due) }
    ensures err { OnErr result (tables.new ≡ tables.old) }
{
    let epoch = vote.epoch();
    if epoch >= config.epochs() {
        return Ok(false);
    }
    tables[epoch as usize].hear(alloc, config, node, epoch, lane, vote)
}

/// Votes that a desk may have cast one after another, by hearings of epochs that the run has, and after which it owes
/// nothing, are in order. So are those after which it owes nothing once it has made its first proposal, with any value;
/// and so are no votes.
pub fn order_laws()
    ensures kept { (c : Numbers) (submitted : List (List ℕ)) (heard : List Hearing) (own : List Vote) → 0 < c.n → AreWithin c heard
        → InTurn (λ own vote. MayAtDesk c own heard vote) [] own → IsIdle (desk_slots c submitted) own [] → AreInOrder c own }
    ensures unproposed { (c : Numbers) (submitted : List (List ℕ)) (heard : List Hearing) (own : List Vote) (value : List ℕ) → 0 < c.n
        → AreWithin c heard → InTurn (λ own vote. MayAtDesk c own heard vote) [] own
        → IsIdle (desk_slots c submitted) (own ++ Propose 0 value ∷ []) [] → AreInOrder c own }
    ensures none { (c : Numbers) → AreInOrder c [] }
{}
