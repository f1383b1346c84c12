ghost use Rattle.std.specs.Prelude.{◌≡◌, ◌<◌, None, IfOk};
ghost use Rattle.std.specs.List.{AllByRecursion};
ghost use Rattle.hb_base.specs.ByteLists.{AreBytes};
ghost use Rattle.tx_pool.specs.Calls.{first_places};
ghost use Rattle.hb_base.specs.Limits.{IsTransaction};

use epoch_core::{Epochs, order_laws};
use hb_base::{Bytes, Config};
use hb_rules::{Due, desk_slot_laws, slot_laws, term_laws};
use hb_wire::{Spoken, Vote};
use journaled_actor::Core;
use std::alloc::{AllocError, Global};
use std::marker::Model;
use tx_pool::Pool;

/// The core of a desk: what was submitted at its node, and its state of all epochs. Clauses see a `DeskView`.
#[derive(Drop)]
pub struct DeskCore {
    config: Config,
    node: u8,
    submitted: Vec<Bytes>,

    // None until it is rebuilt.
    epochs: Option<Epochs>,
}

impl Model for DeskCore {
    ghost use Rattle.desk_core.specs.Desk.{DeskView, IsDesk};

    ghost Value = { DeskView };

    ghost view = { λ d. record {
      config = d.config;
      node = d.node;
      submitted = d.submitted.items;
      epochs = d.epochs;
    } };

    ghost invariant = { λ d. IsDesk d.config d.node d.submitted.items };
}

impl DeskCore {
    /// The core of the desk of a node at which these transactions were submitted, in this order. It takes no memory, and
    /// stands for nothing until it is rebuilt.
    pub fn new(config: &Config, node: u8, submitted: Vec<Bytes>) -> DeskCore
        requires node { node < config.now.n }
        requires fit { AllByRecursion IsTransaction submitted.items }
        requires bytes { AllByRecursion AreBytes submitted.items }
        ensures { result ≡ record { config = config.now; node = node; submitted = submitted.items; epochs = None } }
    {
        DeskCore {
            config: *config,
            node,
            submitted,
            epochs: None,
        }
    }
}

impl Core for DeskCore {
    ghost use Rattle.desk_core.specs.Desk.{desk_terms, StandsFor};

    ghost terms = { λ d. desk_terms d };

    ghost stands = { λ d own heard. StandsFor d own heard };

    fn config(&self) -> Config {
        self.config
    }

    fn node(&self) -> u8 {
        self.node
    }

    fn actor(&self) -> u8 {
        self.config.n()
    }

    fn lawful(&self) {
        // A config is sound where its liars can be told.
        let _sound = self.config.liars();
        term_laws();
    }

    fn rebuild(&mut self, alloc: Global, own: &[Vote], due: &mut Due) -> Result<(), AllocError> {
        order_laws();
        desk_slot_laws();
        slot_laws();
        let pool = pool_of(alloc, &self.submitted)?;
        let mut epochs = Epochs::rebuild(alloc, &self.config, self.node, pool, own)?;
        epochs.start(due)?;
        self.epochs = Some(epochs);
        Ok(())
    }

    fn hear(
        &mut self,
        alloc: Global,
        from: u8,
        vote: &Spoken,
        due: &mut Due,
    ) -> Result<(), AllocError> {
        desk_slot_laws();
        slot_laws();
        let Some(epochs) = &mut self.epochs else {
            return Ok(());
        };
        epochs.hear(alloc, from, vote.vote(), due)
    }
}

// The pool of a node at which these transactions were submitted, with nothing settled.
fn pool_of(alloc: Global, submitted: &[Bytes]) -> Result<Pool, AllocError>
    requires { AllByRecursion IsTransaction submitted.now }
    ensures { IfOk result (λ pool. pool.pooled ≡ first_places submitted.now) }
{
    let mut pool = Pool::new(alloc);
    for tx in submitted {
        pool.submit(tx)?;
    }
    Ok(pool)
}
