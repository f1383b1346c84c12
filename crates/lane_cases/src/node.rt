//! A correct node in one agreement.

ghost use Rattle.std.specs.Prelude.{◌≡◌, ◌<◌};
ghost use Rattle.std.specs.Arc.{arc_value};
ghost use Rattle.aba_core.specs.State.{place_of};

use aba_core::Aba;
use coin_deal::Deal;
use hb_base::Config;
use hb_rules::Due;
use hb_wire::Vote;
use std::alloc::{AllocError, Global};
use std::sync::Arc;
use std::test::Fail;

// Which agreement: of a lane, in an epoch.
#[derive(Clone, Copy, Debug)]
pub(crate) struct Agreement {
    pub(crate) lane: u8,
    pub(crate) epoch: u8,
}

// A correct node: its state, how many nodes there are, what it has to cast, and how much of that is posted.
#[derive(Drop)]
pub(crate) struct Node {
    aba: Aba,
    n: u8,
    due: Due,
    posted: usize,
    ghost nodes: { n ≡ (place_of aba).config.n },
}

impl Node {
    // A node that has cast these votes.
    pub(crate) fn new(
        alloc: Global,
        config: &Config,
        deal: &Arc<Deal, Global>,
        agreement: Agreement,
        number: u8,
        own: &[Vote],
    ) -> Result<Node, Fail>
        requires { arc_value deal.now ≡ config.now }
    {
        let n = config.n();
        let Agreement { lane, epoch } = agreement;
        if number >= n || lane >= n || epoch >= config.epochs() {
            return Err("no such node".into());
        }
        Ok(Node {
            aba: Aba::rebuild(alloc, config, deal, number, lane, epoch, own)?,
            n,
            due: Due::new(alloc),
            posted: 0,
        })
    }

    pub(crate) fn input(&mut self, bit: bool) -> Result<(), AllocError> {
        self.aba.input(bit, &mut self.due)
    }

    // Hears a vote of a node of the run.
    pub(crate) fn hear(&mut self, from: u8, vote: &Vote) -> Result<(), AllocError> {
        if from >= self.n {
            return Ok(());
        }
        self.aba.hear(from, vote, &mut self.due)
    }

    // What it has had to cast since it was made.
    pub(crate) fn votes(&self) -> &[Vote] {
        self.due.votes()
    }

    pub(crate) fn decided(&self) -> Option<bool> {
        self.aba.decided()
    }

    // The next vote that is not posted yet, which then is.
    pub(crate) fn post(&mut self) -> Result<Option<Vote>, AllocError> {
        match self.due.votes().get(self.posted) {
            Some(vote) => {
                let vote = vote.clone()?;
                self.posted = self.posted.saturating_add(1);
                Ok(Some(vote))
            }
            None => Ok(None),
        }
    }
}
