//! The numbers of a run.
ghost use Rattle.std.specs.Prelude.{◌≡◌, ℕ, ◌+◌, ◌-◌, ◌*◌, ◌<◌, ◌≤◌, ◌↔◌, Bool, true, false, replicate, IsSome, IfSome, IsTrue};
ghost use Rattle.hb_base.specs.Numbers.{numbers, AreSound};
ghost use Rattle.hb_base.specs.NodeSet.{is_in};
ghost use Rattle.hb_base.specs.Limits.{most_nodes, most_faulty, most_epochs, most_rounds, most_batch, latest_version};

use crate::limits::{
    LATEST_VERSION, MOST_BATCH, MOST_EPOCHS, MOST_FAULTY, MOST_NODES, MOST_ROUNDS,
};
use crate::node_set::NodeSet;
use std::marker::Model;

/// The numbers of a run (CCS paper, section 4): how many nodes there are, how many of them may lie, which do, how
/// many epochs and rounds they go through, and how much they propose. Each is within its limits, and n > 3f.
#[derive(Clone, Copy, Debug, PartialEq, Eq)]
pub struct Config {
    n: u8,
    f: u8,
    epochs: u8,
    rounds: u8,
    batch: u8,
    seed: u64,
    version: u8,
    liars: NodeSet,
}

impl Model for Config {
    ghost use Rattle.hb_base.specs.Numbers.{Numbers, numbers, AreSound};

    ghost Value = { Numbers };

    ghost view = { λ c. numbers c.n c.f c.epochs c.rounds c.batch c.seed c.version c.liars };

    ghost invariant = { λ c. AreSound (numbers c.n c.f c.epochs c.rounds c.batch c.seed c.version c.liars) };

    ghost inverse = { λ c. record {
      n = c.n;
      f = c.f;
      epochs = c.epochs;
      rounds = c.rounds;
      batch = c.batch;
      seed = c.seed;
      version = c.version;
      liars = c.liars;
    } };
}

impl Config {
    /// A config of these numbers: None exactly where one is outside its limits (1 to 16 nodes, at most 5 faulty,
    /// 1 to 32 epochs and rounds, 1 to 64 transactions a batch, version 1 or 2), where n ≤ 3f, where a liar isn't
    /// below n, or where there are more than f liars.
    pub fn new(
        n: u8,
        f: u8,
        epochs: u8,
        rounds: u8,
        batch: u8,
        seed: u64,
        version: u8,
        liars: NodeSet,
    ) -> Option<Config>
        ensures found { IsSome result ↔ AreSound (numbers n f epochs rounds batch seed version liars) }
        ensures value { IfSome result (λ c. c ≡ numbers n f epochs rounds batch seed version liars) }
    {
        let nodes = 1 <= n && n <= MOST_NODES && f <= MOST_FAULTY && 3 * (f as u16) < n as u16;
        let lengths = 1 <= epochs && epochs <= MOST_EPOCHS && 1 <= rounds && rounds <= MOST_ROUNDS;
        let batches = 1 <= batch && batch <= MOST_BATCH;
        let versions = 1 <= version && version <= LATEST_VERSION;
        if nodes && lengths && batches && versions && are_below(n, &liars) && liars.count() <= f {
            Some(Config {
                n,
                f,
                epochs,
                rounds,
                batch,
                seed,
                version,
                liars,
            })
        } else {
            None
        }
    }

    /// The number of nodes, 1 to 16. A run of n nodes has n lanes, and n is the number of a node's desk.
    pub fn n(&self) -> u8
        ensures value { result ≡ self.now.n }
        ensures bounds { (1 ≤ result) × (result ≤ most_nodes) }
    {
        self.n
    }

    /// How many nodes may lie, below n / 3.
    pub fn f(&self) -> u8
        ensures value { result ≡ self.now.f }
        ensures bounds { (result ≤ most_faulty) × (3 * result < self.now.n) }
    {
        self.f
    }

    /// The number of epochs, 1 to 32.
    pub fn epochs(&self) -> u8
        ensures value { result ≡ self.now.epochs }
        ensures bounds { (1 ≤ result) × (result ≤ most_epochs) }
    {
        self.epochs
    }

    /// The number of rounds of one binary agreement, 1 to 32.
    pub fn rounds(&self) -> u8
        ensures value { result ≡ self.now.rounds }
        ensures bounds { (1 ≤ result) × (result ≤ most_rounds) }
    {
        self.rounds
    }

    /// How many transactions a node proposes at most, 1 to 64.
    pub fn batch(&self) -> u8
        ensures value { result ≡ self.now.batch }
        ensures bounds { (1 ≤ result) × (result ≤ most_batch) }
    {
        self.batch
    }

    /// The seed of the coins.
    pub fn seed(&self) -> u64
        ensures { result ≡ self.now.seed }
    {
        self.seed
    }

    /// The version of the agreement's rules, 1 or 2.
    pub fn version(&self) -> u8
        ensures value { result ≡ self.now.version }
        ensures bounds { (1 ≤ result) × (result ≤ latest_version) }
    {
        self.version
    }

    /// The nodes that lie: at most f, each below n.
    pub fn liars(&self) -> NodeSet
        ensures value { result ≡ self.now.liars }
        ensures sound { AreSound self.now }
    {
        self.liars
    }

    /// How many shards hold a value, n - 2f: from that many it is read again (CCS paper, section 4.2).
    pub fn k(&self) -> u8
        ensures value { result ≡ self.now.n - 2 * self.now.f }
        ensures bounds { (1 ≤ result) × (result ≤ most_nodes) }
    {
        self.n - 2 * self.f
    }
}

/// The least run: one node, which is correct, one epoch, one round, batches of one, seed 0.
impl Default for Config {
    ghost is_default = { λ c. c ≡ numbers 1 0 1 1 1 0 1 (replicate most_nodes false) };

    fn default() -> Config {
        Config {
            n: 1,
            f: 0,
            epochs: 1,
            rounds: 1,
            batch: 1,
            seed: 0,
            version: 1,
            liars: NodeSet::new(),
        }
    }
}

fn are_below(n: u8, nodes: &NodeSet) -> bool
    requires { n ≤ most_nodes }
    ensures { IsTrue result ↔ ((node : ℕ) → node < most_nodes → is_in nodes.now node ≡ true → node < n) }
{
    for node in n..MOST_NODES {
        if nodes.has(node) {
            return false;
        }
    }
    true
}
