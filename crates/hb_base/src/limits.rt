//! How large a run may be. Clauses take these numbers from `specs/Limits.antt`, and `limits` says that the two agree.
ghost use Rattle.std.specs.Prelude.{◌≡◌};
ghost use Rattle.hb_base.specs.Limits.{most_nodes, most_faulty, most_epochs, most_rounds, most_batch, longest_transaction, longest_value, longest_shard};
ghost use Rattle.hb_base.specs.Limits.{most_posts, most_lies, longest_lie, most_stops, most_faults, most_links, longest_scenario, most_workers, latest_version};

/// Nodes of a run, n.
pub const MOST_NODES: u8 = 16;

/// Nodes that may lie, f; n > 3f besides.
pub const MOST_FAULTY: u8 = 5;

/// Epochs of a run.
pub const MOST_EPOCHS: u8 = 32;

/// Rounds of one binary agreement.
pub const MOST_ROUNDS: u8 = 32;

/// Transactions that a node proposes in one epoch.
pub const MOST_BATCH: u8 = 64;

/// Bytes of a transaction.
pub const LONGEST_TRANSACTION: usize = 256;

/// Bytes of a value that is broadcast: a full batch of the longest transactions, written as a batch.
pub const LONGEST_VALUE: usize = 16_514;

/// Bytes of a shard.
pub const LONGEST_SHARD: usize = 16_520;

/// Posts of a history.
pub const MOST_POSTS: u32 = 4_194_304;

/// Lies that one liar may tell.
pub const MOST_LIES: u32 = 4_096;

/// Bytes of a lie.
pub const LONGEST_LIE: usize = 20_000;

/// Stops planned for one actor.
pub const MOST_STOPS: u8 = 4;

/// Faults planned for one actor's disk.
pub const MOST_FAULTS: u8 = 4;

/// Rules for the links between nodes.
pub const MOST_LINKS: u32 = 256;

/// Bytes of a scenario.
pub const LONGEST_SCENARIO: usize = 1_048_576;

/// Threads of a node; with none of them one thread runs all nodes.
pub const MOST_WORKERS: u8 = 4;

/// The newest version of the agreement's rules. The oldest is 1.
pub const LATEST_VERSION: u8 = 2;

/// The constants are the limits that definitions speak of. The function does nothing: what it ensures is the law.
pub fn limits()
    ensures nodes { MOST_NODES ≡ most_nodes }
    ensures faulty { MOST_FAULTY ≡ most_faulty }
    ensures epochs { MOST_EPOCHS ≡ most_epochs }
    ensures rounds { MOST_ROUNDS ≡ most_rounds }
    ensures batch { MOST_BATCH ≡ most_batch }
    ensures transaction { LONGEST_TRANSACTION ≡ longest_transaction }
    ensures value { LONGEST_VALUE ≡ longest_value }
    ensures shard { LONGEST_SHARD ≡ longest_shard }
    ensures posts { MOST_POSTS ≡ most_posts }
    ensures lies { MOST_LIES ≡ most_lies }
    ensures lie { LONGEST_LIE ≡ longest_lie }
    ensures stops { MOST_STOPS ≡ most_stops }
    ensures faults { MOST_FAULTS ≡ most_faults }
    ensures links { MOST_LINKS ≡ most_links }
    ensures scenario { LONGEST_SCENARIO ≡ longest_scenario }
    ensures workers { MOST_WORKERS ≡ most_workers }
    ensures version { LATEST_VERSION ≡ latest_version }
{}
