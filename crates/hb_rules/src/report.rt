//! The report of a run, and how the run ended for each actor.
ghost use Rattle.std.specs.Prelude.{◌≡◌, ◌+◌, ◌<◌};
ghost use Rattle.std.specs.List.{list_all, range_with_len};
ghost use Rattle.hb_rules.specs.Report.{IsEmptyReport, is_running, works, none_ended};

use disk_model::Note;
use hb_base::Config;
use hb_wire::Post;
use net_script::{Order, Script};
use std::alloc::Global;

/// How a run ended for an actor.
#[derive(Clone, Copy, Debug, PartialEq, Eq)]
pub enum Fate {
    /// It works.
    Running,
    /// It found no memory.
    Memory,
    /// Its journal failed.
    Journal,
    /// The book was full when it had a vote to post.
    Full,
}

/// An actor at the end of a run: its fate, the numbers of the posts that it received, in order, and how far its disk has
/// come.
#[derive(Debug, Drop)]
pub struct End {
    /// Its node, a correct one.
    pub node: u8,
    /// Its number there: a lane below n, the desk n.
    pub actor: u8,
    /// How the run ended for it.
    pub fate: Fate,
    /// The numbers of the posts that it received since its last start, in order.
    pub got: Vec<u32>,
    /// How far its disk has come.
    pub note: Note,
}

/// One whole run: its config and its script, the history of all posts, the end of each actor of each correct node, by
/// node and then actor, and the status that the program answers.
#[derive(Debug, Drop)]
pub struct Report {
    /// The numbers of the run.
    pub config: Config,
    /// What it was to do.
    pub script: Script,
    /// All posts, each under its number from 0 on.
    pub history: Vec<Post>,
    /// The ends of the actors of correct nodes, by node and then actor.
    pub ends: Vec<End>,
    /// What the program answers, and 255 before that is known.
    pub status: u8,
}

impl Report {
    /// A report of no run: one node, empty lists, status 255. It takes no memory.
    pub fn empty(alloc: Global) -> Report
        ensures { IsEmptyReport result }
    {
        let script = Script {
            config: Config::default(),
            workers: 0,
            order: Order::Fifo,
            submit: Vec::new(alloc),
            liars: Vec::new(alloc),
            links: Vec::new(alloc),
            plans: Vec::new(alloc),
        };
        Report {
            config: Config::default(),
            script,
            history: Vec::new(alloc),
            ends: Vec::new(alloc),
            status: 255,
        }
    }
}

/// Whether a node is correct, and each of its n + 1 actors has an end, with the fate Running. It takes no memory.
pub fn running(report: &Report, node: u8) -> bool
    ensures { result ≡ is_running report.now node }
{
    let n = report.config.n();
    if node >= n || report.config.liars().has(node) {
        return false;
    }
    let ends = report.ends.as_slice();
    all_there(ends, node, n) && none_ended(ends, node)
}

/// Whether the end of an actor is there, with the fate Running. It takes no memory.
pub fn works(ends: &[End], node: u8, actor: u8) -> bool
    ensures { result ≡ works ends.now node actor }
{
    ends.iter().any(|end| end.node == node && end.actor == actor && end.fate == Fate::Running)
}

// Whether the end of each of the n + 1 actors of a node is there, with the fate Running.
fn all_there(ends: &[End], node: u8, n: u8) -> bool
    requires { n < 255 }
    ensures { result ≡ list_all (works ends.now node) (range_with_len 0 (n + 1)) }
{
    (0..n + 1).all(|actor| works(ends, node, actor))
}

// Whether no end of the node has another fate than Running.
fn none_ended(ends: &[End], node: u8) -> bool
    ensures { result ≡ none_ended ends.now node }
{
    ends.iter()
        .all(|end| end.node != node || end.fate == Fate::Running)
}
