//! Which lane votes.
use hb_base::Config;

/// A lane of a node, in a run with this config.
#[derive(Clone, Copy)]
pub struct Lane {
    pub config: Config,
    pub node: u8,
    pub lane: u8,
}
