//! Which agreement.
use hb_base::Config;

/// The agreement of a lane and an epoch at a node, in a run with this config.
#[derive(Clone, Copy)]
pub struct Place {
    pub config: Config,
    pub node: u8,
    pub lane: u8,
    pub epoch: u8,
}
