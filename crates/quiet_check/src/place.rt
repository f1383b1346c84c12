use hb_base::Config;

// An epoch of a lane of a node, in a run with this config.
#[derive(Clone, Copy)]
pub(crate) struct Place {
    pub(crate) config: Config,
    pub(crate) node: u8,
    pub(crate) lane: u8,
    pub(crate) epoch: u8,
}
