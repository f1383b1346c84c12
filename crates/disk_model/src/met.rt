//! What a device call meets.
use crate::plan::Leave;

#[derive(Clone, Copy)]
pub(crate) enum Met {
    /// Nothing: it goes well.
    Nothing,
    /// A fault of the plan: it fails, and changes nothing but the counts of calls and of faults.
    Fault,
    /// A stop of the plan: it fails and the power goes off.
    Stops(Leave),
    /// The power is off: it fails, has no number, and changes nothing but the count of faults.
    Off,
}
