//! Laws of the binary agreement (Mostéfaoui, Moumen and Raynal, PODC 2014; where the rules are of version 2, with a phase in
//! which nodes confirm what they are left with) in calm runs, in both versions. The function does nothing: what it ensures are
//! the laws.

ghost use Rattle.hb_rules.specs.declared.report.Report.{Report};
ghost use Rattle.lane_progress.specs.Calm.{IsCalm};
ghost use Rattle.aba_progress.specs.RoundsEnd.{RoundsEnd};

/// Termination, as far as it does not hang on the coins. In a calm run, where all running nodes have an estimate of round 0 in
/// a lane and epoch, all of them have decided there, or one has picked in the last round and decided nothing.
pub fn progress_laws()
    ensures rounds { (report : Report) → IsCalm report → RoundsEnd report }
{}
