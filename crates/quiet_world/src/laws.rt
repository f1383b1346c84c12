//! Laws of quiet runs, whatever their liars post. Each function does nothing: what it ensures are the laws.

ghost use Rattle.std.specs.Prelude.{◌≡◌};
ghost use Rattle.hb_base.specs.Numbers.{AreSound};
ghost use Rattle.hb_rules.specs.declared.report.Report.{Report};
ghost use Rattle.hb_rules.specs.History.{IsLegal};
ghost use Rattle.hb_rules.specs.Report.{IsQuiet, StaysWithinPlan, status_of};
ghost use Rattle.hb_rules.specs.Strings.{NoCollision};
ghost use Rattle.lane_progress.specs.Calm.{IsCalm};
ghost use Rattle.quiet_world.specs.Completed.{HasEachCompleted};
ghost use Rattle.quiet_world.specs.Epochs.{EpochsEnd};
ghost use Rattle.quiet_world.specs.Spared.{IsSpared, IsSparedStatus};

/// Where nothing is left to do, the ledger of a running node has a list for each epoch up to which all agreements of the node,
/// and the broadcasts that they accepted, have completed. It is so whatever the links drop.
pub fn quiet_laws()
    ensures completed { (report : Report) → AreSound report.config → IsLegal report.config report.history.items → IsQuiet report → HasEachCompleted report }
{}

/// In a calm run each running node has closed every epoch of the run (CCS 2016, section 4.4), unless the lane of one has spent
/// its rounds.
///
/// Where nothing of correct nodes is lost in a run, each of them runs unless one of its actors found no memory. So its status is
/// 0, 5 or 9.
pub fn calm_laws()
    ensures epochs { (report : Report) → IsCalm report → EpochsEnd report }
    ensures status { (report : Report) → AreSound report.config → IsLegal report.config report.history.items
        → NoCollision report.config report.history.items → IsQuiet report → StaysWithinPlan report
        → IsSpared report → report.status ≡ status_of report → IsSparedStatus report.status }
{}
