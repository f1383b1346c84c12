//! Laws of lanes in calm runs. The function does nothing: what it ensures are the laws.

ghost use Rattle.std.specs.Prelude.{ℕ, ◌<◌};
ghost use Rattle.hb_rules.specs.declared.report.Report.{Report};
ghost use Rattle.hb_rules.specs.Report.{is_running};
ghost use Rattle.lane_progress.specs.Calm.{IsCalm};
ghost use Rattle.lane_progress.specs.Lanes.{IsQuietLane, heard_at};

/// In a calm run each lane is quiet: the lanes of its number at the running nodes have heard all that running nodes posted for
/// them, nothing that was not posted, and owe nothing.
pub fn lane_laws()
    ensures quiet { (report : Report) (j : ℕ) → IsCalm report → j < report.config.n
        → IsQuietLane report.config j report.history.items (is_running report) (heard_at report j) }
{}
