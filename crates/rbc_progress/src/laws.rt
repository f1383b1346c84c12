//! Laws of the reliable broadcast in calm runs (Bracha, Asynchronous Byzantine Agreement Protocols, 1987; with shards and
//! branches as in CCS 2016, section 4.2). The function does nothing: what it ensures are the laws.

ghost use Rattle.hb_rules.specs.declared.report.Report.{Report};
ghost use Rattle.lane_progress.specs.Calm.{IsCalm};
ghost use Rattle.rbc_progress.specs.Delivered.{DeliversToAll, SendersAreDelivered};

/// Totality: in a calm run each running node delivers what some correct node has delivered, though that node may have ended
/// since. And each running node delivers what the desk of a running node has proposed.
pub fn delivery_laws()
    ensures totality { (report : Report) → IsCalm report → DeliversToAll report }
    ensures sender { (report : Report) → IsCalm report → SendersAreDelivered report }
{}
