//! The whole text.

ghost use Rattle.std.specs.Prelude.{◌≡◌};
ghost use Rattle.std.specs.List.{flat_map};
ghost use Rattle.script_fault.specs.Line.{Writes};
ghost use Rattle.accuse_text.specs.Text.{accused_line, accuse_text};

use crate::lines::put_accusation;
use accuse::Accusation;
use hb_base::{Failed, Sink};
use hb_rules::Report;
use ledger_text::{put_numbers, put_status};

// Prints accusations in order.
fn put_all<O: Sink>(found: &[Accusation], out: &mut O) -> Result<(), Failed>
    ensures { Writes (O.held out.old) (O.held out.new) (O.faults out.old) (O.faults out.new) result (flat_map accused_line found.now) }
{
    for accusation in found {
        put_accusation(*accusation, out)?;
    }
    Ok(())
}

/// Prints the text of these accusations, each line by one put: `accuse nodes N faulty F version V epochs E` of the report's
/// config, `accused I posts P Q` of each accusation, and `end S` with the report's status. It takes no memory. After an error a
/// front of the text was written, and the sink's count of faults rose.
#[tactic(auto, using(script_fault::proofs::Writing::writes_then, script_fault::proofs::Writing::writes_front), unfolding(crate::specs::Text::accuse_text))]
pub fn print_accuse<O: Sink>(
    report: &Report,
    found: &[Accusation],
    out: &mut O,
) -> Result<(), Failed>
    ensures { Writes (O.held out.old) (O.held out.new) (O.faults out.old) (O.faults out.new) result (accuse_text report.now found.now) }
{
    put_numbers("accuse", &report.config, out)?;
    put_all(found, out)?;
    put_status(report.status, out)
}
