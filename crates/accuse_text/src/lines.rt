//! The line of an accusation.

ghost use Rattle.script_fault.specs.Line.{Writes};
ghost use Rattle.accuse_text.specs.Text.{accused_line};

use accuse::Accusation;
use hb_base::{Failed, Sink};
use ledger_text::add_count;
use script_fault::Line;

// Puts the line of an accusation.
#[tactic(auto, unfolding(crate::specs::Text::accused_line))]
pub(crate) fn put_accusation<O: Sink>(accusation: Accusation, out: &mut O) -> Result<(), Failed>
    ensures { Writes (O.held out.old) (O.held out.new) (O.faults out.old) (O.faults out.new) result (accused_line accusation) }
{
    let mut line = Line::new();
    add_count(&mut line, "accused ", u64::from(accusation.node));
    add_count(&mut line, " posts ", u64::from(accusation.first));
    add_count(&mut line, " ", u64::from(accusation.second));
    line.text("\n");
    out.put(line.as_slice())
}
