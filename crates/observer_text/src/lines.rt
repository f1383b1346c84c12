//! The line of an observer.

ghost use Rattle.script_fault.specs.Line.{Writes};
ghost use Rattle.observer_text.specs.Text.{observer_line};

use hb_base::{Failed, Sink};
use ledger_text::add_count;
use script_fault::Line;

/// Puts the line of the observer beside a node, with the number of epochs of its ledger.
#[tactic(auto, unfolding(crate::specs::Text::observer_line))]
pub(crate) fn put_epochs<O: Sink>(node: u8, epochs: u32, out: &mut O) -> Result<(), Failed>
    ensures { Writes (O.held out.old) (O.held out.new) (O.faults out.old) (O.faults out.new) result (observer_line node epochs) }
{
    let mut line = Line::new();
    add_count(&mut line, "observer ", u64::from(node));
    add_count(&mut line, " epochs ", u64::from(epochs));
    line.text("\n");
    out.put(line.as_slice())
}
