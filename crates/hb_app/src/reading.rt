//! The scenario on the input, and the names of a cast.

ghost use Rattle.std.specs.Prelude.{◌≡◌, IfOk, map};
ghost use Rattle.net_script.specs.Scenario.{told};
ghost use Rattle.script_reader.specs.Reading.{scenario_of};
ghost use Rattle.input_reader.specs.Streams.{TakesAtMost, source_view};
ghost use Rattle.hb_app.specs.Ends.{Reads, ReadsBytes};
ghost use Rattle.hb_app.specs.Input.{most_taken};

use hb_base::limits::LONGEST_SCENARIO;
use hb_base::{LiarName, Source};
use input_reader::{Input, read_input};
use liar_cast::Liar;
use net_script::Script;
use script_fault::ScriptFault;
use script_reader::read_script;
use std::alloc::{AllocError, Global};

/// Why there is no scenario.
#[derive(Debug, Drop)]
pub enum Unread {
    /// The input has this fault.
    Refused(ScriptFault),
    /// The input can't be read.
    ReadFailed,
    /// There was no memory for the input.
    Memory,
}

/// Reads the scenario that the whole input says to this cast.
pub fn read_scenario<S: Source>(
    alloc: Global,
    source: &mut S,
    cast: &[Box<dyn Liar>],
) -> Result<Script, Unread>
    ensures read { Reads (map (λ liar. called liar) cast.now)
        (source_view S.left S.faults source.old) (source_view S.left S.faults source.new) result }
    ensures taken { TakesAtMost most_taken (source_view S.left S.faults source.old) (source_view S.left S.faults source.new) }
{
    match read_input(alloc, source, LONGEST_SCENARIO) {
        Input::Whole(bytes) => scenario_in(alloc, bytes.as_slice(), cast),
        Input::TooLong => Err(Unread::Refused(ScriptFault::TooLong)),
        Input::Failed => Err(Unread::ReadFailed),
        Input::Memory => Err(Unread::Memory),
    }
}

// The scenario that these bytes say.
#[tactic(auto, using(crate::proofs::Inputs::fails_with))]
fn scenario_in(alloc: Global, bytes: &[u8], cast: &[Box<dyn Liar>]) -> Result<Script, Unread>
    ensures { ReadsBytes (scenario_of bytes.now (map (λ liar. called liar) cast.now)) result }
{
    let Ok(names) = names_of(alloc, cast) else {
        return Err(Unread::Memory);
    };
    match read_script(alloc, bytes, names.as_slice()) {
        Ok(script) => Ok(script),
        Err(ScriptFault::Memory) => Err(Unread::Memory),
        Err(fault) => Err(Unread::Refused(fault)),
    }
}

// The names of a cast, in its order. Err is want of memory.
fn names_of(alloc: Global, cast: &[Box<dyn Liar>]) -> Result<Vec<LiarName>, AllocError>
    ensures { IfOk result (λ names. names.items ≡ map (λ liar. called liar) cast.now) }
{
    let mut names = Vec::with_capacity(alloc, cast.len())?;
    for liar in cast {
        names.push(name_of(liar))?;
    }
    Ok(names)
}

fn name_of(liar: &Box<dyn Liar>) -> LiarName
    ensures { result ≡ called liar.now }
{
    liar.name()
}
