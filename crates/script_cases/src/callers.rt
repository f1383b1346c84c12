//! A caller of the reader, as a program is that keeps a scenario of its own. What it promises is proved by the contracts alone.

ghost use Rattle.net_script.specs.Scenario.{told};
ghost use Rattle.script_reader.specs.Fault.{Gives};
ghost use Rattle.script_reader.specs.Reading.{scenario_of};

use hb_base::LiarName;
use net_script::Script;
use script_fault::ScriptFault;
use script_reader::read_script;
use std::alloc::Global;

/// A copy of the scenario that the bytes say, whose liars are boxes of a cast with these names, or the first fault of the bytes.
pub fn read_copy(alloc: Global, bytes: &[u8], cast: &[LiarName]) -> Result<Script, ScriptFault>
    ensures { Gives told result (scenario_of bytes.now cast.now) }
{
    let script = read_script(alloc, bytes, cast)?;
    Ok(script.copy(alloc)?)
}
