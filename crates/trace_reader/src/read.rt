//! A text of a history out of a source.

ghost use Rattle.std.specs.Prelude.{◌+◌};
ghost use Rattle.input_reader.specs.Streams.{TakesAtMost, source_view};
ghost use Rattle.trace_reader.specs.Trace.{longest_trace};
ghost use Rattle.trace_reader.specs.Sources.{ReadsTrace};

use crate::fault::TraceFault;
use crate::trace::{Trace, trace_of};
use hb_base::Source;
use input_reader::{Input, read_input};
use std::alloc::Global;

/// Bytes of a text of a history at most, 2 ^ 26.
pub const LONGEST_TRACE: usize = 1 << 26;

/// Reads the text of a history to its end. It takes one byte more than `LONGEST_TRACE` at most, and leaves the rest unread.
/// Errors come in the order of `TraceFault`: a failed take hides all others, and bytes that are too many hide what they say.
pub fn read_trace<S: Source>(alloc: Global, source: &mut S) -> Result<Trace, TraceFault>
    ensures read { ReadsTrace (source_view S.left S.faults source.old) (source_view S.left S.faults source.new) result }
    ensures taken { TakesAtMost (longest_trace + 1) (source_view S.left S.faults source.old) (source_view S.left S.faults source.new) }
{
    match read_input(alloc, source, LONGEST_TRACE) {
        Input::Whole(bytes) => trace_of(alloc, &bytes),
        Input::TooLong => Err(TraceFault::TooLong),
        Input::Failed => Err(TraceFault::ReadFault),
        Input::Memory => Err(TraceFault::Memory),
    }
}
