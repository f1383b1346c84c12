//! A history in words.

ghost use Rattle.std.specs.Prelude.{◌+◌, ◌≤◌};
ghost use Rattle.input_reader.specs.Streams.{TakesAtMost, source_view};
ghost use Rattle.trace_reader.specs.Trace.{longest_trace};
ghost use Rattle.votes_app.specs.Printing.{PrintsVotes};
ghost use Rattle.votes_app.specs.Steps.{PrintsHead, PrintsEnd};
ghost use Rattle.votes_app.specs.Streams.{sink_view};

use crate::fault::VotesFault;
use crate::feed::{has_ended, take_line};
use crate::posts::print_posts;
use crate::window::Window;
use hb_base::{Config, Sink, Source};
use ledger_text::put_end;
use std::alloc::Global;
use trace_reader::{config_at, end_at};
use vote_words::Detail;

/// Reads the text of a history and prints it with each post in words, line by line, each by one put. It keeps one line and some
/// 4,096 bytes in memory, however long the text is. It takes one byte more than `LONGEST_TRACE` at most. An error comes at the
/// first line that shows it, and the lines of posts before it were printed by then. `end P` is printed only once the source has
/// shown that nothing stands behind it.
pub fn print_votes<S: Source, O: Sink>(
    alloc: Global,
    detail: Detail,
    source: &mut S,
    out: &mut O,
) -> Result<(), VotesFault>
    ensures { PrintsVotes detail (source_view S.left S.faults source.old) (source_view S.left S.faults source.new)
        (sink_view O.held O.faults out.old) (sink_view O.held O.faults out.new) result }
{
    let mut window = Window::new(alloc);
    take_line(source, &mut window)?;
    let config = print_head(&mut window, out)?;
    let count = print_posts(alloc, detail, &config, source, &mut window, out)?;
    print_end(count, source, &window, out)
}

// Prints the first line as it is, and answers the run that it tells of.
fn print_head<O: Sink>(window: &mut Window, out: &mut O) -> Result<Config, VotesFault>
    ensures { PrintsHead window.old window.new (sink_view O.held O.faults out.old) (sink_view O.held O.faults out.new) result }
{
    let bytes = window.bytes();
    let Some((config, rest)) = config_at(bytes) else {
        return Err(VotesFault::NotATrace { line: 1 });
    };
    let used = bytes.len() - rest.len();
    let put = out.put(&bytes[..used]);
    window.skip(used);
    match put {
        Ok(()) => Ok(config),
        Err(_) => Err(VotesFault::WriteFault),
    }
}

// Prints the last line, that of so many posts, where it comes next and nothing stands behind it.
fn print_end<S: Source, O: Sink>(
    count: u32,
    source: &mut S,
    window: &Window,
    out: &mut O,
) -> Result<(), VotesFault>
    requires { count ≤ longest_trace + 1 }
    ensures { PrintsEnd count (source_view S.left S.faults source.old) (source_view S.left S.faults source.new) window.now
        (sink_view O.held O.faults out.old) (sink_view O.held O.faults out.new) result }
{
    match end_at(u64::from(count), window.bytes()) {
        None => return Err(VotesFault::NotATrace { line: count + 2 }),
        Some(rest) if rest.is_empty() => {}
        Some(_) => return Err(VotesFault::NotATrace { line: count + 3 }),
    }
    let ended = has_ended(source, window)?;
    if !ended {
        return Err(VotesFault::NotATrace { line: count + 3 });
    }
    match put_end(u64::from(count), out) {
        Ok(()) => Ok(()),
        Err(_) => Err(VotesFault::WriteFault),
    }
}
