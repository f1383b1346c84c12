//! The lines of posts.

ghost use Rattle.std.specs.Prelude.{◌+◌, ◌≤◌, length, IfOk};
ghost use Rattle.input_reader.specs.Streams.{source_view};
ghost use Rattle.trace_reader.specs.Trace.{longest_trace};
ghost use Rattle.votes_app.specs.Steps.{FindsPost, PrintsPost, PrintsPosts};
ghost use Rattle.votes_app.specs.Streams.{sink_view};

use crate::fault::VotesFault;
use crate::feed::take_line;
use crate::window::Window;
use hb_base::{Config, Sink, Source};
use hb_wire::Post;
use std::alloc::{AllocError, Global};
use trace_reader::post_at;
use vote_words::{Detail, post_in_words};

// Prints posts in words, numbered from 0 on, as many as come, and answers how many.
pub(crate) fn print_posts<S: Source, O: Sink>(
    alloc: Global,
    detail: Detail,
    config: &Config,
    source: &mut S,
    window: &mut Window,
    out: &mut O,
) -> Result<u32, VotesFault>
    requires { length window.old.bytes + window.old.budget ≤ longest_trace + 1 }
    ensures { PrintsPosts detail config.now (source_view S.left S.faults source.old) (source_view S.left S.faults source.new)
        window.old window.new (sink_view O.held O.faults out.old) (sink_view O.held O.faults out.new) result }
{
    let mut count = 0;
    'posts: loop {
        take_line(source, window)?;
        let printed = print_post(alloc, detail, config, count, window, out)?;
        if !printed {
            return Ok(count);
        }
        count += 1;
    }
}

// Prints post k in words, if its line comes next.
fn print_post<O: Sink>(
    alloc: Global,
    detail: Detail,
    config: &Config,
    k: u32,
    window: &mut Window,
    out: &mut O,
) -> Result<bool, VotesFault>
    ensures { PrintsPost detail config.now k window.old window.new (sink_view O.held O.faults out.old) (sink_view O.held O.faults out.new) result }
{
    match next_post(alloc, k, window.bytes())? {
        None => Ok(false),
        Some((post, used)) => {
            let line = post_in_words(alloc, detail, config, u64::from(k), &post)?;
            window.skip(used);
            match out.put(line.as_slice()) {
                Ok(()) => Ok(true),
                Err(_) => Err(VotesFault::WriteFault),
            }
        }
    }
}

// Post k, and how many bytes its line has, if it comes next.
fn next_post(alloc: Global, k: u32, bytes: &[u8]) -> Result<Option<(Post, usize)>, AllocError>
    ensures { IfOk result (FindsPost k bytes.now) }
{
    match post_at(alloc, u64::from(k), bytes)? {
        None => Ok(None),
        Some((post, rest)) => {
            let used = bytes.len() - rest.len();
            Ok(Some((post, used)))
        }
    }
}
