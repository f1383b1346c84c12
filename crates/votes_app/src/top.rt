//! The top call.

ghost use Rattle.std.specs.Prelude.{◌≡◌, [], ◌∷◌, Some, None, map, string_bytes};
ghost use Rattle.input_reader.specs.Streams.{source_view};
ghost use Rattle.vote_words.specs.declared.detail.Detail.{Detail};
ghost use Rattle.votes_app.specs.Answers.{Asks, Answers, usage_line};
ghost use Rattle.votes_app.specs.Streams.{PutsOr7, sink_view};

use crate::printing::print_votes;
pub use crate::telling::NO_MEMORY;
use crate::telling::{USAGE, tell, tell_answer};
use hb_base::{Sink, Source};
use std::alloc::Global;
use vote_words::Detail;

// How much is shown of votes, as these words ask for it. None where they are unknown.
fn detail_of(words: &[String]) -> Option<Detail>
    ensures { Asks (map string_bytes words.now) result }
{
    match words.len() {
        0 => Some(Detail::Brief),
        1 => one_word(words[0].as_str()),
        _ => None,
    }
}

fn one_word(word: &str) -> Option<Detail>
    ensures { Asks (word.now ∷ []) result }
{
    if word == "--full" {
        Some(Detail::Full)
    } else {
        None
    }
}

/// The program `hb_votes`: reads the text of a history, as `hb_ledger trace` prints one, and prints it with each post in words.
/// The word `--full` asks for all bytes of a vote. The status is
///   0 if the whole text was printed,
///   2 if the words are unknown,
///   3 if the input is no text of a history,
///   6 if the input can't be read,
///   7 if the output or the error sink can't be written, and
///   9 if memory ran out.
/// All but 0 and 7 tell a line on `err`, where it takes one. The lines of posts before the one at which it stops are printed, and
/// so is the first line. The last, `end P`, is printed only where nothing stands behind it.
pub fn votes_main<S: Source, O: Sink, E: Sink>(
    alloc: Global,
    words: &[String],
    source: &mut S,
    out: &mut O,
    err: &mut E,
) -> u8
    ensures votes { (detail : Detail) → Asks (map string_bytes words.now) (Some detail) → Answers detail
        (source_view S.left S.faults source.old) (source_view S.left S.faults source.new)
        (sink_view O.held O.faults out.old) (sink_view O.held O.faults out.new)
        (sink_view E.held E.faults err.old) (sink_view E.held E.faults err.new) result }
    ensures usage { Asks (map string_bytes words.now) None
        → PutsOr7 (sink_view E.held E.faults err.old) (sink_view E.held E.faults err.new) usage_line 2 result
        × (out.new ≡ out.old) × (source.new ≡ source.old) }
{
    match detail_of(words) {
        None => tell(USAGE, 2, err),
        Some(detail) => {
            let answer = print_votes(alloc, detail, source, out);
            tell_answer(answer, err)
        }
    }
}
