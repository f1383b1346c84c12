ghost use Rattle.std.specs.Prelude.{◌+◌, ◌<◌, ◌^◌};
ghost use Rattle.input_reader.specs.Input.{ReadsAs};
ghost use Rattle.input_reader.specs.Streams.{TakesAtMost, source_view};

use hb_base::Source;
use std::alloc::Global;

/// What reading an input came to.
#[derive(Debug, Drop)]
pub enum Input {
    /// All bytes of the input, which are no more than it may have.
    Whole(Vec<u8>),
    /// There are more bytes than it may have. The rest is left unread.
    TooLong,
    /// The source failed.
    Failed,
    /// No memory was found for the bytes.
    Memory,
}

/// Reads an input to its end, in pieces, as long as it has at most `longest` bytes. It takes one byte more at most.
pub fn read_input<S: Source>(alloc: Global, source: &mut S, longest: usize) -> Input
    requires { longest < 2 ^ 32 }
    ensures read { ReadsAs longest (source_view S.left S.faults source.old) (source_view S.left S.faults source.new) result }
    ensures taken { TakesAtMost (longest + 1) (source_view S.left S.faults source.old) (source_view S.left S.faults source.new) }
{
    let mut bytes = Vec::new(alloc);
    let mut piece = [0u8; 4096];
    'pieces: while bytes.len() <= longest {
        let room = piece.len().min(longest + 1 - bytes.len());
        match source.take(&mut piece[..room]) {
            Err(_) => return Input::Failed,
            Ok(0) => return Input::Whole(bytes),
            Ok(count) => {
                if bytes.extend_from_slice(&piece[..count]).is_err() {
                    return Input::Memory;
                }
            }
        }
    }
    Input::TooLong
}
