//! Lines out of a source.

ghost use Rattle.std.specs.Prelude.{◌≡◌, ◌<◌};
ghost use Rattle.input_reader.specs.Streams.{source_view};
ghost use Rattle.votes_app.specs.Steps.{has_end, TakesPiece, TakesLine, TakesEnd};

use crate::fault::VotesFault;
use crate::window::Window;
use hb_base::Source;

// Whether a line ends in these bytes.
fn has_end(bytes: &[u8]) -> bool
    ensures { result ≡ has_end bytes.now }
{
    bytes.iter().any(|byte| *byte == b'\n')
}

// Takes some bytes into the window: answers whether a line ends in them, and None where the input is at its end.
fn take_piece<S: Source>(source: &mut S, window: &mut Window) -> Result<Option<bool>, VotesFault>
    requires { 0 < window.old.budget }
    ensures { TakesPiece (source_view S.left S.faults source.old) (source_view S.left S.faults source.new) window.old window.new result }
{
    let mut piece = [0u8; 4096];
    let room = piece.len().min(window.budget());
    match source.take(&mut piece[..room]) {
        Err(_) => Err(VotesFault::ReadFault),
        Ok(0) => Ok(None),
        Ok(count) => {
            window.add(&piece[..count])?;
            Ok(Some(has_end(&piece[..count])))
        }
    }
}

// Takes bytes until a line ends in the window, or the input does: answers whether a line ends.
pub(crate) fn take_line<S: Source>(source: &mut S, window: &mut Window) -> Result<bool, VotesFault>
    ensures { TakesLine (source_view S.left S.faults source.old) (source_view S.left S.faults source.new) window.old window.new result }
{
    if has_end(window.bytes()) {
        return Ok(true);
    }
    window.tidy()?;
    'pieces: while window.budget() > 0 {
        match take_piece(source, window)? {
            None => return Ok(false),
            Some(true) => return Ok(true),
            Some(false) => {}
        }
    }
    Err(VotesFault::TooLong)
}

// Whether the input ends. Where it does not, one byte is taken, and let go.
pub(crate) fn has_ended<S: Source>(source: &mut S, window: &Window) -> Result<bool, VotesFault>
    ensures { TakesEnd (source_view S.left S.faults source.old) (source_view S.left S.faults source.new) window.now result }
{
    if window.budget() == 0 {
        return Err(VotesFault::TooLong);
    }
    let mut piece = [0u8; 1];
    match source.take(&mut piece) {
        Err(_) => Err(VotesFault::ReadFault),
        Ok(0) => Ok(true),
        Ok(_) => Ok(false),
    }
}
