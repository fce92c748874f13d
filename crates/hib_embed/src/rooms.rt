// Rooms of a caller, into which an answer is put.
ghost use Rattle.std.specs.Prelude.{MatchResult};
ghost use Rattle.hib_embed.specs.Rooms.{IsPut, IsShort, IsTold, room};

use crate::answer::Answer;
use hib_call::Status;
use std::alloc::AllocError;

/// Puts a text into a room, as far as it goes, and tells how long the whole text is.
fn put(to: &mut [u8], length: &mut usize, text: &[u8])
    ensures { IsPut text.now (room to.old to.new length.new) }
{
    let n = text.len().min(to.len());
    to[..n].copy_from_slice(&text[..n]);
    *length = text.len();
}

/// Puts an answer into its rooms, and gives the number that is told of it.
pub fn tell(
    answer: &Result<Answer, AllocError>,
    out: &mut [u8],
    length: &mut usize,
    line: &mut [u8],
    line_length: &mut usize,
) -> u8
    ensures { MatchResult answer.now
        (λ a. IsTold a (room out.old out.new length.new) (room line.old line.new line_length.new) result)
        (λ _. IsShort (room out.old out.new length.new) (room line.old line.new line_length.new) result) }
{
    match answer {
        Ok(answer) => {
            put(out, length, answer.text.as_slice());
            if answer.text.len() > out.len() {
                put(line, line_length, b"hib: write fault\n");
                return Status::WriteFault.number();
            }
            put(line, line_length, answer.line.as_slice());
            answer.status
        }
        Err(_) => {
            put(out, length, b"");
            put(line, line_length, b"hib: no memory\n");
            Status::NoMemory.number()
        }
    }
}
