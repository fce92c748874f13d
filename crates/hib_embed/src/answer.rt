// What a call comes to, and the line that says how it ended.
ghost use Rattle.std.specs.Prelude.{IfOk};
ghost use Rattle.hib_embed.specs.Lines.{IsLineOf};

use hib_base::{Bytes, Seq};
use hib_call::{Status, status_line};
use std::alloc::{AllocError, Global};

/// What a call comes to.
#[derive(Drop)]
pub struct Answer {
    /// The number that the program would end with, 0 to 9.
    pub status: u8,
    /// What the program would write on standard output, whole.
    pub text: Bytes,
    /// What the program would say on standard error, with its line end; empty if that is nothing.
    pub line: Bytes,
}

/// The line that says how a call ended; empty if all was done. Fails for want of memory alone.
pub fn line_of(alloc: Global, status: &Status) -> Result<Bytes, AllocError>
    ensures { IfOk result (IsLineOf status.now) }
{
    if status.is_done() {
        return Ok(Seq::new(alloc));
    }
    status_line(alloc, status)
}
