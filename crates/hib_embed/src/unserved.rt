// What words ask for that a call from memory to memory doesn't do, and its refusal by name.
ghost use Rattle.std.specs.Prelude.{◌≡◌, IfOk};
ghost use Rattle.hib_words.specs.Commands.{asked_of};
ghost use Rattle.hib_embed.specs.Unserved.{IsRefused, unserved_of, unserved_text, unserved_tool};

use crate::answer::Answer;
use hib_base::Seq;
use hib_call::Status;
use hib_words::{Command, Tool};
use std::alloc::{AllocError, Global};

/// What words ask for that a call from memory to memory doesn't do.
#[derive(Clone, Copy, Debug, PartialEq, Eq)]
pub enum Unserved {
    /// Rows in a file.
    File,
    /// A line on standard error for each step.
    Trace,
    /// Threads.
    Threads,
}

/// The line that refuses it, with its line end.
fn unserved_text<'a>(unserved: Unserved) -> &'a [u8]
    ensures { result.now ≡ unserved_text unserved }
{
    match unserved {
        Unserved::File => b"hib: usage: the library keeps no file, so it takes no --file\n",
        Unserved::Trace =>
            b"hib: usage: the library has no standard error, so it takes no --trace\n",
        Unserved::Threads => b"hib: usage: the library starts no thread, so it takes no work\n",
    }
}

/// What a command of the program asks for that isn't done here.
pub fn unserved_of(command: &Command) -> Option<Unserved>
    ensures { result ≡ unserved_of (asked_of command.now) }
{
    if command.file().is_some() {
        return Some(Unserved::File);
    }
    if command.is_traced() {
        return Some(Unserved::Trace);
    }
    match command {
        Command::Work { .. } => Some(Unserved::Threads),
        Command::Play { .. }
        | Command::Make { .. }
        | Command::Audit
        | Command::Collect
        | Command::Bulk
        | Command::Nodes => None,
    }
}

/// What a command of the tools asks for that isn't done here: `rows` reads a file.
pub fn unserved_tool(tool: &Tool) -> Option<Unserved>
    ensures { result ≡ unserved_tool tool.now }
{
    match tool {
        Tool::Rows => Some(Unserved::File),
        Tool::Orders { .. }
        | Tool::Report
        | Tool::Flat { .. }
        | Tool::Schedule
        | Tool::Spans { .. }
        | Tool::States => None,
    }
}

/// The answer that refuses it: nothing was read and nothing written.
pub fn refused(alloc: Global, unserved: Unserved) -> Result<Answer, AllocError>
    ensures { IfOk result (IsRefused unserved) }
{
    Ok(Answer {
        status: Status::Usage.number(),
        text: Seq::new(alloc),
        line: Seq::from_vec(unserved_text(unserved).to_vec(alloc)?),
    })
}
