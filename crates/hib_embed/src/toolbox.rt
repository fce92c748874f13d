// A call of the tools from memory to memory.
ghost use Rattle.std.specs.Prelude.{◌≡◌, IfOk, OnOk, map, option_and_then, string_bytes};
ghost use Rattle.hib_words.specs.Tools.{tool_command};
ghost use Rattle.hib_embed.specs.Calls.{IsToolCall, tool_number};
ghost use Rattle.hib_embed.specs.Lines.{IsSaidLine, said_text};
ghost use Rattle.hib_embed.specs.Rooms.{IsAnswered, room};
ghost use Rattle.hib_embed.specs.Unserved.{unserved_tool};
ghost use Rattle.hib_embed.specs.Words.{tool_in_lines};

use crate::answer::{Answer, line_of};
use crate::page::{Input, Page};
use crate::program::nothing_kept;
use crate::rooms::tell;
use crate::unserved::{Unserved, refused, unserved_tool};
use crate::words::words_in;
use hib_base::{Bytes, Seq};
use hib_call::Status;
use hib_listeners::Recorder;
use hib_order_stage::Watcher;
use hib_outside::MemKeeper;
use hib_toolbox::{Ended, Said, tools};
use hib_words::read_tool;
use std::alloc::{AllocError, Global};

/// Nobody hears how far a search is.
#[derive(Drop)]
struct Nobody;

impl Watcher for Nobody {
    fn played(&mut self, _runs: u64) {}
}

/// The number that a call of the tools ends with.
fn tool_number(status: &Status, said: Said) -> u8
    ensures { result ≡ tool_number status.now said }
{
    match said {
        Said::Nothing => status.number(),
        Said::Found | Said::Missing | Said::Foreign(_) | Said::Long => 1,
    }
}

/// What is said of a call beside its number, as a line with its line end; empty if that is nothing.
fn said_text(alloc: Global, said: Said) -> Result<Bytes, AllocError>
    ensures { IfOk result (λ line. line ≡ said_text said) }
{
    match said {
        Said::Nothing | Said::Found => Ok(Seq::new(alloc)),
        Said::Missing => Ok(Seq::from_vec(b"hib: there is no such finding\n".to_vec(alloc)?)),
        Said::Foreign(place) => foreign_text(alloc, place),
        Said::Long => Ok(Seq::from_vec(
            b"hib: the script with the schedule has too many lines, or too long ones\n".to_vec(
                alloc,
            )?,
        )),
    }
}

/// Says which entry no schedule repeats, by its place from 0.
fn foreign_text(alloc: Global, place: usize) -> Result<Bytes, AllocError>
    ensures { IfOk result (λ line. line ≡ said_text (Said.Foreign place)) }
{
    let entry = place.saturating_add(1).to_string(alloc)?;
    let mut line = b"hib: no schedule repeats entry ".to_vec(alloc)?;
    line.extend_from_slice(entry.as_bytes())?;
    line.extend_from_slice(b", an eviction or a restart\n")?;
    Ok(Seq::from_vec(line))
}

/// The line of a call of the tools.
fn tool_line(alloc: Global, status: &Status, said: Said) -> Result<Bytes, AllocError>
    ensures { IfOk result (IsSaidLine status.now said) }
{
    match said {
        Said::Nothing => line_of(alloc, status),
        Said::Found | Said::Missing | Said::Foreign(_) | Said::Long => said_text(alloc, said),
    }
}

/// What the words ask of the tools that isn't done here.
fn unserved_in(alloc: Global, words: &[String]) -> Result<Option<Unserved>, AllocError>
    ensures { IfOk result (λ o. o
        ≡ option_and_then unserved_tool (tool_command (map string_bytes words.now))) }
{
    match read_tool(alloc, words)? {
        Some(tool) => Ok(unserved_tool(&tool)),
        None => Ok(None),
    }
}

/// Does what the words ask of the tools, over an input and with no rows. It ends as a call of the tools does over such
/// a source and sink, and what that wrote is the text. The status is 1 if something is said of the call beside how it
/// ended, as that an order ends badly. `rows`, which reads a file, is refused by name, with nothing read: its status is
/// 2. The only error is want of memory, and then nothing is left of the call.
pub fn use_tools(alloc: Global, words: &[String], input: &[u8]) -> Result<Answer, AllocError>
    ensures { IfOk result (IsToolCall (tool_command (map string_bytes words.now)) input.now) }
{
    if let Some(unserved) = unserved_in(alloc, words)? {
        return refused(alloc, unserved);
    }
    let mut source = Input::new(input);
    let mut page = Page::new(alloc);
    let lent = nothing_kept(alloc);
    let ended = tools(alloc, words, &mut source, &mut page, lent, Nobody);
    answer_of(alloc, &ended, page)
}

/// What a call comes to that has written this page.
fn answer_of(
    alloc: Global,
    ended: &Ended<MemKeeper, Recorder>,
    page: Page,
) -> Result<Answer, AllocError>
    ensures whole { OnOk result (page.failures ≡ 0) }
    ensures text { IfOk result (λ a. a.text ≡ page.bytes.items) }
    ensures status { IfOk result (λ a. a.status ≡ tool_number ended.now.status ended.now.said) }
    ensures line { IfOk result (λ a. IsSaidLine ended.now.status ended.now.said a.line) }
{
    if page.failures() > 0 {
        return Err(AllocError);
    }
    Ok(Answer {
        status: tool_number(&ended.status, ended.said),
        line: tool_line(alloc, &ended.status, ended.said)?,
        text: page.into_text(),
    })
}

/// Does what the words ask of the tools, which are the lines of a text, and puts what came of it into these rooms, as
/// `call_into` does.
pub fn use_tools_into(
    alloc: Global,
    words: &[u8],
    input: &[u8],
    out: &mut [u8],
    length: &mut usize,
    line: &mut [u8],
    line_length: &mut usize,
) -> u8
    ensures { IsAnswered (IsToolCall (tool_in_lines words.now) input.now)
        (room out.old out.new length.new) (room line.old line.new line_length.new) result }
{
    let answer = use_tool_lines(alloc, words, input);
    tell(&answer, out, length, line, line_length)
}

/// Does what the lines of a text ask of the tools.
fn use_tool_lines(alloc: Global, words: &[u8], input: &[u8]) -> Result<Answer, AllocError>
    ensures { IfOk result (IsToolCall (tool_in_lines words.now) input.now) }
{
    let words = words_in(alloc, words)?;
    use_tools(alloc, words.as_slice(), input)
}
