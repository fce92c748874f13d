// A call of the program from memory to memory.
ghost use Rattle.std.specs.Prelude.{◌≡◌, [], IfOk, OnOk, option_and_then};
ghost use Rattle.hib_call.specs.Exits.{exit_number};
ghost use Rattle.hib_top.specs.Words.{asked_in};
ghost use Rattle.hib_embed.specs.Calls.{IsCall};
ghost use Rattle.hib_embed.specs.Lines.{IsLineOf};
ghost use Rattle.hib_embed.specs.Rooms.{IsAnswered, room};
ghost use Rattle.hib_embed.specs.Unserved.{unserved_of};
ghost use Rattle.hib_embed.specs.Words.{asked_in_lines};

use crate::answer::{Answer, line_of};
use crate::page::{Input, Page};
use crate::rooms::tell;
use crate::unserved::{Unserved, refused, unserved_of};
use crate::words::words_in;
use hib_base::Seq;
use hib_call::{Called, Lent};
use hib_listeners::Recorder;
use hib_outside::MemKeeper;
use hib_top::{AnyRun, play_words};
use std::alloc::{AllocError, Global};

/// What is lent to a call: a keeper in memory without rows, and no listener.
pub fn nothing_kept(alloc: Global) -> Lent<MemKeeper, Recorder>
    ensures rows { result.keeper.rows.items ≡ [] }
    ensures asked { result.keeper.asked ≡ 0 }
    ensures calls { result.keeper.failing.calls ≡ 0 }
    ensures listeners { result.listeners.items ≡ [] }
{
    Lent {
        keeper: MemKeeper::new(alloc, Seq::new(alloc)),
        listeners: Vec::new(alloc),
    }
}

/// What the words ask of the program that isn't done here.
#[tactic(auto, using(crate::proofs::Served::asked_in_words))]
fn unserved_in(alloc: Global, words: &[String]) -> Result<Option<Unserved>, AllocError>
    ensures { IfOk result (λ o. o ≡ option_and_then unserved_of (asked_in words.now)) }
{
    match hib_words::read(alloc, words)? {
        Some(command) => Ok(unserved_of(&command)),
        None => Ok(None),
    }
}

/// Does what the words ask of the program, over an input and with no rows. It ends as a call of the program does over
/// such a source and sink, and what that wrote is the text. `--file`, `--trace` and `work` are refused by name, with
/// nothing read: their status is 2. The only error is want of memory, and then nothing is left of the call.
pub fn call(alloc: Global, words: &[String], input: &[u8]) -> Result<Answer, AllocError>
    ensures { IfOk result (IsCall (asked_in words.now) input.now) }
{
    if let Some(unserved) = unserved_in(alloc, words)? {
        return refused(alloc, unserved);
    }
    let mut source = Input::new(input);
    let mut page = Page::new(alloc);
    let lent = nothing_kept(alloc);
    let called = play_words(alloc, words, &mut source, &mut page, lent);
    answer_of(alloc, &called, page)
}

/// What a call comes to that has written this page.
fn answer_of(
    alloc: Global,
    called: &Called<AnyRun, MemKeeper, Recorder>,
    page: Page,
) -> Result<Answer, AllocError>
    ensures whole { OnOk result (page.failures ≡ 0) }
    ensures text { IfOk result (λ a. a.text ≡ page.bytes.items) }
    ensures status { IfOk result (λ a. a.status ≡ exit_number called.now.status) }
    ensures line { IfOk result (λ a. IsLineOf called.now.status a.line) }
{
    if page.failures() > 0 {
        return Err(AllocError);
    }
    Ok(Answer {
        status: called.status.number(),
        line: line_of(alloc, &called.status)?,
        text: page.into_text(),
    })
}

/// Does what the words ask of the program, which are the lines of a text, and puts what came of it into these rooms:
/// what was written, and what is to be said of it. Beside each room stands how long the whole is, though it may be more
/// than there is room for. Answers the number of the program. It is 5 if the text doesn't fit, and 8 if memory ran out;
/// then nothing else is left of the call.
pub fn call_into(
    alloc: Global,
    words: &[u8],
    input: &[u8],
    out: &mut [u8],
    length: &mut usize,
    line: &mut [u8],
    line_length: &mut usize,
) -> u8
    ensures { IsAnswered (IsCall (asked_in_lines words.now) input.now)
        (room out.old out.new length.new) (room line.old line.new line_length.new) result }
{
    let answer = call_lines(alloc, words, input);
    tell(&answer, out, length, line, line_length)
}

/// Does what the lines of a text ask of the program.
fn call_lines(alloc: Global, words: &[u8], input: &[u8]) -> Result<Answer, AllocError>
    ensures { IfOk result (IsCall (asked_in_lines words.now) input.now) }
{
    let words = words_in(alloc, words)?;
    call(alloc, words.as_slice(), input)
}
