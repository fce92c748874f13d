//! The program and its tools for callers that aren't Rattle: two exports, each a call from memory to memory. The header
//! is library/hib.h.
#![tactic(auto)]

ghost use Rattle.hib_embed.specs.Calls.{IsCall, IsToolCall};
ghost use Rattle.hib_embed.specs.Rooms.{IsAnswered, room};
ghost use Rattle.hib_embed.specs.Words.{asked_in_lines, tool_in_lines};

use hib_embed::{call_into, use_tools_into};
use std::alloc::Global;

/// Does what the words ask of the program, which are the lines of a text, over an input and with no rows. What it
/// writes goes to `out`, what is to be said of it to `line`; beside each the length of the whole. Answers the number
/// that the program would end with; 5 if the text doesn't fit.
#[unsafe(no_mangle)]
pub extern "C" fn hib_call(
    alloc: Global,
    words: &[u8],
    input: &[u8],
    out: &mut [u8],
    length: &mut usize,
    line: &mut [u8],
    line_length: &mut usize,
) -> u8
    ensures { IsAnswered (IsCall (asked_in_lines words.now) input.now)
        (room out.old out.new length.new) (room line.old line.new line_length.new) result }
{
    call_into(alloc, words, input, out, length, line, line_length)
}

/// Does what the words ask of the tools, in the same way.
#[unsafe(no_mangle)]
pub extern "C" fn hib_tool(
    alloc: Global,
    words: &[u8],
    input: &[u8],
    out: &mut [u8],
    length: &mut usize,
    line: &mut [u8],
    line_length: &mut usize,
) -> u8
    ensures { IsAnswered (IsToolCall (tool_in_lines words.now) input.now)
        (room out.old out.new length.new) (room line.old line.new line_length.new) result }
{
    use_tools_into(alloc, words, input, out, length, line, line_length)
}
