// The script of a text, and the section after it, as `collect`, `bulk` and `nodes` read them. Its word is the line
// between.
ghost use Rattle.std.specs.Prelude.{◌≡◌, ◌<◌, ◌≤◌, ◌+◌, ◌^◌, length, true, Ok, IfOk, IfErr};
ghost use Rattle.hib_base.specs.Valid.{is_valid};
ghost use Rattle.hib_lex.specs.Lines.{lex_after, lines_of};
ghost use Rattle.hib_script.specs.Outline.{outline_of};
ghost use Rattle.hib_script.specs.Script.{IsWhere};
ghost use Rattle.hib_input.specs.WithSection.{section_of, sectioned};

use crate::cutting::{Cut, cut_of};
use crate::unmarked::without_mark;
use hib_base::{Kind, Script};
use hib_lex::{LexError, Lines, lex_after};
use hib_script::{ScriptError, read_lines};
use std::alloc::Global;

/// A script, and the lines of a section after it. Lines have their numbers in the whole text.
#[derive(Drop)]
pub struct WithSection {
    /// The lines of the script.
    pub before: Lines,
    /// The script, which is valid.
    pub script: Script,
    /// The lines of the section. Their count is that of all lines of the text.
    pub behind: Lines,
}

/// The lines of a text, with their tokens. So many others stand before it.
fn lexed(alloc: Global, before: u32, text: &[u8]) -> Result<Lines, ScriptError>
    requires { before + length text.now < 2 ^ 31 }
    ensures lines { IfOk result (λ l. lex_after before text.now ≡ Ok l) }
    ensures refused { IfErr result (IsWhere (lex_after before text.now)) }
{
    match lex_after(alloc, before, text) {
        Ok(lines) => Ok(lines),
        Err(LexError::Refused(refused)) => Err(ScriptError::Refused(refused)),
        Err(LexError::NoMemory) => Err(ScriptError::NoMemory),
    }
}

/// The script before the section's word, and the section. `lines` is how many lines stand before that word.
fn read_cut(
    alloc: Global,
    before: &[u8],
    behind: &[u8],
    lines: usize,
) -> Result<WithSection, ScriptError>
    requires small { length before.now + length behind.now + 1 < 2 ^ 31 }
    requires few { lines ≤ length before.now }
    requires count { lines ≡ length (lines_of before.now) }
    ensures section { IfOk result (λ s. sectioned (lines_of before.now) (lines_of behind.now)
        ≡ Ok (record { before = s.before; script = outline_of s.script; behind = s.behind })) }
    ensures valid { IfOk result (λ s. is_valid s.script ≡ true) }
    ensures refused { IfErr result (IsWhere (sectioned (lines_of before.now) (lines_of behind.now))) }
{
    let before = lexed(alloc, 0, before)?;
    let behind = lexed(alloc, lines as u32 + 1, behind)?;
    let script = read_lines(alloc, &before)?;
    Ok(WithSection {
        before,
        script,
        behind,
    })
}

/// The script and the section of a text: the lines before the first line that is exactly this word are the script,
/// those after it the section. A section may have no line that says something.
///
/// Errors: `Refused` exactly if the text has not this form. The first line is named with which bytes, length or tokens
/// are wrong; else the script's first bad line; else `Section` at the number of lines, if no line is the word.
/// `NoMemory` if there is none left.
pub fn read_with_section(
    alloc: Global,
    text: &[u8],
    word: &[u8],
) -> Result<WithSection, ScriptError>
    requires { length text.now + 1 < 2 ^ 31 }
    ensures section { IfOk result (λ s. section_of word.now text.now
        ≡ Ok (record { before = s.before; script = outline_of s.script; behind = s.behind })) }
    ensures valid { IfOk result (λ s. is_valid s.script ≡ true) }
    ensures refused { IfErr result (IsWhere (section_of word.now text.now)) }
{
    match cut_of(text, word) {
        Ok(
            Cut {
                before,
                behind,
                lines,
            },
        ) => read_cut(alloc, &text[..before], &text[behind..], lines),
        Err(lines) => Err(without_mark(alloc, text, lines, Kind::Section)),
    }
}
