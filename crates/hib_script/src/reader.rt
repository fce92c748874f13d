// The script of a text. A line is taken one line late, since an entity's line must know whether a column follows.
ghost use Rattle.hib_base.specs.Valid.{is_valid};
ghost use Rattle.hib_base.specs.declared.refusals.Refused.{Refused};
ghost use Rattle.hib_lex.specs.Lines.{lines_of, lex_after as lex_after_in, line_of as line_in};
ghost use Rattle.hib_script.specs.Script.{begins_column};
ghost use Rattle.hib_script.specs.Drafts.{reader_of};
ghost use Rattle.hib_script.specs.Outline.{outline_of};
ghost use Rattle.hib_script.specs.Passing.{come_to, unless_bad};
ghost use Rattle.hib_script.specs.Script as order;
ghost use Rattle.hib_script.specs.declared.errors.ScriptError.TheVariants.{NoMemory};
ghost use Rattle.std.specs.Prelude.{◌≡◌, ◌∷◌, [], ◌+◌, ◌^◌, ◌<◌, ℕ, List, length, drop, ◌⊎◌, IfOk, IfErr, OnOk, Ok, Err, Some, true};

use crate::drafts::{Draft, close, start, take_script};
use crate::errors::{LineError, ScriptError};
use crate::lines::after_line;
use crate::places::Place;
use hib_base::{Kind, Refused, Script};
use hib_lex::{LexError, Line, Lines, begins, lex_after, line_length, line_of};
use std::alloc::{AllocError, Global};

/// The script that a text is. It keeps the rules of scripts: its limits at both ends, each session ends its last
/// transaction, what it names is there, and more. It holds the tokens of two lines at a time.
///
/// Errors: `Refused` exactly if the text is no script, with its first bad line and the first kind that this has, those
/// of bytes, length and tokens over the whole text before all others; if the text ends too early, the line is the
/// number of lines, and without a line that says something it is 1. `NoMemory` if there is none left. Nothing is
/// changed.
pub fn read(alloc: Global, text: &[u8]) -> Result<Script, ScriptError>
    requires { length text.now < 2 ^ 31 }
    ensures script { IfOk result (λ s. order.script_of text.now ≡ Ok (outline_of s)) }
    ensures valid { IfOk result (λ s. is_valid s ≡ true) }
    ensures refused { IfErr result (order.IsWhere (order.script_of text.now)) }
{
    let mut draft = start(alloc);
    script_of_text(alloc, &mut draft, text)
}

/// Reads a text into a draft, which must be new, and gives the script that it is, as `read` says.
fn script_of_text(alloc: Global, draft: &mut Draft, text: &[u8]) -> Result<Script, ScriptError>
    requires small { length text.now < 2 ^ 31 }
    requires new { reader_of draft.old ≡ order.start }
    ensures script { IfOk result (λ s. order.script_of text.now ≡ Ok (outline_of s)) }
    ensures refused { IfErr result (order.IsWhere (order.script_of text.now)) }
{
    match read_text(alloc, draft, text) {
        Ok(count) => ended(alloc, count, draft),
        Err(error) => Err(error),
    }
}

/// Reads a text into a draft, which must be new, and gives the number of its lines.
#[tactic(auto, using(hib_lex::proofs::Texts::length_fits))]
fn read_text(alloc: Global, draft: &mut Draft, text: &[u8]) -> Result<u32, ScriptError>
    requires small { length text.now < 2 ^ 31 }
    requires new { reader_of draft.old ≡ order.start }
    ensures read { IfOk result (λ n. order.ended_at n (reader_of draft.new) draft.new.place
        ≡ order.script_of text.now) }
    ensures refused { IfErr result (order.IsWhere (order.script_of text.now)) }
{
    let mut last = None;
    let mut count = 0;
    let mut at = 0;
    while at < text.len() {
        let end = at + line_length(&text[at..]);
        let line = &text[at..end];
        at = text.len().min(end + 1);
        last = pass(alloc, draft, last, count, line, &text[at..])?;
        count += 1;
    }
    take_last(alloc, draft, last)?;
    Ok(count)
}

/// Reads one more line of a text. Takes the one before it that said something, and gives the one that does so now. If
/// the line that is taken has a fault, what is left of the text is read for a line that breaks a rule of bytes, length
/// or tokens: that one is told first.
fn pass(
    alloc: Global,
    draft: &mut Draft,
    last: Option<Line>,
    before: u32,
    line: &[u8],
    rest: &[u8],
) -> Result<Option<Line>, ScriptError>
    requires { before + 1 + length rest.now < 2 ^ 31 }
    ensures passed { IfOk result (λ l. come_to (reader_of draft.old) last before
        (line.now ∷ lines_of rest.now)
        ≡ come_to (reader_of draft.new) l (before + 1) (lines_of rest.now)) }
    ensures refused { IfErr result (order.IsWhere (come_to (reader_of draft.old) last before
        (line.now ∷ lines_of rest.now))) }
{
    let number = before + 1;
    match line_said(alloc, number, line) {
        Ok(Some(next)) => follow(alloc, draft, last, next, number, rest),
        Ok(None) => Ok(last),
        Err(error) => Err(error),
    }
}

/// Takes the line before this one into a draft, if there is one, and gives this one. `number` is this one's, and `rest`
/// is what is left of the text after it.
fn follow(
    alloc: Global,
    draft: &mut Draft,
    last: Option<Line>,
    next: Line,
    number: u32,
    rest: &[u8],
) -> Result<Option<Line>, ScriptError>
    requires { number + length rest.now < 2 ^ 31 }
    ensures passed { IfOk result (λ l. (n : ℕ) (line : List ℕ) → number ≡ n + 1
        → line_in number line ≡ Ok (Some next)
        → come_to (reader_of draft.old) last n (line ∷ lines_of rest.now)
        ≡ come_to (reader_of draft.new) l number (lines_of rest.now)) }
    ensures refused { IfErr result (λ x. (n : ℕ) (line : List ℕ) → number ≡ n + 1
        → line_in number line ≡ Ok (Some next)
        → order.IsWhere (come_to (reader_of draft.old) last n (line ∷ lines_of rest.now)) x) }
{
    let Some(last) = last else {
        return Ok(Some(next));
    };
    let followed = begins(next.tokens.as_slice(), b"column");
    match take(alloc, draft, followed, &last, number, rest) {
        Ok(()) => Ok(Some(next)),
        Err(error) => Err(error),
    }
}

/// The line of these bytes with its tokens, or none if it is skipped.
fn line_said(alloc: Global, number: u32, line: &[u8]) -> Result<Option<Line>, ScriptError>
    ensures line { IfOk result (λ l. line_in number line.now ≡ Ok l) }
    ensures refused { IfErr result (order.IsWhere (line_in number line.now)) }
{
    match line_of(alloc, number, line) {
        Ok(line) => Ok(line),
        Err(LexError::Refused(refused)) => Err(ScriptError::Refused(refused)),
        Err(LexError::NoMemory) => Err(ScriptError::NoMemory),
    }
}

/// Takes a line into a draft. If the line has a fault, what is left of the text is read first, as `pass` says.
fn take(
    alloc: Global,
    draft: &mut Draft,
    followed: bool,
    line: &Line,
    before: u32,
    rest: &[u8],
) -> Result<(), ScriptError>
    requires { before + length rest.now < 2 ^ 31 }
    ensures step { OnOk result (order.step (reader_of draft.old) followed line.now
        ≡ Ok (reader_of draft.new)) }
    ensures refused { IfErr result (λ x. (x ≡ NoMemory) ⊎ ((fault : Refused)
        × (order.step (reader_of draft.old) followed line.now ≡ Err fault)
        × order.IsWhere (unless_bad fault (lex_after_in before rest.now)) x)) }
{
    match step(alloc, draft, followed, line) {
        Ok(()) => Ok(()),
        Err(ScriptError::Refused(fault)) => Err(first_bad(alloc, fault, before, rest)),
        Err(ScriptError::NoMemory) => Err(ScriptError::NoMemory),
    }
}

/// The first line of a text that breaks a rule of bytes, length or tokens, if there is one; else this fault, of a line
/// before the text. `before` is how many lines come before the text.
fn first_bad(alloc: Global, fault: Refused, before: u32, text: &[u8]) -> ScriptError
    requires { before + length text.now < 2 ^ 31 }
    ensures { order.IsWhere (unless_bad fault (lex_after_in before text.now)) result }
{
    match lex_after(alloc, before, text) {
        Ok(_) => ScriptError::Refused(fault),
        Err(LexError::Refused(refused)) => ScriptError::Refused(refused),
        Err(LexError::NoMemory) => ScriptError::NoMemory,
    }
}

/// Takes the last line of a text into a draft.
fn take_last(alloc: Global, draft: &mut Draft, last: Option<Line>) -> Result<(), ScriptError>
    ensures took { OnOk result ((n : ℕ) → come_to (reader_of draft.old) last n []
        ≡ order.ended_at n (reader_of draft.new) draft.new.place) }
    ensures refused { IfErr result (λ x. (n : ℕ) → order.IsWhere
        (come_to (reader_of draft.old) last n []) x) }
{
    match last {
        Some(last) => step(alloc, draft, false, &last),
        None => Ok(()),
    }
}

/// The script that the lines of a text are. It keeps the rules of scripts, as `read` says.
///
/// Errors: as of `read`, but for the kinds of bytes, length and tokens, which no line has that is there.
pub fn read_lines(alloc: Global, lines: &Lines) -> Result<Script, ScriptError>
    ensures script { IfOk result (λ s. order.script_in (Ok lines.now) ≡ Ok (outline_of s)) }
    ensures valid { (before : ℕ) (text : List ℕ) → lex_after_in before text ≡ Ok lines.now
        → IfOk result (λ s. is_valid s ≡ true) }
    ensures refused { IfErr result (order.IsWhere (order.script_in (Ok lines.now))) }
{
    script_said(alloc, lines)
}

/// The script that the lines say.
fn script_said(alloc: Global, lines: &Lines) -> Result<Script, ScriptError>
    ensures script { IfOk result (λ s. order.script_in (Ok lines.now) ≡ Ok (outline_of s)) }
    ensures refused { IfErr result (order.IsWhere (order.script_in (Ok lines.now))) }
{
    let mut draft = start(alloc);
    script_of_lines(alloc, &mut draft, lines)
}

/// Takes all lines into a draft, which must be new, and gives the script that they say.
fn script_of_lines(alloc: Global, draft: &mut Draft, lines: &Lines) -> Result<Script, ScriptError>
    requires { reader_of draft.old ≡ order.start }
    ensures script { IfOk result (λ s. order.script_in (Ok lines.now) ≡ Ok (outline_of s)) }
    ensures refused { IfErr result (order.IsWhere (order.script_in (Ok lines.now))) }
{
    match take_lines(alloc, draft, lines.lines.as_slice()) {
        Ok(()) => ended(alloc, lines.count, draft),
        Err(error) => Err(error),
    }
}

/// Takes all lines into a draft.
#[tactic(auto, using(crate::proofs::Scan::reading_done, crate::proofs::Scan::reading_next, crate::proofs::Scan::where_on))]
fn take_lines(alloc: Global, draft: &mut Draft, lines: &[Line]) -> Result<(), ScriptError>
    ensures read { OnOk result (order.reading (Ok (reader_of draft.old)) lines.now
        ≡ Ok (reader_of draft.new)) }
    ensures refused { IfErr result
        (order.IsWhere (order.reading (Ok (reader_of draft.old)) lines.now)) }
{
    for i in 0..lines.len() {
        step(alloc, draft, is_column_next(lines, i), &lines[i])?;
    }
    Ok(())
}

/// Whether the line after this one is a column's.
#[tactic(auto, using(crate::proofs::Scan::next_column, crate::proofs::Scan::no_column))]
fn is_column_next(lines: &[Line], i: usize) -> bool
    requires { i < length lines.now }
    ensures { result ≡ begins_column (drop (i + 1) lines.now) }
{
    i + 1 < lines.len() && begins(lines[i + 1].tokens.as_slice(), b"column")
}

/// Takes one more line into a draft.
fn step(alloc: Global, draft: &mut Draft, followed: bool, line: &Line) -> Result<(), ScriptError>
    ensures step { OnOk result (order.step (reader_of draft.old) followed line.now
        ≡ Ok (reader_of draft.new)) }
    ensures refused { IfErr result
        (order.IsWhere (order.step (reader_of draft.old) followed line.now)) }
{
    match after_line(alloc, draft, followed, line.tokens.as_slice()) {
        Ok(()) => Ok(()),
        Err(LineError::Fault(kind)) => Err(refused(line.line, kind)),
        Err(LineError::NoMemory) => Err(ScriptError::NoMemory),
    }
}

/// The script of a draft at the end of a text of `count` lines, or why the text can't end there. It is taken out of the
/// draft.
fn ended(alloc: Global, count: u32, draft: &mut Draft) -> Result<Script, ScriptError>
    ensures script { IfOk result (λ s. order.ended_at count (reader_of draft.old) draft.old.place
        ≡ Ok (outline_of s)) }
    ensures refused { IfErr result
        (order.IsWhere (order.ended_at count (reader_of draft.old) draft.old.place)) }
{
    match draft.place {
        Place::Start => Err(refused(1, Kind::Header)),
        Place::Behind(_) => Ok(finished(alloc, draft)?),
        Place::Session(_) | Place::Schedule => Err(unfinished(count)),
    }
}

/// Takes the script out of a draft, with its last entity.
fn finished(alloc: Global, draft: &mut Draft) -> Result<Script, AllocError>
    ensures { IfOk result (λ s. outline_of s ≡ order.finished (reader_of draft.old)) }
{
    close(draft)?;
    Ok(take_script(alloc, draft))
}

/// What is said of a text of `count` lines that ends within a session or a schedule.
fn unfinished(count: u32) -> ScriptError
    ensures { result ≡ ScriptError.Refused (order.refused_at count Kind.NoEnd) }
{
    refused(count, Kind::NoEnd)
}

fn refused(line: u32, kind: Kind) -> ScriptError
    ensures { result ≡ ScriptError.Refused (order.refused_at line kind) }
{
    ScriptError::Refused(Refused { line, kind })
}
