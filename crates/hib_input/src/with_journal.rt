// The script and the journal of a text, as `audit` and the tools read them.
ghost use Rattle.std.specs.Prelude.{◌≡◌, ◌<◌, ◌≤◌, ◌+◌, ◌^◌, length, true, Ok, None, IfOk, IfErr};
ghost use Rattle.hib_base.specs.Valid.{is_valid};
ghost use Rattle.hib_lex.specs.Lines.{lines_of};
ghost use Rattle.hib_script.specs.Outline.{outline_of};
ghost use Rattle.hib_journal_json.specs.Entries.{AreLines};
ghost use Rattle.hib_input.specs.Cut.{script_of_lines};
ghost use Rattle.hib_input.specs.WithJournal.{IsInput, IsWholeInput, IsWhere, IsRefusedBehind, IsBadCut};
ghost use Rattle.hib_script.specs.declared.errors.ScriptError.TheVariants as faults;

use crate::cutting::{Cut, cut_of};
use crate::unmarked::without_mark;
use hib_base::{Kind, Script};
use hib_journal::Journal;
use hib_journal_json::JournalFault;
use hib_script::ScriptError;
use std::alloc::Global;

/// A script, and a journal in its names.
#[derive(Drop)]
pub struct WithJournal {
    /// The script, which is valid.
    pub script: Script,
    /// The journal, whatever its entries say.
    pub journal: Journal,
}

/// The journal after a script. Its first line has the number `first`.
fn read_behind(
    alloc: Global,
    script: Script,
    behind: &[u8],
    first: u32,
) -> Result<WithJournal, ScriptError>
    requires { is_valid script ≡ true }
    ensures script { IfOk result (λ i. i.script ≡ script) }
    ensures lines { IfOk result (λ i. AreLines script (lines_of behind.now) i.journal.list) }
    ensures refused { IfErr result (IsRefusedBehind script (lines_of behind.now) first) }
{
    match hib_journal_json::read(alloc, &script, behind, first) {
        Ok(journal) => Ok(WithJournal { script, journal }),
        Err(JournalFault::Refused(refused)) => Err(ScriptError::Refused(refused)),
        Err(JournalFault::NoMemory) => Err(ScriptError::NoMemory),
    }
}

/// The script before a line `journal`, and the journal after it. `lines` is how many lines stand before that line.
fn read_cut(
    alloc: Global,
    before: &[u8],
    behind: &[u8],
    lines: usize,
) -> Result<WithJournal, ScriptError>
    requires small { length before.now < 2 ^ 31 }
    requires few { lines ≤ length before.now + 1 }
    requires count { lines ≡ length (lines_of before.now) }
    ensures script { IfOk result (λ i. script_of_lines (lines_of before.now)
        ≡ Ok (outline_of i.script)) }
    ensures lines { IfOk result (λ i. AreLines i.script (lines_of behind.now) i.journal.list) }
    ensures valid { IfOk result (λ i. is_valid i.script ≡ true) }
    ensures refused { IfErr result (IsBadCut (lines_of before.now) (lines_of behind.now)) }
{
    let script = hib_script::read(alloc, before)?;
    read_behind(alloc, script, behind, lines as u32 + 2)
}

/// The script and the journal of a text: the lines before the first line that is exactly `journal` are the script,
/// those after it JSON lines, one for each entry.
///
/// Errors: `Refused` exactly if the text has not this form, with its first bad line by the rules of a script, and else
/// the first line after it that is no entry's; `NoMemory` if there is none left.
pub fn read_with_journal(alloc: Global, text: &[u8]) -> Result<WithJournal, ScriptError>
    requires { length text.now < 2 ^ 31 }
    ensures input { IfOk result (λ i. IsInput text.now i.script i.journal.list) }
    ensures valid { IfOk result (λ i. is_valid i.script ≡ true) }
    ensures few { IfOk result (λ i. length i.journal.list ≤ length text.now) }
    ensures refused { IfErr result (IsWhere text.now) }
    // A text that has the form is refused for want of memory alone.
    ensures whole { IsWholeInput text.now → IfErr result (λ f. f ≡ faults.NoMemory) }
{
    match cut_of(text, b"journal") {
        Ok(
            Cut {
                before,
                behind,
                lines,
            },
        ) => read_cut(alloc, &text[..before], &text[behind..], lines),
        Err(lines) => Err(without_mark(alloc, text, lines, Kind::Journal)),
    }
}
