// A journal is read from JSON lines, one entry for each, as `audit` and the tools take it.
ghost use Rattle.hib_base.specs.Valid.{is_valid};
ghost use Rattle.hib_journal.specs.Types.{Entry};
ghost use Rattle.hib_journal_json.specs.Entries.{AreEntries, AreLines, IsFirstBad, IsRefused, IsRefusedAs, refused_at};
ghost use Rattle.hib_journal_json.specs.declared.faults.JournalFault.TheVariants.{NoMemory};
ghost use Rattle.hib_json_lines.specs.Line.{json_lines};
ghost use Rattle.hib_lex.specs.Lines.{lines_of};
ghost use Rattle.std.specs.Prelude.{◌≡◌, ◌↔◌, ◌≤◌, ◌^◌, ℕ, List, [], IsTrue, OnOk, IfErr, IfOk, MatchResult, true};

use crate::entries::{is_entry, line_entry};
use crate::faults::JournalFault;
use hib_base::{Kind, Refused, Script};
use hib_entry_fields::SessionNames;
use hib_journal::Journal;
use hib_lex::line_length;
use std::alloc::Global;

// The refusal of the line that comes after this many, the first of which has the number `first`.
fn refused(first: u32, before: usize) -> Refused
    requires { before ≤ 2 ^ 62 }
    ensures { result ≡ refused_at first before }
{
    let line = u64::from(first) + before as u64;
    Refused {
        line: if line < 1 << 32 {
            line as u32
        } else {
            u32::MAX
        },
        kind: Kind::Journal,
    }
}

// Adds an entry for each line to a journal, which must be empty.
#[tactic(auto, using(hib_lex::proofs::Texts::length_fits, crate::proofs::Journals::at_start, crate::proofs::Journals::at_end))]
fn read_named(
    alloc: Global,
    script: &Script,
    names: &SessionNames,
    text: &[u8],
    first: u32,
    journal: &mut Journal,
) -> Result<(), JournalFault>
    requires valid { is_valid script.now ≡ true }
    requires empty { journal.old.list ≡ [] }
    ensures lines { OnOk result (AreLines script.now (lines_of text.now) journal.new.list) }
    ensures refused { IfErr result (IsRefused script.now (lines_of text.now) first) }
{
    let mut scratch = Vec::new(alloc);
    let mut start = 0;
    while start < text.len() {
        let end = start + line_length(&text[start..]);
        match line_entry(alloc, script, names, &text[start..end], &mut scratch)? {
            Some(entry) => journal.push(entry)?,
            None => return Err(JournalFault::Refused(refused(first, journal.len()))),
        }
        start = end + 1;
    }
    Ok(())
}

// Adds an entry for each line to a journal, which must be empty. The map of the script's session names is made for it.
fn read_lines(
    alloc: Global,
    script: &Script,
    text: &[u8],
    first: u32,
    journal: &mut Journal,
) -> Result<(), JournalFault>
    requires valid { is_valid script.now ≡ true }
    requires empty { journal.old.list ≡ [] }
    ensures lines { OnOk result (AreLines script.now (lines_of text.now) journal.new.list) }
    ensures refused { IfErr result (IsRefused script.now (lines_of text.now) first) }
{
    let names = SessionNames::of(alloc, script)?;
    read_named(alloc, script, &names, text, first, journal)
}

/// Whether all entries of a journal are well formed: then its JSON lines are read back as this journal. It is asked
/// before they are written.
pub fn are_entries(script: &Script, journal: &Journal) -> bool
    ensures { IsTrue result ↔ AreEntries script.now journal.now.list }
{
    journal
        .as_slice()
        .iter()
        .all(|entry| is_entry(script, entry))
}

/// The journal whose entries' JSON lines a text has, one entry for each line to the end of the text. The line feed of
/// the last line may be missing; no line is skipped. The first line has the number `first`.
///
/// Errors: `Refused` exactly if a line is no well-formed entry's, with the number of the first such line; `NoMemory` if
/// there is none left. Nothing else is changed.
pub fn read(
    alloc: Global,
    script: &Script,
    text: &[u8],
    first: u32,
) -> Result<Journal, JournalFault>
    requires { is_valid script.now ≡ true }
    // Each line is the entry's at its place.
    ensures lines { IfOk result (λ j. AreLines script.now (lines_of text.now) j.list) }
    // Each line before the refused one is an entry's, and that one is none's.
    ensures refused { IfErr result (IsRefused script.now (lines_of text.now) first) }
    // Whichever entries the lines are are read.
    ensures only { (es : List Entry) → AreLines script.now (lines_of text.now) es
        → MatchResult result (λ j. j.list ≡ es) (λ f. f ≡ NoMemory) }
    // Whichever line is the first that is none's is refused.
    ensures first_bad { (n : ℕ) → IsFirstBad script.now (lines_of text.now) n
        → MatchResult result (λ _. ⊥) (IsRefusedAs (refused_at first n)) }
    // What `write` wrote is read back.
    ensures again { (es : List Entry) → AreEntries script.now es
        → text.now ≡ json_lines script.now es
        → MatchResult result (λ j. j.list ≡ es) (λ f. f ≡ NoMemory) }
{
    let mut journal = Journal::open(alloc);
    read_lines(alloc, script, text, first, &mut journal)?;
    Ok(journal)
}
