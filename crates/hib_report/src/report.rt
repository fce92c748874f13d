// The report of a journal.
ghost use Rattle.std.specs.Prelude.{◌≡◌, ◌++◌, OnOk, IfOk, reverse};
ghost use Rattle.hib_listeners.specs.Statistics.{counted};
ghost use Rattle.hib_report.specs.Report.{journal_text, sessions_text, counts_text, report, summary};
ghost use Rattle.hib_report.specs.Unsound.{unsound_text};

use crate::lines::put_lines;
use crate::regions::put_counts;
use crate::sessions::put_sessions;
use crate::unsound::put_unsound;
use hib_base::{Bytes, Entry, Script, Seq};
use hib_journal::Journal;
use hib_texts::put_labelled;
use std::alloc::{AllocError, Global};

/// The number of entries.
pub fn put_journal(alloc: Global, out: &mut Vec<u8>, entries: &[Entry]) -> Result<(), AllocError>
    ensures { OnOk result (out.new.items ≡ out.old.items ++ journal_text entries.now) }
{
    put_labelled(alloc, out, b"journal ", entries.len() as u64)?;
    out.extend_from_slice(b"\n")
}

/// What comes after the entries: the sessions, the unsound keys and the counts.
pub fn put_ends(
    alloc: Global,
    out: &mut Vec<u8>,
    script: &Script,
    journal: &Journal,
) -> Result<(), AllocError>
    ensures { OnOk result (out.new.items
        ≡ out.old.items ++ sessions_text script.now
        (reverse journal.now.list) ++ unsound_text script.now
        (reverse journal.now.list) ++ counts_text script.now
        (counted script.now journal.now.list)) }
{
    let entries = journal.as_slice();
    put_sessions(alloc, out, script, entries)?;
    put_unsound(alloc, out, script, entries)?;
    put_counts(alloc, out, script, journal)
}

/// The report of a journal, with a line feed after each line: the number of entries and a line for
/// each, the sessions with their outcomes, the unsound keys, the counts of each region, of the
/// store and of the queries, and `end`.
///
/// A session that was killed prints as `killed`, and another with the outcome of its last commit or
/// rollback. So a session that is still open prints as its last transaction ended, or as
/// `rolled-back` if it has ended none. The counts are noted in one pass. Fails for want of memory
/// alone.
pub fn text(alloc: Global, script: &Script, journal: &Journal) -> Result<Bytes, AllocError>
    ensures { IfOk result (λ b. b ≡ report script.now journal.now.list) }
{
    let entries = journal.as_slice();
    let mut out = Vec::new(alloc);
    put_journal(alloc, &mut out, entries)?;
    put_lines(alloc, &mut out, script, entries)?;
    put_ends(alloc, &mut out, script, journal)?;
    Ok(Seq::from_vec(out))
}

/// The report without the lines of the entries and of the sessions. Fails for want of memory alone.
pub fn summary(alloc: Global, script: &Script, journal: &Journal) -> Result<Bytes, AllocError>
    ensures { IfOk result (λ b. b ≡ summary script.now journal.now.list) }
{
    let entries = journal.as_slice();
    let mut out = Vec::new(alloc);
    put_journal(alloc, &mut out, entries)?;
    put_unsound(alloc, &mut out, script, entries)?;
    put_counts(alloc, &mut out, script, journal)?;
    Ok(Seq::from_vec(out))
}
