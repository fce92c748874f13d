// The report on its way to a sink, piece by piece.
ghost use Rattle.std.specs.Prelude.{◌≡◌, ◌++◌, ℕ, List, [], codes, flat_map, OnOk, OnErr};
ghost use Rattle.std.specs.Io.KnownBytes.{Appends};
ghost use Rattle.hib_base.specs.declared.entries.Entry.{Entry as AnEntry};
ghost use Rattle.hib_outside.specs.Causes.{HasCause, Rose};
ghost use Rattle.hib_outside.specs.Fronts.{TakesFront};
ghost use Rattle.hib_report.specs.Lines.{line_text};
ghost use Rattle.hib_report.specs.Report.{report};
ghost use Rattle.hib_report.specs.Sending.{IsSent};

use crate::lines::put_entry;
use crate::report::{put_ends, put_journal};
use hib_base::{Entry, Script};
use hib_journal::Journal;
use hib_outside::{Failed, Sink, write_all};
use std::alloc::{AllocError, Global};
use thiserror::Error;

/// Why a text wasn't written whole.
#[derive(Clone, Copy, Debug, PartialEq, Eq, Error)]
pub enum WriteStop {
    /// Memory ran out.
    #[error("no memory")]
    NoMemory,
    /// The sink failed.
    #[error("write fault")]
    Failed,
}

impl From<AllocError> for WriteStop {
    ghost use Rattle.hib_report.specs.declared.sending.WriteStop.TheVariants.{NoMemory};

    ghost from_gives = { λ _ e. e ≡ NoMemory };

    fn from(_: AllocError) -> Self {
        WriteStop::NoMemory
    }
}

impl From<Failed> for WriteStop {
    ghost use Rattle.hib_report.specs.declared.sending.WriteStop.TheVariants as stops;

    ghost from_gives = { λ _ e. e ≡ stops.Failed };

    fn from(_: Failed) -> Self {
        WriteStop::Failed
    }
}

/// How many bytes are gathered before they go to the sink.
const PIECE: usize = 65_536;

/// Sends all that is gathered. If the sink fails a front of it was taken.
pub fn send<W: Sink>(out: &mut W, gathered: &mut Vec<u8>) -> Result<(), Failed>
    ensures whole { OnOk result (Appends (W.taken out.old) (W.taken out.new) gathered.old.items) }
    ensures empty { OnOk result (gathered.new.items ≡ []) }
    ensures front { OnErr result (TakesFront (W.taken out.old)
        (W.taken out.new) gathered.old.items) }
    ensures cause { HasCause (W.faults out.old) (W.faults out.new) result }
{
    write_all(out, gathered.as_slice())?;
    gathered.clear();
    Ok(())
}

/// Sends what is gathered if it is a piece of 65,536 bytes or more. If the sink fails a front of it was taken.
fn send_piece<W: Sink>(out: &mut W, gathered: &mut Vec<u8>) -> Result<(), Failed>
    ensures sent { OnOk result (IsSent (W.taken out.old)
        (W.taken out.new) gathered.old.items gathered.new.items) }
    ensures front { OnErr result (TakesFront (W.taken out.old)
        (W.taken out.new) gathered.old.items) }
    ensures cause { HasCause (W.faults out.old) (W.faults out.new) result }
{
    if gathered.len() < PIECE {
        return Ok(());
    }
    send(out, gathered)
}

/// Puts the line of an entry at the end of bytes.
pub trait PutLine {
    /// The line of an entry, with its end.
    ghost line: { Self → AnEntry → List ℕ };

    /// Puts it.
    fn put(&self, alloc: Global, out: &mut Vec<u8>, entry: &Entry) -> Result<(), AllocError>
        ensures { OnOk result (out.new.items ≡ out.old.items ++ line self.now entry.now) };
}

/// Gathers the lines of the entries, and sends them whenever there is a piece.
pub fn send_lines<W: Sink, L: PutLine>(
    alloc: Global,
    out: &mut W,
    gathered: &mut Vec<u8>,
    lines: &L,
    entries: &[Entry],
) -> Result<(), WriteStop>
    ensures sent { OnOk result (IsSent (W.taken out.old) (W.taken out.new)
        (gathered.old.items ++ flat_map (L.line lines.now) entries.now) gathered.new.items) }
    ensures front { OnErr result (TakesFront (W.taken out.old) (W.taken out.new)
        (gathered.old.items ++ flat_map (L.line lines.now) entries.now)) }
    ensures calm { OnOk result (W.faults out.new ≡ W.faults out.old) }
    ensures cause { result ≡ Err WriteStop.Failed → Rose (W.faults out.old) (W.faults out.new) }
{
    for entry in entries {
        lines.put(alloc, gathered, entry)?;
        send_piece(out, gathered)?;
    }
    Ok(())
}

/// The lines of the report.
#[derive(Drop)]
struct ReportLines<'a> {
    script: &'a Script,
}

impl<'a> PutLine for ReportLines<'a> {
    ghost line = { λ l e. line_text l.script.now e ++ codes "\n" };

    fn put(&self, alloc: Global, out: &mut Vec<u8>, entry: &Entry) -> Result<(), AllocError> {
        put_entry(alloc, out, self.script, entry)
    }
}

/// Writes the report of a journal, as `text` gives it, piece by piece: no more of it is in memory at a time than a
/// piece and what comes after the entries. If the sink fails or memory runs out a front of it was taken.
pub fn write<W: Sink>(
    alloc: Global,
    script: &Script,
    journal: &Journal,
    out: &mut W,
) -> Result<(), WriteStop>
    ensures whole { OnOk result (Appends (W.taken out.old) (W.taken out.new)
        (report script.now journal.now.list)) }
    ensures front { OnErr result (TakesFront (W.taken out.old) (W.taken out.new)
        (report script.now journal.now.list)) }
    ensures cause { result ≡ Err WriteStop.Failed → Rose (W.faults out.old) (W.faults out.new) }
{
    let mut gathered = Vec::new(alloc);
    put_journal(alloc, &mut gathered, journal.as_slice())?;
    let lines = ReportLines { script };
    send_lines(alloc, out, &mut gathered, &lines, journal.as_slice())?;
    put_ends(alloc, &mut gathered, script, journal)?;
    send(out, &mut gathered)?;
    Ok(())
}
