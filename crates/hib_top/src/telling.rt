// How a run is told.
ghost use Rattle.std.specs.Prelude.{◌++◌, ◌≡◌, ◌⊎◌, codes, IfOk};
ghost use Rattle.std.specs.Fmt.{decimal};
ghost use Rattle.hib_call.specs.Ends.{IsAfterRun, IsTextTold};
ghost use Rattle.hib_json_lines.specs.Line.{json_lines};
ghost use Rattle.hib_outside.specs.Causes.{Rose};
ghost use Rattle.hib_report.specs.Report.{report, summary};
ghost use Rattle.hib_top.specs.Running.{Tells, told_by};
ghost use Rattle.hib_top.specs.declared.telling.Telling.{Telling};

use hib_base::Script;
use hib_call::{Status, tell_text};
use hib_journal::Journal;
use hib_journal_json::are_entries;
use hib_outside::Sink;
use hib_report::WriteStop;
use std::alloc::{AllocError, Global};

/// How a run is told.
#[derive(Clone, Copy, Debug, PartialEq, Eq)]
pub enum Telling {
    /// By the report of its journal.
    Report,
    /// By its journal, each entry as a JSON line.
    JsonLines,
    /// By the number that its script was made from, and the summary of its journal.
    Summary(u32),
}

/// A run of a script.
#[derive(Drop)]
pub struct Played {
    /// The script that was run.
    pub script: Script,
    /// The entries of its steps.
    pub journal: Journal,
}

/// The number that a script was made from, and the summary of its run.
fn sum(alloc: Global, seed: u32, run: &Played) -> Result<Vec<u8>, AllocError>
    ensures { IfOk result (λ v. v.items
        ≡ told_by (Telling.Summary seed) run.now.script run.now.journal.list) }
{
    let mut text = b"seed ".to_vec(alloc)?;
    let number = seed.to_string(alloc)?;
    text.extend_from_slice(number.as_bytes())?;
    text.extend_from_slice(b"\n")?;
    let summary = hib_report::summary(alloc, &run.script, &run.journal)?;
    text.extend_from_slice(summary.as_slice())?;
    Ok(text)
}

/// Writes the number that a script was made from, and the summary of its run.
fn tell_sum<W: Sink>(alloc: Global, seed: u32, run: &Played, out: &mut W) -> Status
    ensures told { Tells (Telling.Summary seed) run.now result (W.taken out.old) (W.taken out.new) }
    ensures write { result ≡ Status.WriteFault → Rose (W.faults out.old) (W.faults out.new) }
    ensures after { IsAfterRun result }
{
    match sum(alloc, seed, run) {
        Ok(text) => tell_text(&text, out),
        Err(_) => Status::NoMemory,
    }
}

/// Writes the report of a run, piece by piece.
fn tell_report<W: Sink>(alloc: Global, run: &Played, out: &mut W) -> Status
    ensures told { Tells Telling.Report run.now result (W.taken out.old) (W.taken out.new) }
    ensures write { result ≡ Status.WriteFault → Rose (W.faults out.old) (W.faults out.new) }
    ensures after { IsAfterRun result }
{
    match hib_report::write(alloc, &run.script, &run.journal, out) {
        Ok(()) => Status::Done,
        Err(WriteStop::Failed) => Status::WriteFault,
        Err(WriteStop::NoMemory) => Status::NoMemory,
    }
}

/// Writes the journal of a run as JSON lines, piece by piece. Each entry is tested before the first is written, so that
/// what is written is read back as the journal; an entry that isn't well formed is answered as want of memory.
fn tell_lines<W: Sink>(alloc: Global, run: &Played, out: &mut W) -> Status
    ensures told { Tells Telling.JsonLines run.now result (W.taken out.old) (W.taken out.new) }
    ensures write { result ≡ Status.WriteFault → Rose (W.faults out.old) (W.faults out.new) }
    ensures after { IsAfterRun result }
{
    if !are_entries(&run.script, &run.journal) {
        return Status::NoMemory;
    }
    match hib_json_lines::send(alloc, &run.script, &run.journal, out) {
        Ok(()) => Status::Done,
        Err(WriteStop::Failed) => Status::WriteFault,
        Err(WriteStop::NoMemory) => Status::NoMemory,
    }
}

/// Tells a run that is over.
pub fn tell_run<W: Sink>(alloc: Global, telling: Telling, run: &Played, out: &mut W) -> Status
    ensures told { Tells telling run.now result (W.taken out.old) (W.taken out.new) }
    ensures write { result ≡ Status.WriteFault → Rose (W.faults out.old) (W.faults out.new) }
    ensures after { IsAfterRun result }
{
    match telling {
        Telling::Report => tell_report(alloc, run, out),
        Telling::JsonLines => tell_lines(alloc, run, out),
        Telling::Summary(seed) => tell_sum(alloc, seed, run, out),
    }
}
