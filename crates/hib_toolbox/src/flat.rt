// A journal as flat objects or as columns, which are comma-separated values (the word `flat`).
ghost use Rattle.std.specs.Prelude.{◌≡◌};
ghost use Rattle.hib_call.specs.Ends.{IsAfterRun, IsTextTold};
ghost use Rattle.hib_flat.specs.Lines.{flat, flat_csv};
ghost use Rattle.hib_outside.specs.Causes.{Rose};

use hib_call::{JOURNAL_BYTES, Status, Task};
use hib_input::{WithJournal, read_with_journal};
use hib_outside::Sink;
use hib_report::WriteStop;
use hib_script::ScriptError;
use std::alloc::Global;

/// Writes a journal as flat objects.
fn tell_objects<W: Sink>(alloc: Global, run: &WithJournal, out: &mut W) -> Status
    ensures told { IsTextTold result (flat run.now.script run.now.journal.list) (W.taken out.old)
        (W.taken out.new) }
    ensures write { result ≡ Status.WriteFault → Rose (W.faults out.old) (W.faults out.new) }
    ensures after { IsAfterRun result }
{
    match hib_flat::write(alloc, &run.script, run.journal.as_slice(), out) {
        Ok(()) => Status::Done,
        Err(WriteStop::Failed) => Status::WriteFault,
        Err(WriteStop::NoMemory) => Status::NoMemory,
    }
}

/// Writes a journal as columns.
fn tell_columns<W: Sink>(alloc: Global, run: &WithJournal, out: &mut W) -> Status
    ensures told { IsTextTold result (flat_csv run.now.script run.now.journal.list) (W.taken out.old)
        (W.taken out.new) }
    ensures write { result ≡ Status.WriteFault → Rose (W.faults out.old) (W.faults out.new) }
    ensures after { IsAfterRun result }
{
    match hib_flat::write_csv(alloc, &run.script, run.journal.as_slice(), out) {
        Ok(()) => Status::Done,
        Err(WriteStop::Failed) => Status::WriteFault,
        Err(WriteStop::NoMemory) => Status::NoMemory,
    }
}

/// Reads a script, the line `journal` and a journal as JSON lines, and writes the journal with a member for each thing.
/// Nothing is run or judged.
#[derive(Clone, Copy)]
pub struct Flat {
    /// As columns, and not as objects.
    pub csv: bool,
}

impl Task for Flat {
    ghost use Rattle.std.specs.Prelude.{⊤};
    ghost use Rattle.hib_toolbox.specs.Data.{flattening};

    type Input = WithJournal;

    type Run = WithJournal;

    ghost command = { λ flat. flattening flat.csv };

    ghost is_sound = { λ _. ⊤ };

    fn limit(&self) -> usize {
        JOURNAL_BYTES
    }

    fn read(&self, alloc: Global, text: &[u8]) -> Result<WithJournal, ScriptError> {
        read_with_journal(alloc, text)
    }

    fn tell<W: Sink>(&self, alloc: Global, run: &WithJournal, out: &mut W) -> Status {
        if self.csv {
            return tell_columns(alloc, run, out);
        }
        tell_objects(alloc, run, out)
    }
}
