// The report of a journal that comes after its script (the word `report`).
ghost use Rattle.hib_call.specs.Ends.{Comes};
ghost use Rattle.hib_call.specs.Outside.{shared_of};
ghost use Rattle.hib_toolbox.specs.Reporting.{reporting};

use hib_call::{JOURNAL_BYTES, Lent, Outcome, Ran, Status, Task};
use hib_input::{WithJournal, read_with_journal};
use hib_outside::{Keeper, Listener, Sink};
use hib_report::WriteStop;
use hib_script::ScriptError;
use std::alloc::Global;

/// Hands on a journal as it was read, and what is lent as it is.
pub fn as_read<K: Keeper, L: Listener>(
    input: WithJournal,
    lent: Lent<K, L>,
) -> Ran<WithJournal, K, L>
    ensures { Comes reporting input
        (shared_of K.Keeper L.Listener lent) (shared_of K.Keeper L.Listener result.lent) result.outcome }
{
    Ran {
        outcome: Outcome::Over(input),
        lent,
    }
}

/// Reads a script, the line `journal` and a journal as JSON lines, and writes the report of the journal. Nothing is run
/// or judged.
#[derive(Clone, Copy)]
pub struct Report;

impl Task for Report {
    ghost use Rattle.std.specs.Prelude.{⊤};
    ghost use Rattle.hib_toolbox.specs.Reporting.{reporting};

    type Input = WithJournal;

    type Run = WithJournal;

    ghost command = { λ _. reporting };

    ghost is_sound = { λ _. ⊤ };

    fn limit(&self) -> usize {
        JOURNAL_BYTES
    }

    fn read(&self, alloc: Global, text: &[u8]) -> Result<WithJournal, ScriptError> {
        read_with_journal(alloc, text)
    }

    fn tell<W: Sink>(&self, alloc: Global, run: &WithJournal, out: &mut W) -> Status {
        match hib_report::write(alloc, &run.script, &run.journal, out) {
            Ok(()) => Status::Done,
            Err(WriteStop::Failed) => Status::WriteFault,
            Err(WriteStop::NoMemory) => Status::NoMemory,
        }
    }
}
