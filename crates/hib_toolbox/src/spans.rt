// A journal as a trace (the word `spans`).
use hib_call::{JOURNAL_BYTES, Status, Task, tell_text};
use hib_input::{WithJournal, read_with_journal};
use hib_outside::Sink;
use hib_script::ScriptError;
use std::alloc::Global;

/// Reads a script, the line `journal` and a journal as JSON lines, and writes the journal as a trace. Nothing is run or
/// judged.
#[derive(Clone, Copy)]
pub struct Trace {
    /// For Jaeger, and not for Perfetto.
    pub jaeger: bool,
}

impl Task for Trace {
    ghost use Rattle.std.specs.Prelude.{⊤};
    ghost use Rattle.hib_toolbox.specs.Data.{tracing};

    type Input = WithJournal;

    type Run = WithJournal;

    ghost command = { λ _. tracing };

    ghost is_sound = { λ _. ⊤ };

    fn limit(&self) -> usize {
        JOURNAL_BYTES
    }

    fn read(&self, alloc: Global, text: &[u8]) -> Result<WithJournal, ScriptError> {
        read_with_journal(alloc, text)
    }

    fn tell<W: Sink>(&self, alloc: Global, run: &WithJournal, out: &mut W) -> Status {
        let trace = if self.jaeger {
            hib_spans::jaeger(alloc, &run.script, &run.journal)
        } else {
            hib_spans::perfetto(alloc, &run.script, &run.journal)
        };
        match trace {
            Ok(text) => tell_text(text.as_slice(), out),
            Err(_) => Status::NoMemory,
        }
    }
}
