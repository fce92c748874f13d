// The audit of a journal that comes after its script (`audit`).
ghost use Rattle.std.specs.Prelude.{◌≡◌, ◌≤◌, length, true, IfOk};
ghost use Rattle.hib_base.specs.Valid.{is_valid};
ghost use Rattle.hib_call.specs.Limits.{max_journal};
ghost use Rattle.hib_call.specs.Ends.{Comes};
ghost use Rattle.hib_call.specs.Outside.{shared_of};
ghost use Rattle.hib_top.specs.Auditing.{auditing, status_said, verdict_text};

use hib_audit::Audit;
use hib_call::{JOURNAL_BYTES, Lent, Outcome, Ran, Status, Task, put_illegal, tell_text};
use hib_input::{WithJournal, read_with_journal};
use hib_outside::{Keeper, Listener, Sink};
use hib_script::ScriptError;
use std::alloc::{AllocError, Global};

/// What is said of a journal.
#[derive(Clone, Copy)]
pub struct Judged {
    /// The number of its entries.
    pub count: usize,
    /// That it is legal, or its first entry that isn't.
    pub audit: Audit,
}

/// Judges a journal, and hands back what is lent as it is.
pub fn judge_journal<K: Keeper, L: Listener>(
    alloc: Global,
    input: WithJournal,
    lent: Lent<K, L>,
) -> Ran<Judged, K, L>
    requires valid { is_valid input.script ≡ true }
    requires few { length input.journal.list ≤ max_journal }
    ensures judged { Comes auditing input
        (shared_of K.Keeper L.Listener lent) (shared_of K.Keeper L.Listener result.lent) result.outcome }
{
    let outcome = match hib_audit::audit(alloc, &input.script, &input.journal) {
        Ok(audit) => Outcome::Over(Judged {
            count: input.journal.len(),
            audit,
        }),
        Err(_) => Outcome::Stopped(Status::NoMemory, None),
    };
    Ran { outcome, lent }
}

/// What is said of a journal, as a line.
fn verdict(alloc: Global, judged: Judged) -> Result<Vec<u8>, AllocError>
    ensures { IfOk result (λ v. v.items ≡ verdict_text judged.count judged.audit) }
{
    let mut text = Vec::new(alloc);
    match judged.audit {
        Audit::Legal => {
            text.extend_from_slice(b"legal ")?;
            let number = judged.count.to_string(alloc)?;
            text.extend_from_slice(number.as_bytes())?;
        }
        Audit::Illegal { entry, kind } => put_illegal(alloc, &mut text, entry, kind)?,
    }
    text.push(b'\n')?;
    Ok(text)
}

/// The status of what is said.
fn status_of(audit: Audit) -> Status
    ensures { result ≡ status_said audit }
{
    match audit {
        Audit::Legal => Status::Done,
        Audit::Illegal { entry, kind } => Status::Illegal { entry, kind },
    }
}

/// Reads a script, the line `journal` and a journal as JSON lines, and writes whether the journal is legal for the
/// script from the script's rows, or its first entry that isn't, and the point that it breaks. Nothing is run.
#[derive(Clone, Copy)]
pub struct Judge;

impl Task for Judge {
    type Input = WithJournal;

    type Run = Judged;

    ghost command = { λ _. auditing };

    ghost is_sound = { λ input. (is_valid input.script ≡ true)
        × (length input.journal.list ≤ max_journal) };

    fn limit(&self) -> usize {
        JOURNAL_BYTES
    }

    fn read(&self, alloc: Global, text: &[u8]) -> Result<WithJournal, ScriptError> {
        read_with_journal(alloc, text)
    }

    fn tell<W: Sink>(&self, alloc: Global, judged: &Judged, out: &mut W) -> Status {
        let Ok(text) = verdict(alloc, *judged) else {
            return Status::NoMemory;
        };
        match tell_text(&text, out) {
            Status::Done => status_of(judged.audit),
            status => status,
        }
    }
}
