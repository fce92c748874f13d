// The states of a journal that comes after its script, if it is legal (the word `states`).
ghost use Rattle.std.specs.Prelude.{◌≡◌, ◌≤◌, ◌<◌, ◌^◌, IfOk, length, true};
ghost use Rattle.hib_audit.specs.Breaks.{start_rows};
ghost use Rattle.hib_base.specs.Valid.{is_valid};
ghost use Rattle.hib_call.specs.Ends.{Comes};
ghost use Rattle.hib_call.specs.Limits.{max_journal};
ghost use Rattle.hib_call.specs.Outside.{shared_of};
ghost use Rattle.hib_journal.specs.Kept.{past};
ghost use Rattle.hib_toolbox.specs.Stating.{IsTold, stating};

use hib_audit::{Audit, AuditKind, audit};
use hib_base::Script;
use hib_call::{JOURNAL_BYTES, Lent, Outcome, Ran, Status, Task, tell_text};
use hib_input::{WithJournal, read_with_journal};
use hib_journal::Journal;
use hib_outside::{Keeper, Listener, Sink};
use hib_script::ScriptError;
use std::alloc::{AllocError, Global};

/// What is told of a journal.
#[derive(Drop)]
pub enum States {
    /// It is legal, and these are its states.
    Told(Vec<u8>),
    /// It isn't legal.
    Illegal {
        /// Its first entry that isn't legal, numbered from 1.
        entry: u32,
        /// The first point that the entry breaks.
        kind: AuditKind,
    },
}

/// The states of a journal, if it is legal for the script from the script's rows.
fn states_of(alloc: Global, script: &Script, journal: &Journal) -> Result<States, AllocError>
    requires valid { is_valid script.now ≡ true }
    requires few { length (past journal.now) < 2 ^ 32 }
    ensures { IfOk result (λ states. IsTold script.now (start_rows script.now) (past journal.now) states) }
{
    match audit(alloc, script, journal) {
        Ok(Audit::Legal) => match hib_states::tell(alloc, script, journal) {
            Ok(text) => Ok(States::Told(text)),
            Err(error) => Err(error),
        },
        Ok(Audit::Illegal { entry, kind }) => Ok(States::Illegal { entry, kind }),
        Err(error) => Err(error),
    }
}

/// Tells the states of a journal, and hands back what is lent as it is.
pub fn state_journal<K: Keeper, L: Listener>(
    alloc: Global,
    input: WithJournal,
    lent: Lent<K, L>,
) -> Ran<States, K, L>
    requires valid { is_valid input.script ≡ true }
    requires few { length input.journal.list ≤ max_journal }
    ensures { Comes stating input
        (shared_of K.Keeper L.Listener lent) (shared_of K.Keeper L.Listener result.lent) result.outcome }
{
    let outcome = match states_of(alloc, &input.script, &input.journal) {
        Ok(states) => Outcome::Over(states),
        Err(_) => Outcome::Stopped(Status::NoMemory, None),
    };
    Ran { outcome, lent }
}

/// Reads a script, the line `journal` and a journal as JSON lines, and writes the state after each entry and the cause
/// of each refusal, if the journal is legal for the script from the script's rows. Nothing is run.
#[derive(Clone, Copy)]
pub struct Stating;

impl Task for Stating {
    ghost use Rattle.std.specs.Prelude.{◌≡◌, ◌≤◌, length, true};
    ghost use Rattle.hib_base.specs.Valid.{is_valid};
    ghost use Rattle.hib_call.specs.Limits.{max_journal};
    ghost use Rattle.hib_toolbox.specs.Stating.{stating};

    type Input = WithJournal;

    type Run = States;

    ghost command = { λ _. stating };

    ghost is_sound = { λ input. (is_valid input.script ≡ true)
        × (length input.journal.list ≤ max_journal) };

    fn limit(&self) -> usize {
        JOURNAL_BYTES
    }

    fn read(&self, alloc: Global, text: &[u8]) -> Result<WithJournal, ScriptError> {
        read_with_journal(alloc, text)
    }

    fn tell<W: Sink>(&self, _alloc: Global, states: &States, out: &mut W) -> Status {
        match states {
            States::Told(text) => tell_text(text.as_slice(), out),
            States::Illegal { entry, kind } => Status::Illegal {
                entry: *entry,
                kind: *kind,
            },
        }
    }
}
