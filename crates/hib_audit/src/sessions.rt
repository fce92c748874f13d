// The sessions of an audit, and what each has written, as they follow the entries.
ghost use Rattle.std.specs.Prelude.{◌≡◌, ◌∷◌, ◌<◌, [], length, IfOk, OnOk, Some, false};
ghost use Rattle.hib_base.specs.declared.scripts.Script.{Script as Said};
ghost use Rattle.hib_journal.specs.Sessions.{Journal, own, was_killed};
ghost use Rattle.hib_journal.specs.Legal.{is_outside};
ghost use Rattle.hib_session.specs.Session.{IsTaken};
ghost use Rattle.hib_session.specs.Sessions.{AreSessions};
ghost use Rattle.hib_audit.specs.Standing.{AreWritten};

use crate::written::Written;
use hib_base::{Entry, Script, SessionNo};
use hib_session::Session;
use std::alloc::{AllocError, Global};

/// For each session of a script what it has written: nothing yet.
pub fn open_written(alloc: Global, script: &Script) -> Result<Vec<Written>, AllocError>
    ensures { IfOk result (λ v. AreWritten script.now [] v.items) }
{
    let mut written = Vec::new(alloc);
    for _at in 0..script.sessions.len() {
        written.push(Written::new(alloc))?;
    }
    Ok(written)
}

/// Has the session of an entry take it. The entry must be its next one.
pub fn advance(
    alloc: Global,
    script: &Script,
    sessions: &mut Vec<Session>,
    number: SessionNo,
    entry: &Entry,
) -> Result<(), AllocError>
    requires there { number < length sessions.old.items }
    requires inside { is_outside entry.now.act ≡ false }
    requires by { entry.now.session ≡ Some number }
    ensures { OnOk result ((h : Journal) → AreSessions script.now h sessions.old.items
        → was_killed number h ≡ false → IsTaken script.now number (own number h) entry.now
        → AreSessions script.now (entry.now ∷ h) sessions.new.items) }
{
    sessions[number.0 as usize].advance(alloc, script, entry)
}

/// Notes what the session of an entry has written with it.
pub fn note_written(
    alloc: Global,
    written: &mut Vec<Written>,
    number: SessionNo,
    entry: &Entry,
) -> Result<(), AllocError>
    requires there { number < length written.old.items }
    requires by { entry.now.session ≡ Some number }
    ensures { OnOk result ((script : Said) (h : Journal) → AreWritten script h written.old.items
        → AreWritten script (entry.now ∷ h) written.new.items) }
{
    written[number.0 as usize].note(alloc, &entry.act)
}
