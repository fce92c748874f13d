// The sessions with which a journal is followed: each takes the entries of its own as if it had made them, and then
// says what copies it has.
ghost use Rattle.std.specs.Prelude.{◌≡◌, ◌∷◌, ◌<◌, [], false, Some, IfOk, OnOk, length};
ghost use Rattle.hib_base.specs.Tables.{Tables};
ghost use Rattle.hib_journal.specs.Held.{held};
ghost use Rattle.hib_journal.specs.Legal.{IsLegal, is_outside, row_of};
ghost use Rattle.hib_journal.specs.Sessions.{Journal, own, was_killed};
ghost use Rattle.hib_session.specs.Session.{Follows, IsTaken};
ghost use Rattle.hib_states.specs.Seats.{AreSeats};

use hib_base::{Act, Entry, Key, Reply, Row, Script, SessionNo};
use hib_session::{Session, open_all};
use std::alloc::{AllocError, Global};

/// The sessions of a script, each with its number.
#[derive(Drop)]
pub struct Seats {
    /// By number.
    pub sessions: Vec<Session>,
}

/// The session of an entry takes it.
fn advance(
    alloc: Global,
    script: &Script,
    sessions: &mut Vec<Session>,
    number: SessionNo,
    entry: &Entry,
) -> Result<(), AllocError>
    requires there { number < length sessions.old.items }
    requires by { entry.now.session ≡ Some number }
    ensures { OnOk result ((h : Journal) → AreSeats script.now h sessions.old.items
        → was_killed number h ≡ false → is_outside entry.now.act ≡ false → IsTaken script.now number (own number h) entry.now
        → AreSeats script.now (entry.now ∷ h) sessions.new.items) }
{
    sessions[number.0 as usize].advance(alloc, script, entry)
}

impl Seats {
    /// Before any entry. A number of sessions that is too large is answered as want of memory.
    #[tactic(auto, using(crate::proofs::Seated::seats_first))]
    pub fn open(alloc: Global, script: &Script) -> Result<Seats, AllocError>
        ensures { IfOk result (λ seats. AreSeats script.now [] seats.sessions.items) }
    {
        if script.sessions.len() > u32::MAX as usize {
            return Err(AllocError);
        }
        let sessions = open_all(alloc, script)?;
        Ok(Seats { sessions })
    }

    /// Takes the next entry.
    pub fn note(&mut self, alloc: Global, script: &Script, entry: &Entry) -> Result<(), AllocError>
        ensures { OnOk result ((start : Tables) (h : Journal) → IsLegal script.now (Some start) (entry.now ∷ h)
            → AreSeats script.now h self.old.sessions.items → AreSeats script.now (entry.now ∷ h) self.new.sessions.items) }
    {
        let Some(number) = entry.session else {
            return Ok(());
        };
        if (number.0 as usize) < self.sessions.len() {
            return advance(alloc, script, &mut self.sessions, number, entry);
        }
        Ok(())
    }

    /// The row that a find would give a session of its own copy of a key.
    pub fn copy(
        &self,
        alloc: Global,
        script: &Script,
        number: SessionNo,
        key: Key,
    ) -> Result<Option<Row>, AllocError>
        ensures { IfOk result (λ row. (h : Journal) → AreSeats script.now h self.now.sessions.items
            → was_killed number h ≡ false → number < length script.now.sessions
            → row ≡ row_of (held (own number h) key)) }
    {
        match self.sessions.as_slice().get(number.0 as usize) {
            Some(session) => find(alloc, script, session, key),
            None => Ok(None),
        }
    }
}

/// What a session would find of its own copy of a key.
fn find(
    alloc: Global,
    script: &Script,
    session: &Session,
    key: Key,
) -> Result<Option<Row>, AllocError>
    ensures { IfOk result (λ row. (mine : Journal) → Follows script.now session.now mine
        → row ≡ row_of (held mine key)) }
{
    match session.reply_to(alloc, script, &Act::Find { key }) {
        Ok(Some(reply)) => Ok(reply.into_row()),
        Ok(None) => Ok(None),
        Err(error) => Err(error),
    }
}
