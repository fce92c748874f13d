// What is kept of the entries so far, and whether one entry more is legal over them. To take an entry is to follow it:
// its session, the engines and the last ticks are brought to where it leaves them.
ghost use Rattle.std.specs.Prelude.{◌≡◌, ◌↔◌, ◌≤◌, ◌<◌, ◌^◌, [], IsTrue, length, true, IfOk, Some, None};
ghost use Rattle.hib_base.specs.Valid.{is_valid};
ghost use Rattle.hib_base.specs.declared.entries.Act.{Act};
ghost use Rattle.hib_base.specs.declared.replies.Reply.{Reply};
ghost use Rattle.hib_base.specs.declared.scripts.Script.{Script as Said};
ghost use Rattle.hib_engines.specs.Served.{AreWithin};
ghost use Rattle.hib_audit.specs.Breaks.{start_rows};
ghost use Rattle.hib_audit.specs.Standing.{Comes, IsKept, Judges, Knows, Passes, Takes};

use crate::keeper::Unfailing;
use crate::points::{AuditKind, difference, due_act};
use crate::same::is_same_reply;
use crate::sessions::{advance, note_written, open_written};
use crate::ticks::is_after;
use crate::written::Written;
use hib_base::{Act, Entry, Key, Reply, Script, SessionNo};
use hib_clock::Ticks;
use hib_engines::Engines;
use hib_session::{Session, kill_all, kill_at, open_all};
use std::alloc::{AllocError, Global};
use std::marker::Model;

/// What is kept of the entries so far, all of which are legal.
pub struct Auditor {
    engines: Engines<Unfailing>,
    sessions: Vec<Session>,
    written: Vec<Written>,
    ticks: Ticks,
}

impl Model for Auditor {
    ghost use Rattle.hib_audit.specs.Standing.{AuditorState};

    ghost Value = { AuditorState };

    ghost view = { λ a. record {
      engines = a.engines;
      sessions = a.sessions.items;
      written = a.written.items;
      ticks = a.ticks;
    } };
}

/// Whether the reply of an entry of a session is one that may be: the one that is given, or a fault that may come. Its
/// act must be due. If it is, the engines stand for the journal with the entry.
fn answers(
    alloc: Global,
    script: &Script,
    engines: &mut Engines<Unfailing>,
    session: &Session,
    written: &Written,
    entry: &Entry,
) -> Result<bool, AllocError>
    requires late { entry.now.tick ≤ 2 ^ 62 }
    requires tables { AreWithin (length engines.old.stamps) entry.now.act }
    requires entities { length engines.old.stamps ≡ length script.now.mapping }
    requires mapping { length script.now.mapping < 2 ^ 16 }
    ensures { IfOk result (λ b. Judges b script.now entry.now session.now written.now engines.old
        engines.new) }
{
    if written.may_fail(&entry.act, &entry.reply) {
        engines.fail(session.number(), &entry.act);
        return Ok(true);
    }
    let reply = engines.answer(alloc, script, session, &entry.act, entry.tick)?;
    Ok(is_same_reply(&reply, &entry.reply))
}

impl Auditor {
    /// The auditor to which no entry came yet.
    pub fn open(alloc: Global, script: &Script) -> Result<Auditor, AllocError>
        requires { is_valid script.now ≡ true }
        ensures { IfOk result (λ a. Knows script.now (start_rows script.now) [] a) }
    {
        let sessions = open_all(alloc, script)?;
        let written = open_written(alloc, script)?;
        let ticks = Ticks::new(alloc);
        let Ok(engines) = Engines::open(alloc, script, Unfailing::new(alloc)) else {
            // The keeper never fails, so that memory ran out.
            return Err(AllocError);
        };
        Ok(Auditor {
            engines,
            sessions,
            written,
            ticks,
        })
    }

    /// Lets all go. The keeper of the engines has never failed.
    pub fn close(self)
        ensures { self.engines.store.faults ≡ 0 }
    {
        let Auditor {
            engines,
            sessions: _,
            written: _,
            ticks: _,
        } = self;
        let _keeper = engines.close();
    }

    /// Takes the entry of a session, if its reply may be. Its act must be due. Answers whether it was taken.
    fn take_session(
        &mut self,
        alloc: Global,
        script: &Script,
        number: SessionNo,
        entry: &Entry,
    ) -> Result<bool, AllocError>
        requires coming { Comes script.now entry.now self.old }
        requires by { entry.now.session ≡ Some number }
        ensures { IfOk result (λ b. Takes b script.now entry.now self.old self.new) }
    {
        let at = number.0 as usize;
        let session = &self.sessions[at];
        let written = &self.written[at];
        if !answers(alloc, script, &mut self.engines, session, written, entry)? {
            return Ok(false);
        }
        advance(alloc, script, &mut self.sessions, number, entry)?;
        note_written(alloc, &mut self.written, number, entry)?;
        self.ticks.note(entry)?;
        Ok(true)
    }

    /// Takes the entry of a kill, if its reply may be. The kill must be one that may come. Answers whether it was
    /// taken.
    fn take_kill(&mut self, session: SessionNo, entry: &Entry) -> Result<bool, AllocError>
        requires by { entry.now.session ≡ None }
        requires act { entry.now.act ≡ Act.Kill session }
        ensures { IfOk result (λ b. (script : Said) → Takes b script entry.now self.old self.new) }
    {
        if !is_done(&entry.reply) {
            return Ok(false);
        }
        self.engines.kill(session);
        kill_at(&mut self.sessions, session.0 as usize);
        self.ticks.note(entry)?;
        Ok(true)
    }

    /// Takes the entry of a restart, if its reply may be. Answers whether it was taken.
    fn take_restart(&mut self, entry: &Entry) -> Result<bool, AllocError>
        requires by { entry.now.session ≡ None }
        requires act { entry.now.act ≡ Act.Restart }
        ensures { IfOk result (λ b. (script : Said) → Takes b script entry.now self.old self.new) }
    {
        if !is_done(&entry.reply) {
            return Ok(false);
        }
        kill_all(&mut self.sessions, self.engines.registry().open_sessions());
        self.engines.restart();
        self.ticks.note(entry)?;
        Ok(true)
    }

    /// Takes the entry of an eviction, if its reply may be. The eviction must be one that may come. Answers whether it
    /// was taken.
    fn take_evict(&mut self, alloc: Global, key: Key, entry: &Entry) -> Result<bool, AllocError>
        requires late { entry.now.tick ≤ 2 ^ 62 }
        requires by { entry.now.session ≡ None }
        requires act { entry.now.act ≡ Act.Evict key }
        ensures { IfOk result (λ b. (script : Said) → Takes b script entry.now self.old self.new) }
    {
        let reply = self.engines.evict(alloc, key, entry.tick)?;
        if !is_same_reply(&reply, &entry.reply) {
            return Ok(false);
        }
        self.ticks.note(entry)?;
        Ok(true)
    }

    /// Takes an entry, if its reply may be. Its act must be due. Answers whether it was taken.
    fn take(&mut self, alloc: Global, script: &Script, entry: &Entry) -> Result<bool, AllocError>
        requires { Comes script.now entry.now self.old }
        ensures { IfOk result (λ b. Takes b script.now entry.now self.old self.new) }
    {
        if let Some(number) = entry.session {
            return self.take_session(alloc, script, number, entry);
        }
        match &entry.act {
            Act::Kill { session } => self.take_kill(*session, entry),
            Act::Restart => self.take_restart(entry),
            Act::Evict { key } => self.take_evict(alloc, *key, entry),
            // No other act comes from outside.
            _ => unreachable!(),
        }
    }

    /// Takes an entry, if it is legal over those before it; else the first point that it breaks.
    pub fn pass(
        &mut self,
        alloc: Global,
        script: &Script,
        entry: &Entry,
    ) -> Result<Option<AuditKind>, AllocError>
        requires { IsKept script.now self.old }
        ensures { IfOk result (λ o. Passes o script.now entry.now self.old self.new) }
    {
        if !is_after(&self.ticks, entry) {
            return Ok(Some(AuditKind::Tick));
        }
        let Some(due) = due_act(alloc, script, self.sessions.as_slice(), entry)? else {
            return Ok(Some(AuditKind::Session));
        };
        let difference = difference(script, self.engines.registry(), &due, entry);
        if difference.is_some() {
            return Ok(difference);
        }
        if self.take(alloc, script, entry)? {
            return Ok(None);
        }
        Ok(Some(AuditKind::Reply))
    }
}

/// Whether a reply is the one that a kill and a restart have.
fn is_done(reply: &Reply) -> bool
    ensures { IsTrue result ↔ (reply.now ≡ Reply.Done) }
{
    matches!(reply, Reply::Done)
}
