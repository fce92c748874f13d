// A session of a script. It says which act is due, answers what is its own, and is told each of its entries.
ghost use Rattle.std.specs.Prelude.{◌≡◌, ◌∷◌, ◌<◌, ◌≤◌, ◌||◌, if◌then◌else◌, [], true, false, None, IfOk, IsOk, IfSome, OnOk, OnErr, Some, is_some, option_and_then};
ghost use Rattle.std.specs.Option.{option_copied};
ghost use Rattle.hib_base.specs.declared.replies.Reply.{Reply};
ghost use Rattle.hib_base.specs.declared.scripts.Script.{Script};
ghost use Rattle.hib_journal.specs.Sessions.{Journal, time_in, floor_in, changes_in, is_begun};
ghost use Rattle.hib_journal.specs.Held.{held};
ghost use Rattle.hib_journal.specs.Legal.{unless_removed, set_unless};
ghost use Rattle.hib_journal.specs.Next.{next, is_in, strategy};
ghost use Rattle.hib_session.specs.Memory.{Knows, brings};
ghost use Rattle.hib_session.specs.Control.{Stands};
ghost use Rattle.hib_journal.specs.Due.{IsAllowed, is_closed};
ghost use Rattle.hib_session.specs.Session.{Follows, IsTaken, number_of, is_killed, left_in, own_reply, reply_due};

use crate::ahead::Ending;
use crate::control::Control;
use crate::memory::Memory;
use crate::written::Written;
use hib_base::{
    Act, Change, EntityNo, Entry, Held, Key, Reply, Row, Script, SessionNo, State, Strategy, Tick,
    strategy_of,
};
use std::alloc::{AllocError, Global};
use std::mem;

/// A session: how far it is in its statements, and what it remembers of its own entries.
#[derive(Drop)]
pub struct Session {
    control: Control,
    memory: Memory,
    // Copies of the change that is due to be written, for its entry.
    copies: Option<Written>,
    // The acts after the end of the transaction, if its end is due.
    ending: Option<Ending>,
    killed: bool,
}

/// The row of an instance, as the session sees it.
fn row_of(alloc: Global, held: &Held) -> Result<Option<Row>, AllocError>
    ensures { IfOk result (λ r. r ≡ unless_removed held.now.state held.now.row) }
{
    match held.state {
        State::New | State::Managed => {
            let row = held.row.copy(alloc)?;
            Ok(Some(row))
        }
        State::Removed => Ok(None),
    }
}

/// Whether the session sees the row of an instance.
fn is_shown(held: &Held) -> bool
    ensures { result ≡ is_some (unless_removed held.now.state held.now.row) }
{
    match held.state {
        State::New | State::Managed => true,
        State::Removed => false,
    }
}

/// The answer to a persist, by whether the session knows the key.
fn persist_reply(known: bool) -> Reply
    ensures { result ≡ (if known then Reply.Known else Reply.New) }
{
    if known { Reply::Known } else { Reply::New }
}

/// The answer to a set of cells of a row that the session sees.
fn set_reply(script: &Script, entity: EntityNo) -> Reply
    ensures { result ≡ set_unless (strategy script.now entity) }
{
    match strategy_of(script.mapping.as_slice(), entity) {
        Strategy::ReadOnly => Reply::ReadOnly,
        _ => Reply::Set,
    }
}

impl Session {
    /// The session of this number, which has done nothing. It takes no memory.
    pub fn open(alloc: Global, number: SessionNo) -> Session
        ensures number { number_of result ≡ number }
        ensures alive { is_killed result ≡ false }
        ensures follows { (script : Script) → Follows script result [] }
    {
        Session {
            control: Control::start(alloc, number),
            memory: Memory::new(alloc),
            copies: None,
            ending: None,
            killed: false,
        }
    }

    /// Which session it is.
    pub fn number(&self) -> SessionNo
        ensures { result ≡ number_of self.now }
    {
        self.control.number
    }

    /// Whether it was killed: then no act of it is due.
    pub fn was_killed(&self) -> bool
        ensures { result ≡ is_killed self.now }
    {
        self.killed
    }

    /// The tick of its last begin, or 0.
    pub fn time(&self) -> Tick
        ensures { (script : Script) (mine : Journal) → Follows script self.now mine
            → result ≡ time_in mine }
    {
        self.memory.time
    }

    /// The floor that its last begin was answered, or 0.
    pub fn floor(&self) -> Tick
        ensures { (script : Script) (mine : Journal) → Follows script self.now mine
            → result ≡ floor_in mine }
    {
        self.memory.floor
    }

    /// The changes that it has written since its last begin, in order.
    pub fn changes(&self) -> &[Change]
        ensures { (script : Script) (mine : Journal) → Follows script self.now mine
            → result.now ≡ changes_in mine }
    {
        self.memory.changes.as_slice()
    }

    /// The row of a key that it has read or written last; none if it doesn't hold the key, or has made it new.
    pub fn base(&self, key: Key) -> Option<&Row>
        ensures { (script : Script) (mine : Journal) → Follows script self.now mine
            → option_copied result ≡ option_and_then (λ i. i.base) (held mine key) }
    {
        match self.memory.find(key) {
            Some(held) => held.base.as_ref(),
            None => None,
        }
    }

    /// Kills the session: no act of it is due from now on. It takes no memory.
    pub fn kill(&mut self)
        ensures number { number_of self.new ≡ number_of self.old }
        ensures killed { is_killed self.new ≡ true }
        ensures left { (script : Script) → left_in script self.new ≡ 0 }
    {
        self.killed = true;
    }

    /// Whether all is there that the next act and its entry need.
    fn is_ready(&self, script: &Script) -> bool
        ensures { result ≡ Rattle.hib_session.specs.Session.is_ready script.now self.now }
    {
        self.control.is_settled(script)
            && (!self.control.needs_room() || self.memory.has_room())
            && self.control.is_made(&self.copies, &self.ending)
    }

    /// Makes the session ready for its next act: what is to be done next is expanded, and the memory is taken that
    /// `advance` needs for the entry of the act that is due. From then on `advance` answers Ok for that entry, unless
    /// the act is Persist, Load, List, Get, Set or Remove. A session that is ready stays as it is, without memory. If
    /// memory runs out the session follows the same entries as before.
    pub fn ready(&mut self, alloc: Global, script: &Script) -> Result<(), AllocError>
        ensures number { number_of self.new ≡ number_of self.old }
        ensures killed { is_killed self.new ≡ is_killed self.old }
        ensures follows { (mine : Journal) → Follows script.now self.old mine
            → Follows script.now self.new mine }
        ensures ready { OnOk result (Rattle.hib_session.specs.Session.is_ready script.now self.new
            ≡ true) }
        ensures still { Rattle.hib_session.specs.Session.is_ready script.now self.old ≡ true
            → (IsOk result) × (self.new ≡ self.old) }
        ensures left { left_in script.now self.new ≤ left_in script.now self.old }
    {
        if self.is_ready(script) {
            return Ok(());
        }
        self.copies = None;
        self.ending = None;
        self.control.settle(alloc, script, &self.memory)?;
        self.memory.reserve(self.control.needs_room())?;
        self.copies = self.control.copies(alloc)?;
        self.ending = self.control.ending(alloc, script, &self.memory)?;
        Ok(())
    }

    /// The act that is due. The session must not have been killed.
    fn due(&self, alloc: Global, script: &Script) -> Result<Option<Act>, AllocError>
        ensures { IfOk result (λ a. (mine : Journal) → Knows self.now.memory mine
            → Stands script.now self.now.control mine
            → a ≡ next script.now (number_of self.now) mine) }
    {
        if self.control.is_settled(script) {
            let act = self.control.next_act(alloc, script, &self.memory)?;
            return Ok(act);
        }
        let mut open = self.control.reopened(alloc);
        open.settle(alloc, script, &self.memory)?;
        let act = open.next_act(alloc, script, &self.memory)?;
        Ok(act)
    }

    /// The act that is due, or none if the session is at its end or was killed. Fails for want of memory alone.
    pub fn next_act(&self, alloc: Global, script: &Script) -> Result<Option<Act>, AllocError>
        ensures act { IfOk result (λ a. (mine : Journal) → Follows script.now self.now mine
            → a ≡ next script.now (number_of self.now) mine) }
        ensures killed { IfOk result (λ a. is_killed self.now ≡ true → a ≡ None) }

        // What is known of the act, and that no transaction is open at the end of a session whose last statement ends
        // one.
        ensures allowed { IfOk result (λ a. (mine : Journal) → Follows script.now self.now mine
            → IfSome a (IsAllowed script.now (number_of self.now) mine)) }
        ensures ended { IfOk result (λ a. (mine : Journal) → Follows script.now self.now mine
            → a ≡ None → is_closed script.now (number_of self.now) ≡ true
            → is_begun mine ≡ false) }
    {
        if self.killed {
            return Ok(None);
        }
        let act = self.due(alloc, script)?;
        Ok(act)
    }

    /// The answer to a find: the row of the instance that is held.
    fn found(&self, alloc: Global, key: Key) -> Result<Reply, AllocError>
        ensures { IfOk result (λ r. (mine : Journal) → Knows self.now.memory mine
            → r ≡ Reply.Row (Rattle.hib_journal.specs.Legal.row_of (held mine key))) }
    {
        match self.memory.find(key) {
            Some(held) => {
                let row = row_of(alloc, held)?;
                Ok(Reply::Row(row))
            }
            None => Ok(Reply::Row(None)),
        }
    }

    /// The answer to a persist.
    fn persisted(&self, key: Key) -> Reply
        ensures { (mine : Journal) → Knows self.now.memory mine
            → result ≡ (if is_some (held mine key) || is_in key (changes_in mine) then Reply.Known
            else Reply.New) }
    {
        persist_reply(self.memory.knows(key))
    }

    /// Whether the session sees a row of a key.
    fn shows(&self, key: Key) -> bool
        ensures { (mine : Journal) → Knows self.now.memory mine
            → result ≡ is_some (Rattle.hib_journal.specs.Legal.row_of (held mine key)) }
    {
        match self.memory.find(key) {
            Some(held) => is_shown(held),
            None => false,
        }
    }

    /// The answer to a set.
    fn set(&self, script: &Script, key: Key) -> Reply
        ensures { (mine : Journal) → Knows self.now.memory mine
            → result ≡ (if is_some (Rattle.hib_journal.specs.Legal.row_of (held mine key))
            then set_unless (strategy script.now key.entity) else Reply.Unknown) }
    {
        let entity = key.entity;
        if self.shows(key) {
            set_reply(script, entity)
        } else {
            Reply::Unknown
        }
    }

    /// The answer to a remove.
    fn removed(&self, key: Key) -> Reply
        ensures { (mine : Journal) → Knows self.now.memory mine
            → result ≡ (if is_some (Rattle.hib_journal.specs.Legal.row_of (held mine key))
            then Reply.Removed else Reply.Unknown) }
    {
        if self.shows(key) {
            Reply::Removed
        } else {
            Reply::Unknown
        }
    }

    /// The session's own answer to an act of its own and to End; none to another act. Fails for want of memory alone.
    pub fn reply_to(
        &self,
        alloc: Global,
        script: &Script,
        act: &Act,
    ) -> Result<Option<Reply>, AllocError>
        ensures { IfOk result (λ r. (mine : Journal) → Follows script.now self.now mine
            → r ≡ own_reply script.now mine act.now) }
    {
        match act {
            Act::End => Ok(Some(Reply::Ended {
                outcome: self.memory.outcome,
            })),
            Act::Find { key } => {
                let reply = self.found(alloc, *key)?;
                Ok(Some(reply))
            }
            Act::Persist { key, .. } => Ok(Some(self.persisted(*key))),
            Act::Set { key, .. } => Ok(Some(self.set(script, *key))),
            Act::Remove { key } => Ok(Some(self.removed(*key))),
            Act::Clear => Ok(Some(Reply::Cleared)),
            _ => Ok(None),
        }
    }

    /// The answer to the act that is due, if that is an act of the session's own or End. None if it is another, or if
    /// no act is due. Fails for want of memory alone.
    pub fn reply(&self, alloc: Global, script: &Script) -> Result<Option<Reply>, AllocError>
        ensures reply { IfOk result (λ r. (mine : Journal) → Follows script.now self.now mine
            → r ≡ reply_due script.now mine (next script.now (number_of self.now) mine)) }
        ensures killed { IfOk result (λ r. is_killed self.now ≡ true → r ≡ None) }
    {
        match self.next_act(alloc, script)? {
            Some(act) => self.reply_to(alloc, script, &act),
            None => Ok(None),
        }
    }

    /// Takes the entry of the act that was due. It makes the session ready first. If the session was ready, it answers
    /// Ok, unless the act is Persist, Load, List, Get, Set or Remove. If memory runs out the session follows the same
    /// entries as before.
    pub fn advance(
        &mut self,
        alloc: Global,
        script: &Script,
        entry: &Entry,
    ) -> Result<(), AllocError>
        ensures number { number_of self.new ≡ number_of self.old }
        ensures killed { is_killed self.new ≡ is_killed self.old }
        ensures follows { OnOk result ((mine : Journal) → Follows script.now self.old mine
            → IsTaken script.now (number_of self.old) mine entry.now
            → Follows script.now self.new (entry.now ∷ mine)) }
        ensures less { OnOk result ((mine : Journal) → Follows script.now self.old mine
            → IsTaken script.now (number_of self.old) mine entry.now
            → left_in script.now self.new < left_in script.now self.old) }
        ensures err { OnErr result ((mine : Journal) → Follows script.now self.old mine
            → Follows script.now self.new mine) }
        ensures room { (mine : Journal) → Follows script.now self.old mine
            → IsTaken script.now (number_of self.old) mine entry.now
            → Rattle.hib_session.specs.Session.is_ready script.now self.old ≡ true
            → brings entry.now.act ≡ false → IsOk result }
    {
        self.ready(alloc, script)?;
        let copies = mem::replace(&mut self.copies, None);
        let ending = mem::replace(&mut self.ending, None);
        let (queue, stage) = self
            .control
            .prepared(alloc, script, &self.memory, entry, ending)?;
        self.memory.note(alloc, entry, copies)?;
        self.control.step(queue, stage);
        Ok(())
    }
}
