// A session with the list of its own entries, which a thread, or the caller alone, steps over the parts.
ghost use Rattle.std.specs.Prelude.{◌≡◌, ◌+◌, ◌<◌, ◌≤◌, ◌^◌, [], ◌∷◌, Some, true, false, IfOk, IfSome, IsSome, IsOk, OnOk, OnErr};
ghost use Rattle.std.specs.Option.{option_map};
ghost use Rattle.hib_base.specs.declared.entries.Part.{Part};
ghost use Rattle.hib_journal.specs.Kept.{past};
ghost use Rattle.hib_journal.specs.Legal;
ghost use Rattle.hib_journal.specs.Lists.{entry_at};
ghost use Rattle.hib_journal.specs.Next.{next};
ghost use Rattle.hib_session.specs.Memory.{brings};
ghost use Rattle.hib_session.specs.Session.{own_reply};
ghost use Rattle.hib_split_law.specs.Apart.{IsOwnLegal};
ghost use Rattle.hib_parts.specs.Listed.{AreBy, IsDueAct, IsDueEntry, IsDueOn, IsKept, IsOwnEntered, last_of};

use hib_base::{Act, Entry, Part, Reply, Script, SessionNo, Tick};
use hib_engines::Name;
use hib_journal::{Journal, part_of};
use hib_session::Session;
use std::alloc::{AllocError, Global};
use std::marker::{Model, PhantomData};

/// Adds an entry to a list, which must have room for it. It takes no memory.
pub fn add(list: &mut Journal, entry: Entry)
    requires { 0 < list.old.spare }
    ensures past { past list.new ≡ entry ∷ past list.old }
    ensures spare { list.new.spare + 1 ≡ list.old.spare }
{
    let _ = list.push(entry);
}

/// The entry of an act of a session, which was answered at this tick.
pub fn entry_of(session: SessionNo, act: Act, reply: Reply, now: Tick) -> Entry
    ensures { result ≡ entry_at now (Some session) act reply }
{
    let part = part_of(&act, session);
    Entry {
        tick: now,
        session: Some(session),
        part,
        act,
        reply,
    }
}

/// A session under way, with the list of its entries, which is legal by itself for the name's script.
#[derive(Drop)]
pub struct Worker<N: Name> {
    session: Session,
    last: Tick,
    list: Journal,
    of: PhantomData<N>,
}

impl<N: Name> Model for Worker<N> {
    ghost use Rattle.hib_journal.specs.Kept.{past};
    ghost use Rattle.hib_session.specs.Session.{Follows, number_of, is_ready, left_in};
    ghost use Rattle.hib_parts.specs.Listed.{IsOwnList, WorkerState};

    ghost Value = { WorkerState };

    ghost view = { λ w. record {
      number = number_of w.session;
      list = past w.list;
      ready = is_ready N.script w.session;
      spare = w.list.spare;
      left = left_in N.script w.session;
    } };

    ghost invariant = { λ w. IsOwnList N.script (number_of w.session) (past w.list) w.last
        × Follows N.script w.session (past w.list) };
}

impl<N: Name> Worker<N> {
    /// The session of this number, which has done nothing. It takes no memory.
    pub fn begin(alloc: Global, number: SessionNo) -> Worker<N>
        ensures number { result.number ≡ number }
        ensures list { result.list ≡ [] }
    {
        Worker {
            session: Session::open(alloc, number),
            last: Tick(0),
            list: Journal::open(alloc),
            of: PhantomData,
        }
    }

    /// Which session it is.
    pub fn number(&self) -> SessionNo
        ensures { result ≡ self.now.number }
    {
        self.session.number()
    }

    /// The tick of its last entry, or 0.
    pub fn last(&self) -> Tick
        ensures last { result ≡ last_of self.now.list }
        ensures bounded { result ≤ 2 ^ 62 }
    {
        self.last
    }

    /// Its entries.
    pub fn list(&self) -> &Journal
        ensures list { past result.now ≡ self.now.list }
        ensures legal { IsOwnLegal N.script self.now.number (past result.now) }
    {
        &self.list
    }

    /// Says to proofs that its entries are its own, and legal by themselves. It does nothing.
    pub(crate) fn legal(&self)
        ensures legal { IsOwnLegal N.script self.now.number self.now.list }
        ensures by { AreBy self.now.number self.now.list }
    {
        let _ = &self.list;
    }

    /// The act that is due, or none at the end of the session.
    pub fn next(&self, alloc: Global, script: &Script) -> Result<Option<Act>, AllocError>
        requires { script.now ≡ N.script }
        ensures act { IfOk result (λ a. a ≡ next N.script self.now.number self.now.list) }
        ensures due { IfOk result (λ a. IfSome a (IsDueAct N.script self.now)) }
    {
        let act = self.session.next_act(alloc, script)?;
        Ok(act)
    }

    /// The part that the due act is on. None if no act is due, which is so only at the end of the session.
    pub fn part(&self, alloc: Global, script: &Script) -> Result<Option<Part>, AllocError>
        requires { script.now ≡ N.script }
        ensures { IfOk result (λ p. p ≡ option_map (λ a. Legal.part_of a self.now.number)
            (next N.script self.now.number self.now.list)) }
    {
        match self.next(alloc, script)? {
            Some(act) => Ok(Some(part_of(&act, self.number()))),
            None => Ok(None),
        }
    }

    /// The act that is due. There must be one.
    pub fn due(&self, alloc: Global, script: &Script) -> Result<Act, AllocError>
        requires script { script.now ≡ N.script }
        requires due { IsSome (next N.script self.now.number self.now.list) }
        ensures { IfOk result (IsDueAct N.script self.now) }
    {
        match self.next(alloc, script)? {
            Some(act) => Ok(act),
            None => unreachable!(),
        }
    }

    /// The session's own reply to an act of its own and to End; none to another act.
    pub fn reply_to(
        &self,
        alloc: Global,
        script: &Script,
        act: &Act,
    ) -> Result<Option<Reply>, AllocError>
        requires { script.now ≡ N.script }
        ensures { IfOk result (λ r. r ≡ own_reply N.script self.now.list act.now) }
    {
        let reply = self.session.reply_to(alloc, script, act)?;
        Ok(reply)
    }

    /// Makes the session ready for its next act, with room for one more entry. After that `enter` takes memory only for
    /// an entry that brings something to the session. Its entries stay as they are.
    pub fn ready(&mut self, alloc: Global, script: &Script) -> Result<(), AllocError>
        requires { script.now ≡ N.script }
        ensures kept { IsKept self.old self.new }
        ensures left { self.new.left ≤ self.old.left }
        ensures ready { OnOk result (self.new.ready ≡ true) }
        ensures room { OnOk result (0 < self.new.spare) }
    {
        self.list.reserve()?;
        self.session.ready(alloc, script)?;
        Ok(())
    }

    /// Takes the entry of the act that is due. There must be room for it. It answers Ok if the session is ready, unless
    /// the act brings something to the session. At an error its entries are as before.
    pub fn enter(&mut self, alloc: Global, script: &Script, entry: Entry) -> Result<(), AllocError>
        requires script { script.now ≡ N.script }
        requires room { 0 < self.old.spare }
        requires due { IsDueEntry N.script self.old.number self.old.list entry }
        ensures number { self.new.number ≡ self.old.number }
        ensures list { OnOk result (self.new.list ≡ entry ∷ self.old.list) }
        ensures less { OnOk result (self.new.left < self.old.left) }
        ensures err { OnErr result (IsKept self.old self.new) }
        ensures brings { self.old.ready ≡ true → brings entry.act ≡ false → IsOk result }
    {
        self.session.advance(alloc, script, &entry)?;
        self.last = entry.tick;
        add(&mut self.list, entry);
        Ok(())
    }

    /// Makes ready, and takes the entry, which must be that of the act that is due. If memory runs out its entries are
    /// as before.
    pub fn take(&mut self, alloc: Global, script: &Script, entry: Entry) -> Result<(), AllocError>
        requires script { script.now ≡ N.script }
        requires due { IsDueEntry N.script self.old.number self.old.list entry }
        ensures number { self.new.number ≡ self.old.number }
        ensures list { OnOk result (self.new.list ≡ entry ∷ self.old.list) }
        ensures less { OnOk result (self.new.left < self.old.left) }
        ensures err { OnErr result (IsKept self.old self.new) }
    {
        self.ready(alloc, script)?;
        self.enter(alloc, script, entry)
    }

    /// The session's own reply to an act, which must be its own.
    fn own_answer(&self, alloc: Global, script: &Script, act: &Act) -> Result<Reply, AllocError>
        requires script { script.now ≡ N.script }
        requires own { Legal.part_of act.now self.now.number ≡ Part.Own self.now.number }
        ensures { IfOk result (λ r. own_reply N.script self.now.list act.now ≡ Some r) }
    {
        let own = self.reply_to(alloc, script, act)?;
        match own {
            Some(reply) => Ok(reply),
            None => unreachable!(),
        }
    }

    /// Does the act that is due, which must be the session's own. The session answers it at this tick, which must be
    /// after its last one. If memory runs out its entries are as before.
    pub fn own(&mut self, alloc: Global, script: &Script, now: Tick) -> Result<(), AllocError>
        requires script { script.now ≡ N.script }
        requires due { IsDueOn N.script (Part.Own self.old.number) self.old }
        requires later { last_of self.old.list < now }
        requires bounded { now ≤ 2 ^ 62 }
        ensures number { self.new.number ≡ self.old.number }
        ensures entered { OnOk result (IsOwnEntered now self.old self.new) }
        ensures kept { OnErr result (IsKept self.old self.new) }
    {
        let act = self.due(alloc, script)?;
        let reply = self.own_answer(alloc, script, &act)?;
        let number = self.number();
        self.take(alloc, script, entry_of(number, act, reply, now))?;
        Ok(())
    }

    /// Takes the worker apart: the number of the session, and its entries, which are legal by themselves.
    pub fn close(self) -> (SessionNo, Journal)
        ensures number { result.0 ≡ self.number }
        ensures list { past result.1 ≡ self.list }
        ensures legal { IsOwnLegal N.script result.0 (past result.1) }
        ensures by { AreBy result.0 (past result.1) }
    {
        let Worker {
            session,
            last: _,
            list,
            of: _,
        } = self;
        (session.number(), list)
    }
}
