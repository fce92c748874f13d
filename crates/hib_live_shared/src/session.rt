// A session of a shared live factory.
ghost use Rattle.hib_live_shared.specs.Answers.{IsSaid, IsFound, IsListed, IsEnded, IsDone, is_new, is_set, is_removed, row_told, list_told};
ghost use Rattle.std.specs.Prelude.{◌≡◌, true, Some, IfOk, IfSome};

use crate::answering::{
    Unanswered, answers, is_new, is_removed, is_set, list_told, outcome_in, row_told,
};
use crate::shared::{Hold, Shared};
use hib_base::{
    Cells, Commit, Entry, Key, Listing, Mode, QueryNo, Row, SessionNo, Sets, Statement,
};
use hib_live::{Live, Name, Refusal, Stepped};
use hib_outside::{Keeper, Listener};
use std::alloc::Global;
use std::sync::Wait;

/// A session, which one thread at a time speaks through. A statement is made step by step, under the factory's lock. If
/// memory runs out between two steps the statement stands: `go_on` makes the rest, and until then each other call is
/// refused as `Busy`. A session must be closed on every path: the checker refuses to let one go.
pub struct Session<'a, R: Wait, K: Keeper, N: Name, L: Listener> {
    rt: &'a R,
    shared: &'a Shared<K, N, L>,
    alloc: Global,
    number: SessionNo,
}

/// What steps came to.
struct Progress {
    /// Whether the statement is over.
    over: bool,
    /// The newest entry among them that answers it, if one does.
    answer: Option<Entry>,
}

/// One step of a session.
fn make_step<K: Keeper, N: Name, L: Listener>(
    alloc: Global,
    live: &mut Live<K, N, L>,
    number: SessionNo,
) -> Result<Progress, Refusal>
    ensures { IfOk result (λ p. IfSome p.answer (IsSaid N.script N.from number)) }
{
    if live.step(alloc, number)? == Stepped::Done {
        if live.was_killed(number) {
            return Err(Refusal::Killed);
        }
        return Ok(Progress {
            over: true,
            answer: None,
        });
    }
    live.lawful();
    match live.journal().last() {
        Some(entry) if answers(&entry.reply) => match entry.copy(alloc) {
            Ok(entry) => Ok(Progress {
                over: false,
                answer: Some(entry),
            }),
            Err(_) => Err(Refusal::NoMemory),
        },
        _ => Ok(Progress {
            over: false,
            answer: None,
        }),
    }
}

/// All steps that a session's statement has left.
fn make_steps<R: Wait, K: Keeper, N: Name, L: Listener>(
    rt: &R,
    alloc: Global,
    live: &mut Live<K, N, L>,
    number: SessionNo,
) -> Result<Progress, Refusal>
    ensures { IfOk result (λ p. IfSome p.answer (IsSaid N.script N.from number)) }
{
    let mut answer = None;
    for _ in rt.forever() {
        let Progress {
            over,
            answer: newer,
        } = make_step(alloc, live, number)?;
        if newer.is_some() {
            answer = newer;
        }
        if over {
            break;
        }
    }
    Ok(Progress { over: true, answer })
}

/// The row that an entry gives of a key, as the answer of a find.
fn row_of(alloc: Global, key: &Key, entry: &Entry) -> Result<Option<Row>, Unanswered>
    ensures { IfOk result (λ o. row_told key.now entry.now ≡ Some o) }
{
    match row_told(alloc, *key, entry) {
        Ok(Some(row)) => Ok(row),
        Ok(None) => Err(Unanswered::Fault),
        Err(_) => Err(Unanswered::Refused(Refusal::NoMemory)),
    }
}

/// What an entry says that a query gives, as the answer of a list.
fn list_of(query: QueryNo, entry: &Entry) -> Result<Listing, Unanswered>
    ensures { IfOk result (λ l. list_told query entry.now ≡ Some l) }
{
    match list_told(query, entry) {
        Ok(Some(list)) => Ok(list),
        Ok(None) => Err(Unanswered::Fault),
        Err(_) => Err(Unanswered::Refused(Refusal::NoMemory)),
    }
}

impl<'a, R: Wait, K: Keeper, N: Name, L: Listener> Session<'a, R, K, N, L> {
    /// The handle of a session that has begun.
    pub(crate) fn new(
        rt: &'a R,
        shared: &'a Shared<K, N, L>,
        alloc: Global,
        number: SessionNo,
    ) -> Self {
        Session {
            rt,
            shared,
            alloc,
            number,
        }
    }

    /// Its number.
    pub fn number(&self) -> SessionNo {
        self.number
    }

    /// Makes a statement, and gives the entry that answers it, if one does: none answers a flush and a change of mode.
    pub fn say(&mut self, statement: Statement) -> Result<Option<Entry>, Refusal>
        ensures said { IfOk result (λ o. IfSome o (IsSaid N.script N.from self.old.number)) }
        ensures same { self.new.number ≡ self.old.number }
    {
        self.shared
            .lock(self.rt)
            .ask(self.alloc, self.number, statement)?;
        self.go_on()
    }

    /// Makes the steps that the session's statement has left, and gives the entry among them that answers it, if one does.
    pub fn go_on(&mut self) -> Result<Option<Entry>, Refusal>
        ensures said { IfOk result (λ o. IfSome o (IsSaid N.script N.from self.old.number)) }
        ensures same { self.new.number ≡ self.old.number }
    {
        let mut answer = None;
        for _ in self.rt.forever() {
            let Progress {
                over,
                answer: newer,
            } = self.make_some()?;
            if newer.is_some() {
                answer = newer;
            }
            if over {
                break;
            }
        }
        Ok(answer)
    }

    /// The steps of one hold of the lock.
    fn make_some(&self) -> Result<Progress, Refusal>
        ensures { IfOk result (λ p. IfSome p.answer (IsSaid N.script N.from self.now.number)) }
    {
        let mut live = self.shared.lock(self.rt);
        match self.shared.hold() {
            Hold::Step => make_step(self.alloc, &mut *live, self.number),
            Hold::Statement => make_steps(self.rt, self.alloc, &mut *live, self.number),
        }
    }

    /// A row, as this session sees it: its own change, or else what is cached or stored.
    pub fn find(&mut self, key: Key) -> Result<Option<Row>, Unanswered>
        ensures found { IfOk result (IsFound N.script N.from self.old.number key) }
        ensures same { self.new.number ≡ self.old.number }
    {
        match self.say(Statement::Find { key })? {
            Some(entry) => row_of(self.alloc, &key, &entry),
            None => Err(Unanswered::Fault),
        }
    }

    /// What a query gives.
    pub fn list(&mut self, query: QueryNo) -> Result<Listing, Unanswered>
        ensures listed { IfOk result (IsListed N.script N.from self.old.number query) }
        ensures same { self.new.number ≡ self.old.number }
    {
        match self.say(Statement::List { query })? {
            Some(entry) => list_of(query, &entry),
            None => Err(Unanswered::Fault),
        }
    }

    /// Makes a row that is stored at the next flush. `false` if nothing has changed, since the session holds the key, or
    /// has written it.
    pub fn persist(&mut self, key: Key, cells: Cells) -> Result<bool, Unanswered>
        ensures done { IfOk result (λ is. is ≡ true
            → IsDone N.script N.from self.old.number is_new) }
        ensures same { self.new.number ≡ self.old.number }
    {
        match self.say(Statement::Persist { key, cells })? {
            Some(entry) => Ok(is_new(&entry.reply)),
            None => Ok(false),
        }
    }

    /// Sets columns of a row that the session has found or made. `false` if nothing has changed: the session doesn't hold
    /// the row, has removed it, or its entity is never updated.
    pub fn set(&mut self, key: Key, cells: Sets) -> Result<bool, Unanswered>
        ensures done { IfOk result (λ is. is ≡ true
            → IsDone N.script N.from self.old.number is_set) }
        ensures same { self.new.number ≡ self.old.number }
    {
        match self.say(Statement::Set { key, cells })? {
            Some(entry) => Ok(is_set(&entry.reply)),
            None => Ok(false),
        }
    }

    /// Marks a row that the session has found for removal. `false` if nothing has changed, since the session doesn't hold
    /// it, or has removed it.
    pub fn remove(&mut self, key: Key) -> Result<bool, Unanswered>
        ensures done { IfOk result (λ is. is ≡ true
            → IsDone N.script N.from self.old.number is_removed) }
        ensures same { self.new.number ≡ self.old.number }
    {
        match self.say(Statement::Remove { key })? {
            Some(entry) => Ok(is_removed(&entry.reply)),
            None => Ok(false),
        }
    }

    /// Writes the session's changes to the store, which commits none of them.
    pub fn flush(&mut self) -> Result<(), Unanswered>
        ensures same { self.new.number ≡ self.old.number }
    {
        self.say(Statement::Flush)?;
        Ok(())
    }

    /// Forgets the rows that the session holds, and its changes that weren't written.
    pub fn clear(&mut self) -> Result<(), Unanswered>
        ensures same { self.new.number ≡ self.old.number }
    {
        self.say(Statement::Clear)?;
        Ok(())
    }

    /// Sets how the session uses the cache.
    pub fn mode(&mut self, mode: Mode) -> Result<(), Unanswered>
        ensures same { self.new.number ≡ self.old.number }
    {
        self.say(Statement::Mode { mode })?;
        Ok(())
    }

    /// Ends the transaction. `Committed` if its changes are in the store for everyone; else none is, and the answer says
    /// why: a stale one may be tried again from its finds on, after a `clear`.
    pub fn commit(&mut self) -> Result<Commit, Unanswered>
        ensures ended { IfOk result (IsEnded N.script N.from self.old.number) }
        ensures same { self.new.number ≡ self.old.number }
    {
        let Some(entry) = self.say(Statement::Commit)? else {
            return Err(Unanswered::Fault);
        };
        match outcome_in(&entry.reply) {
            Some(outcome) => Ok(outcome),
            None => Err(Unanswered::Fault),
        }
    }

    /// Ends the session. If it is open it is killed, as `Live::kill`: nothing of its transaction is committed, and its locks
    /// stay until their time is over. If memory runs out it stays as it is, and nobody speaks through it any more.
    pub fn close(self) -> Result<(), Refusal> {
        let Session {
            rt,
            shared,
            alloc,
            number,
        } = self;
        shared.kill(rt, alloc, number)
    }

    /// Ends the transaction, and takes back its changes.
    pub fn rollback(&mut self) -> Result<(), Unanswered>
        ensures same { self.new.number ≡ self.old.number }
    {
        self.say(Statement::Rollback)?;
        Ok(())
    }
}
