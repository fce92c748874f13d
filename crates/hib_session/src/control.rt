// The control of a session: which act is due, by its statements and by what its acts were answered. A mode says whether
// regions and results are read and filled (a statement of the script sets it).
ghost use Rattle.std.specs.Prelude.{◌≡◌, ◌∷◌, [], ◌+◌, ◌*◌, ◌<◌, ◌≤◌, length, slice_get, IfOk, IsOk, is_some, OnOk, OnErr, List, true, false, Some, drop, IsTrue, ◌↔◌};
ghost use Rattle.std.specs.Option.{option_map_or};
ghost use Rattle.hib_base.specs.declared.entries.Entry.{Entry};
ghost use Rattle.hib_base.specs.declared.entries.Act.{Act};
ghost use Rattle.hib_base.specs.declared.scripts.Script.{Script};
ghost use Rattle.hib_base.specs.declared.scripts.Mode.{Mode};
ghost use Rattle.hib_journal.specs.Sessions.{Journal};
ghost use Rattle.hib_journal.specs.Plan.{Plan, after};
ghost use Rattle.hib_journal.specs.Next.{list, mode_after, ends, next, completion};
ghost use Rattle.hib_session.specs.Memory.{Knows, Recalls, Fits, has_copies, takes_room as takes_room_of};
ghost use Rattle.hib_session.specs.Control.{staged, queued, untaken, decided, is_answering, is_due, is_resting, rank, begin_at, act_staged, Stands, weight};
ghost use Rattle.hib_session.specs.Ahead.{Ends, Copies, asks_rows, has_ending, needs_room as needs_room_in};

use crate::ahead::Ending;
use crate::memory::Memory;
use crate::queue::Queue;
use crate::stages::{answered, taken};
use crate::written::Written;
use hib_base::{
    Act, Acts, Commit, Entry, Key, Mode, QueryNo, Script, Seq, SessionNo, Statement, Tick,
};
use std::alloc::{AllocError, Global};

/// What is left of a block after the acts that are queued.
#[derive(Clone, Copy, Debug, PartialEq, Eq)]
pub enum Stage {
    /// Nothing: the next statement may be taken.
    Idle,
    /// The region is asked for a key, and after a miss the store.
    Getting(Key),
    /// The store is asked for a key, and its row may be put into the region.
    Loading(Key),
    /// A query is answered: from its results, or by the store. Which of them isn't decided yet.
    Answering(QueryNo),
    /// The results are asked for a query.
    Looking(QueryNo),
    /// A result of this time was found, and the stamps are asked whether it may be used.
    Checking(QueryNo, Tick),
    /// The store is asked for a list, which may be kept.
    Listing(QueryNo),
    /// The store is asked to commit; then comes what completes the transaction.
    Committing,
    /// The store is asked to drop the changes; then comes what completes the transaction.
    RollingBack,
}

/// How far a session is in its statements.
#[derive(Drop)]
pub struct Control {
    /// The session.
    pub number: SessionNo,
    /// How many of its statements were taken.
    pub place: usize,
    /// The cache mode that is on.
    pub mode: Mode,
    /// Whether a transaction is to begin before the next statement.
    pub begins: bool,
    /// Acts that are due one after another.
    pub queue: Queue,
    /// What is left of the statement's block after them.
    pub stage: Stage,
}

/// The mode after a statement.
fn mode_from(statement: &Statement, mode: Mode) -> Mode
    ensures { result ≡ mode_after statement.now mode }
{
    match statement {
        Statement::Mode { mode } => *mode,
        _ => mode,
    }
}

/// Whether a statement ends the transaction: then another one begins before the next statement.
fn is_end(statement: &Statement) -> bool
    ensures { result ≡ ends statement.now }
{
    match statement {
        Statement::Commit | Statement::Rollback => true,
        _ => false,
    }
}

/// The statements of a session.
fn statements_of(script: &Script, number: SessionNo) -> &[Statement]
    ensures { result.now ≡ option_map_or (λ d. d.statements)
        (slice_get script.now.sessions number) [] }
{
    match script.sessions.as_slice().get(number.0 as usize) {
        Some(def) => def.statements.as_slice(),
        None => &[],
    }
}

/// Whether no statement stands at a place.
fn is_over(list: &[Statement], place: usize) -> bool
    ensures { IsTrue result ↔ (drop place list.now ≡ []) }
{
    match list.get(place) {
        Some(_) => false,
        None => true,
    }
}

/// Decides how a query is answered, if that isn't decided yet; any other stage stays. The kept results are asked if the
/// session may use them: the query keeps results, the mode lets the session read, and it has written no change of a
/// table of the query. Else the store is asked.
fn answering(script: &Script, memory: &Memory, mode: Mode, stage: Stage) -> Stage
    ensures decided { (mine : Journal) → Recalls memory.now mine
        → result ≡ decided script.now mode mine stage }
    ensures less { is_answering stage ≡ true → rank result < rank stage }
{
    match stage {
        Stage::Answering(query) => {
            if memory.may_use_results(script, query, mode.reads()) {
                Stage::Looking(query)
            } else {
                Stage::Listing(query)
            }
        }
        _ => stage,
    }
}

/// Whether it isn't decided yet how a query is answered.
fn is_answering_stage(stage: Stage) -> bool
    ensures { result ≡ is_answering stage }
{
    match stage {
        Stage::Answering(_) => true,
        _ => false,
    }
}

/// Whether nothing is left of a block but the acts that are queued.
fn is_idle(stage: Stage) -> bool
    ensures { result ≡ is_resting stage }
{
    match stage {
        Stage::Idle => true,
        _ => false,
    }
}

/// The act of a stage.
fn act_of(memory: &Memory, stage: Stage) -> Option<Act>
    ensures { (mine : Journal) → Knows memory.now mine → result ≡ act_staged stage mine }
{
    match stage {
        Stage::Getting(key) => Some(Act::Get {
            key,
            time: memory.time,
        }),
        Stage::Loading(key) => Some(Act::Load { key }),
        Stage::Looking(query) => Some(Act::Look { query }),
        Stage::Checking(query, time) => Some(Act::Check { query, time }),
        Stage::Listing(query) => Some(Act::List { query }),
        Stage::Committing => Some(Act::Commit),
        Stage::RollingBack => Some(Act::Rollback),
        Stage::Idle | Stage::Answering(_) => None,
    }
}

/// Whether the copies that a write needs are there; another act needs none.
fn are_there(act: &Act, copies: &Option<Written>) -> bool
    ensures { result ≡ has_copies copies.now act.now }
{
    match act {
        Act::Write(_) => copies.is_some(),
        _ => true,
    }
}

/// Whether the entry of this act must find room in the session's memory.
pub fn takes_room(act: &Act) -> bool
    ensures { result ≡ takes_room_of act.now }
{
    matches!(act, Act::Write(_) | Act::Lock { .. })
}

/// Copies for the entry of a write, for the session's memory; none for another act.
fn copies_of(alloc: Global, act: &Act) -> Result<Option<Written>, AllocError>
    ensures fit { IfOk result (λ w. Fits w act.now) }
    ensures made { IfOk result (λ w. has_copies w act.now ≡ true) }
{
    match act {
        Act::Write(change) => {
            let written = Written::of(alloc, change)?;
            Ok(Some(written))
        }
        _ => Ok(None),
    }
}

impl Control {
    /// The control of a session that has done nothing.
    pub fn start(alloc: Global, number: SessionNo) -> Control
        ensures number { result.number ≡ number }
        ensures stands { (script : Script) → Stands script result [] }
        ensures settled { (script : Script)
            → Rattle.hib_session.specs.Control.is_settled script result ≡ true }
    {
        Control {
            number,
            place: 0,
            mode: Mode::Normal,
            begins: true,
            queue: Queue::new(alloc),
            stage: Stage::Idle,
        }
    }

    /// Whether all statements were taken.
    fn is_through(&self, script: &Script) -> bool
        ensures { IsTrue result ↔ (untaken script.now self.now ≡ []) }
    {
        is_over(statements_of(script, self.number), self.place)
    }

    /// The Begin of a transaction, if one is to begin.
    fn begin_due(&self, script: &Script) -> Option<Act>
        ensures { result ≡ begin_at self.now.begins (untaken script.now self.now) }
    {
        if !self.begins || self.is_through(script) {
            return None;
        }
        Some(Act::Begin)
    }

    /// Whether an act is due, or nothing is left.
    pub fn is_settled(&self, script: &Script) -> bool
        ensures { result ≡ Rattle.hib_session.specs.Control.is_settled script.now self.now }
    {
        if !self.queue.is_empty() {
            return true;
        }
        match self.stage {
            Stage::Idle => self.begins || self.is_through(script),
            Stage::Answering(_) => false,
            _ => true,
        }
    }

    /// Takes the next statement: its first acts are queued, and its stage is set. No act may be queued, and a
    /// transaction must have begun.
    fn take(&mut self, alloc: Global, script: &Script, memory: &Memory) -> Result<(), AllocError>
        requires empty { self.old.queue ≡ [] }
        requires idle { self.old.stage ≡ Stage.Idle }
        requires begun { self.old.begins ≡ false }
        requires there { self.old.place
            < length (option_map_or (λ d. d.statements)
            (slice_get script.now.sessions self.old.number) []) }
        ensures number { self.new.number ≡ self.old.number }
        ensures stands { (mine : Journal) → Knows memory.now mine → Stands script.now self.old mine
            → Stands script.now self.new mine }
        ensures weight { OnOk result (weight script.now self.new < weight script.now self.old) }
        ensures err { OnErr result (self.new ≡ self.old) }
    {
        let statement = &statements_of(script, self.number)[self.place];
        let (queue, stage) = taken(alloc, script, memory, self.mode, statement)?;
        let _few = queue.len();
        self.mode = mode_from(statement, self.mode);
        self.begins = is_end(statement);
        self.queue = Queue::of(queue);
        self.stage = stage;
        self.place += 1;
        Ok(())
    }

    /// One step towards an act that is due: the next statement is taken, or it is decided how a query is answered.
    fn go_on(&mut self, alloc: Global, script: &Script, memory: &Memory) -> Result<(), AllocError>
        requires { Rattle.hib_session.specs.Control.is_settled script.now self.old ≡ false }
        ensures number { self.new.number ≡ self.old.number }
        ensures stands { (mine : Journal) → Knows memory.now mine → Stands script.now self.old mine
            → Stands script.now self.new mine }
        ensures weight { OnOk result (weight script.now self.new < weight script.now self.old) }
        ensures err { OnErr result (self.new ≡ self.old) }
    {
        if is_answering_stage(self.stage) {
            self.stage = answering(script, memory, self.mode, self.stage);
            return Ok(());
        }
        self.take(alloc, script, memory)
    }

    /// Goes on until an act is due or nothing is left.
    pub fn settle(
        &mut self,
        alloc: Global,
        script: &Script,
        memory: &Memory,
    ) -> Result<(), AllocError>
        ensures number { self.new.number ≡ self.old.number }
        ensures stands { (mine : Journal) → Knows memory.now mine → Stands script.now self.old mine
            → Stands script.now self.new mine }
        ensures settled { OnOk result (Rattle.hib_session.specs.Control.is_settled script.now
            self.new ≡ true) }
        ensures weight { weight script.now self.new ≤ weight script.now self.old }
    {
        while !self.is_settled(script) {
            self.go_on(alloc, script, memory)?;
        }
        Ok(())
    }

    /// The act that is due, or none if nothing is left.
    pub fn next_act(
        &self,
        alloc: Global,
        script: &Script,
        memory: &Memory,
    ) -> Result<Option<Act>, AllocError>
        ensures { IfOk result (λ a. (mine : Journal) → Knows memory.now mine
            → Stands script.now self.now mine
            → Rattle.hib_session.specs.Control.is_settled script.now self.now ≡ true
            → a ≡ next script.now self.now.number mine) }
    {
        if !self.queue.is_empty() {
            let act = self.queue.first().copy(alloc)?;
            return Ok(Some(act));
        }
        if is_idle(self.stage) {
            return Ok(self.begin_due(script));
        }
        Ok(act_of(memory, self.stage))
    }

    /// An equal control. It must have no act queued. A statement is expanded in the new one to see what is due, and
    /// this one stays as it is. It takes no memory.
    pub fn reopened(&self, alloc: Global) -> Control
        requires { self.now.queue ≡ [] }
        ensures { result ≡ self.now }
    {
        Control {
            number: self.number,
            place: self.place,
            mode: self.mode,
            begins: self.begins,
            queue: Queue::new(alloc),
            stage: self.stage,
        }
    }

    /// Whether the entry of the next act must find room in the session's memory.
    pub fn needs_room(&self) -> bool
        ensures { result ≡ needs_room_in self.now.queue }
    {
        !self.queue.is_empty() && takes_room(self.queue.first())
    }

    /// Whether what the entry of the next act needs was made: copies for a write, and for an end of the transaction the
    /// acts that follow.
    pub fn is_made(&self, copies: &Option<Written>, ending: &Option<Ending>) -> bool
        ensures { result ≡ Rattle.hib_session.specs.Ahead.is_made self.now.queue self.now.stage
            copies.now ending.now }
    {
        if !self.queue.is_empty() {
            return are_there(self.queue.first(), copies);
        }
        match self.stage {
            Stage::Committing | Stage::RollingBack => ending.is_some(),
            _ => true,
        }
    }

    /// Copies for the entry of the write that is due, if one is.
    pub fn copies(&self, alloc: Global) -> Result<Option<Written>, AllocError>
        ensures copies { IfOk result (λ w. Copies self.now.queue w) }
        ensures made { IfOk result (λ w. (a : Act) (rest : List Act) → self.now.queue ≡ a ∷ rest
            → has_copies w a ≡ true) }
    {
        if self.queue.is_empty() {
            return Ok(None);
        }
        let copies = copies_of(alloc, self.queue.first())?;
        Ok(copies)
    }

    /// The acts that complete the transaction, whichever way it ends, if its end is due.
    pub fn ending(
        &self,
        alloc: Global,
        script: &Script,
        memory: &Memory,
    ) -> Result<Option<Ending>, AllocError>
        ensures acts { IfOk result (λ e. (mine : Journal) → Recalls memory.now mine
            → Ends script.now self.now.mode mine e) }
        ensures made { IfOk result (λ e. self.now.queue ≡ [] → has_ending self.now.stage e ≡ true) }
    {
        if !self.queue.is_empty() {
            return Ok(None);
        }
        match self.stage {
            Stage::Committing | Stage::RollingBack => {
                let acts = memory.completion(alloc, script, self.mode, true)?;
                Ok(Some(Ending { acts }))
            }
            _ => Ok(None),
        }
    }

    /// The acts and the stage that follow an entry of the act that is due, by what is remembered without that entry.
    /// For an end of the transaction `ending` may have the acts. It takes no memory but for rows and lists that were
    /// answered, and for an end without `ending`.
    pub fn prepared(
        &self,
        alloc: Global,
        script: &Script,
        memory: &Memory,
        entry: &Entry,
        ending: Option<Ending>,
    ) -> Result<(Acts, Stage), AllocError>
        ensures less { IfOk result (λ r. self.now.queue ≡ [] → is_due self.now.stage ≡ true
            → rank r.1 < rank self.now.stage) }
        ensures follows { IfOk result (λ r. (done : Journal) (go : Journal → Plan)
            → self.now.queue ≡ [] → is_due self.now.stage ≡ true
            → Recalls memory.now (entry.now ∷ done)
            → Ends script.now self.now.mode (entry.now ∷ done) ending
            → queued script.now self.now.mode r.0 r.1 (entry.now ∷ done) go
            ≡ after (staged script.now self.now.mode self.now.stage done go) entry.now) }
        ensures room { (self.now.queue ≡ [] → asks_rows self.now.stage ≡ false)
            → (self.now.queue ≡ [] → has_ending self.now.stage ending ≡ true) → IsOk result }
    {
        if !self.queue.is_empty() {
            return Ok((Seq::new(alloc), self.stage));
        }
        answered(alloc, script, memory, self.mode, self.stage, entry, ending)
    }

    /// Takes one more entry. If nothing was queued and a stage had its act, these acts and this stage follow. It takes
    /// no memory.
    pub fn step(&mut self, queue: Acts, stage: Stage)
        ensures number { self.new.number ≡ self.old.number }
        ensures stands { (script : Script) (entry : Entry) (done : Journal)
            → ((go : Journal → Plan) → self.old.queue ≡ [] → is_due self.old.stage ≡ true
            → queued script self.old.mode queue stage (entry ∷ done) go
            ≡ after (staged script self.old.mode self.old.stage done go) entry)
            → Stands script self.old done → Rattle.hib_session.specs.Control.is_settled script
            self.old ≡ true → Rattle.hib_session.specs.Control.is_over script self.old ≡ false
            → Stands script self.new (entry ∷ done) }
        ensures weight { (script : Script)
            → (self.old.queue ≡ [] → is_due self.old.stage ≡ true
            → rank stage < rank self.old.stage)
            → Rattle.hib_session.specs.Control.is_settled script self.old ≡ true
            → Rattle.hib_session.specs.Control.is_over script self.old ≡ false
            → weight script self.new < weight script self.old }
    {
        if !self.queue.is_empty() {
            self.queue.take_first();
            return;
        }
        if is_idle(self.stage) {
            self.begins = false;
            return;
        }
        let _few = queue.len();
        self.queue = Queue::of(queue);
        self.stage = stage;
    }
}
