// The engine of the store: it makes replies of what hib_store answers.
ghost use Rattle.std.specs.Prelude.{◌≡◌, ◌≢◌, ◌≤◌, ◌∷◌, ℕ, [], Option, None, false, true, map, is_some, Ok, IfOk, IfErr, IfSome, OnOk, OnErr, if◌then◌else◌};
ghost use Rattle.std.specs.Option.{option_map};
ghost use Rattle.hib_base.specs.Start.{start};
ghost use Rattle.hib_base.specs.Tables.{Tables, in_order, commit_answer};
ghost use Rattle.hib_base.specs.declared.entries.Act.{Act};
ghost use Rattle.hib_base.specs.declared.replies.Reply.{Reply};
ghost use Rattle.hib_base.specs.declared.scripts.Script.{Script as Said};
ghost use Rattle.hib_journal.specs.Types.{Part, Commit};
ghost use Rattle.hib_journal.specs.Sessions.{Journal, is_empty};
ghost use Rattle.hib_journal.specs.Lists.{entry_at};
ghost use Rattle.hib_journal.specs.Runs.{is_fault, asks};
ghost use Rattle.hib_outside.specs.Causes.{Rose};
ghost use Rattle.hib_query_eval.specs.Met.{met};
ghost use Rattle.hib_store.specs.Stores.{changes_of, handed_back, is_store_fault, tables_committed, IsSnapshotOf, MeetsBelow};
ghost use Rattle.hib_engines.specs.Counts.{RoseWithin};
ghost use Rattle.hib_engines.specs.Served.{is_for, HasQuery, reads};
ghost use Rattle.hib_engines.specs.Store.{IsStored, IsStoreServed, IsCounted, IsLeft, changes_rows, reply_of_loaded, reply_of_listed};

use hib_base::{
    Act, Change, Commit, Cond, EntityNo, Key, Mapping, QueryNo, Reply, Row, Script, SessionNo,
};
use hib_outside::Keeper;
use hib_store::{Listed, Loaded, OpenFault, Snapshot, Store};
use std::alloc::{AllocError, Global};
use std::marker::Model;

/// What was loaded, as a reply.
fn loaded_reply(loaded: Loaded) -> Reply
    ensures { result ≡ reply_of_loaded loaded }
{
    match loaded {
        Loaded::Row(row) => Reply::Row(row),
        Loaded::Fault => Reply::Fault,
    }
}

/// What was listed, as a reply.
fn listed_reply(listed: Listed) -> Reply
    ensures { result ≡ reply_of_listed listed }
{
    match listed {
        Listed::List(cells) => Reply::Listed(cells),
        Listed::Fault => Reply::Fault,
    }
}

/// The store, and what acts on it are answered.
pub struct StoreEngine<K: Keeper> {
    store: Store<K>,
}

impl<K: Keeper> Model for StoreEngine<K> {
    ghost use Rattle.hib_store.specs.Stores.{StoreState};

    ghost Value = { StoreState };

    ghost view = { λ e. e.store };
}

impl<K: Keeper> StoreEngine<K> {
    /// The store over a keeper that is seeded by one call: the rows that it keeps are widened to the columns of this
    /// mapping, and each of these rows whose key has none is added. No session has written. At an error the keeper is
    /// handed back, with the rows that it had. Lists of the first `entities` entities are answered from an index.
    pub fn open(
        alloc: Global,
        keeper: K,
        mapping: &Mapping,
        rows: &[(Key, Row)],
        entities: u16,
    ) -> Result<StoreEngine<K>, OpenFault<K>>
        ensures tables { IfOk result (λ s. s.tables
            ≡ option_map (λ m. start mapping.now m rows.now) (K.tables keeper)) }
        ensures faults { IfOk result (λ s. K.faults keeper ≤ s.faults) }
        ensures asked { IfOk result (λ s. s.asked ≡ K.asked keeper) }
        ensures written { IfOk result (λ s. s.written ≡ []) }
        ensures entities { IfOk result (λ s. s.entities ≡ entities) }
        ensures ordered { IfOk result (λ s. IfSome s.tables (λ m. in_order m ≡ true)) }
        ensures back { IfErr result (λ e. K.tables (handed_back e) ≡ K.tables keeper) }
        ensures back_faults { IfErr result (λ e. K.faults keeper ≤ K.faults (handed_back e)) }
        ensures back_asked { IfErr result (λ e. K.asked (handed_back e) ≡ K.asked keeper) }
        ensures fault { IfErr result (λ e. is_store_fault e ≡ true
            → Rose (K.faults keeper) (K.faults (handed_back e))) }
    {
        let store = Store::open(alloc, keeper, mapping, rows, entities)?;
        Ok(StoreEngine { store })
    }

    /// The keeper, with what it tells and its counts. Changes that aren't committed are dropped.
    pub fn close(self) -> K
        ensures tables { K.tables result ≡ self.tables }
        ensures faults { K.faults result ≡ self.faults }
        ensures asked { K.asked result ≡ self.asked }
    {
        let StoreEngine { store } = self;
        store.close()
    }

    /// Loads a key as the session sees it.
    fn load(&mut self, alloc: Global, session: SessionNo, key: Key) -> Result<Reply, AllocError>
        ensures answered { IfOk result
            (λ r. (script : Said) (told : Option Tables) (l : Journal) (now : ℕ)
            → IsStored told l self.old → IsStoreServed script told l now session
            (Act.Load key) r self.new) }
        ensures asked { IfOk result (λ _. RoseWithin self.old.asked
            (if asks (changes_of self.old session) (Act.Load key) then 1 else 0) self.new.asked) }
        ensures fault { IfOk result (λ r. is_fault r ≡ true
            → Rose self.old.faults self.new.faults) }
        ensures faults { self.old.faults ≤ self.new.faults }
        ensures entities { self.new.entities ≡ self.old.entities }
        ensures still { IsCounted self.old self.new }
        ensures left { IsLeft (changes_of self.old session) (Act.Load key) self.old self.new }
    {
        let loaded = self.store.load(alloc, session, key)?;
        Ok(loaded_reply(loaded))
    }

    /// Lists what a query gives over the session's view.
    fn list(
        &mut self,
        alloc: Global,
        script: &Script,
        session: SessionNo,
        query: QueryNo,
    ) -> Result<Reply, AllocError>
        ensures answered { IfOk result (λ r. (told : Option Tables) (l : Journal) (now : ℕ)
            → IsStored told l self.old → HasQuery script.now (Act.List query)
            → IsStoreServed script.now told l now session (Act.List query) r self.new) }
        ensures asked { IfOk result (λ _. RoseWithin self.old.asked
            (if asks (changes_of self.old session) (Act.List query) then 1 else 0) self.new.asked) }
        ensures fault { IfOk result (λ r. is_fault r ≡ true
            → Rose self.old.faults self.new.faults) }
        ensures faults { self.old.faults ≤ self.new.faults }
        ensures entities { self.new.entities ≡ self.old.entities }
        ensures still { IsCounted self.old self.new }
        ensures left { IsLeft (changes_of self.old session) (Act.List query) self.old self.new }
    {
        let Some(query) = script.queries.as_slice().get(query.0 as usize) else {
            // No query is asked that isn't there.
            return Ok(Reply::Done);
        };
        let listed = self.store.list(alloc, session, query)?;
        Ok(listed_reply(listed))
    }

    /// Writes a change, which the session alone sees.
    fn write(
        &mut self,
        alloc: Global,
        session: SessionNo,
        change: &Change,
    ) -> Result<Reply, AllocError>
        ensures answered { IfOk result
            (λ r. (script : Said) (told : Option Tables) (l : Journal) (now : ℕ)
            → IsStored told l self.old → IsStoreServed script told l now session
            (Act.Write change.now) r self.new) }
        ensures tables { self.new.tables ≡ self.old.tables }
        ensures calm { IfOk result (λ r. is_fault r ≡ false) }
        ensures faults { self.new.faults ≡ self.old.faults }
        ensures asked { self.new.asked ≡ self.old.asked }
        ensures entities { self.new.entities ≡ self.old.entities }
        ensures err { OnErr result (self.new ≡ self.old) }
    {
        let change = change.copy(alloc)?;
        self.store.write(alloc, session, change)?;
        Ok(Reply::Written)
    }

    /// Applies a session's changes, all or none.
    fn commit(&mut self, alloc: Global, session: SessionNo) -> Result<Reply, AllocError>
        ensures answered { IfOk result
            (λ r. (script : Said) (told : Option Tables) (l : Journal) (now : ℕ)
            → IsStored told l self.old → IsStoreServed script told l now session Act.Commit r
            self.new) }
        ensures clean { changes_of self.old session ≡ [] → self.new.tables ≡ self.old.tables }
        ensures asked { self.new.asked ≡ self.old.asked }
        ensures fault { IfOk result (λ r. is_fault r ≡ true
            → Rose self.old.faults self.new.faults) }
        ensures faults { self.old.faults ≤ self.new.faults }
        ensures entities { self.new.entities ≡ self.old.entities }
        ensures err { OnErr result (IsCounted self.old self.new) }
        ensures left { OnErr result (IsLeft (changes_of self.old session) Act.Commit self.old
            self.new) }
    {
        let commit = self.store.commit(alloc, session)?;
        Ok(Reply::Commit(commit))
    }

    /// Drops a session's changes.
    fn rollback(&mut self, session: SessionNo) -> Reply
        ensures answered { (script : Said) (told : Option Tables) (l : Journal) (now : ℕ)
            → IsStored told l self.old → IsStoreServed script told l now session Act.Rollback result
            self.new }
        ensures tables { self.new.tables ≡ self.old.tables }
        ensures calm { is_fault result ≡ false }
        ensures entities { self.new.entities ≡ self.old.entities }
        ensures faults { self.new.faults ≡ self.old.faults }
        ensures asked { self.new.asked ≡ self.old.asked }
    {
        self.store.drop_changes(session);
        Reply::Done
    }

    /// Answers an act of a session that is asked of the store. The keeper is asked once at most, and only if the act
    /// asks. A fault is answered only if the keeper failed in this call. At an error all is as before but for the
    /// keeper's counts, and they stay too if the act doesn't call the keeper.
    pub fn serve(
        &mut self,
        alloc: Global,
        script: &Script,
        session: SessionNo,
        act: &Act,
    ) -> Result<Reply, AllocError>
        ensures answered { IfOk result (λ r. (told : Option Tables) (l : Journal) (now : ℕ)
            → IsStored told l self.old → is_for Part.Store act.now session ≡ true
            → HasQuery script.now act.now → IsStoreServed script.now told l now session act.now
            r self.new) }
        ensures asked { IfOk result (λ _. RoseWithin self.old.asked
            (if asks (changes_of self.old session) act.now then 1 else 0) self.new.asked) }
        ensures fault { IfOk result (λ r. is_fault r ≡ true
            → Rose self.old.faults self.new.faults) }
        ensures faults { self.old.faults ≤ self.new.faults }
        ensures entities { self.new.entities ≡ self.old.entities }
        // The rows change only at a commit of a session that has written.
        ensures rows { changes_rows (changes_of self.old session) act.now ≡ false
            → self.new.tables ≡ self.old.tables }
        // A load and a list change nothing but the keeper's counts.
        ensures still { OnOk result (reads act.now ≡ true → IsCounted self.old self.new) }
        ensures err { OnErr result (IsCounted self.old self.new) }
        // The counts stay if the act doesn't call the keeper.
        ensures passed { OnOk result (reads act.now ≡ true
            → IsLeft (changes_of self.old session) act.now self.old self.new) }
        ensures left { OnErr result (IsLeft (changes_of self.old session) act.now self.old
            self.new) }
    {
        match act {
            Act::Load { key } => self.load(alloc, session, *key),
            Act::List { query } => self.list(alloc, script, session, *query),
            Act::Write(change) => self.write(alloc, session, change),
            Act::Commit => self.commit(alloc, session),
            Act::Rollback => Ok(self.rollback(session)),
            // No other act is asked of the store.
            _ => Ok(Reply::Done),
        }
    }

    /// Whether an act of a session may change the committed rows: a commit, if the session has written.
    pub fn may_change_rows(&self, session: SessionNo, act: &Act) -> bool
        ensures { result ≡ changes_rows (changes_of self.now session) act.now }
    {
        match act {
            Act::Commit => !self.is_clean(session),
            _ => false,
        }
    }

    /// Whether all that a session has written is committed or dropped, so that it sees the committed rows.
    pub fn is_clean(&self, session: SessionNo) -> bool
        ensures { result ≡ is_empty (changes_of self.now session) }
    {
        self.store.changes(session).is_empty()
    }

    /// The committed rows of the first entities, if the index of them stands. The store gives this index away: the next
    /// list that asks for it makes it anew. Nothing else changes, and it takes no memory.
    pub fn give_snapshot(&mut self) -> Option<Snapshot>
        ensures of { IfSome result (IsSnapshotOf self.old.tables) }
        ensures there { is_some result ≡ self.old.indexed }
        ensures first { IfSome result (λ s. s.entities ≡ self.old.entities) }
        ensures indexed { self.new.indexed ≡ false }
        ensures tables { self.new.tables ≡ self.old.tables }
        ensures faults { self.new.faults ≡ self.old.faults }
        ensures asked { self.new.asked ≡ self.old.asked }
        ensures written { self.new.written ≡ self.old.written }
        ensures entities { self.new.entities ≡ self.old.entities }
    {
        self.store.give_snapshot()
    }

    /// Makes the index of the committed rows of the first entities, unless it stands. False only if the keeper failed;
    /// if the answer is true the index stands. Nothing else changes, but for the keeper's counts. A bulk line asks for
    /// it.
    pub fn ready_index(&mut self, alloc: Global) -> Result<bool, AllocError>
        ensures indexed { IfOk result (λ b. b ≡ self.new.indexed) }
        ensures fault { result ≡ Ok false → Rose self.old.faults self.new.faults }
        ensures entities { self.new.entities ≡ self.old.entities }
        ensures still { IsCounted self.old self.new }
    {
        self.store.ready_index(alloc)
    }

    /// The committed rows of an entity that meet a condition, if there is one, in order of keys. The entity, and those
    /// to which the condition steps, must be among the first. None if and only if the index of their rows doesn't
    /// stand. Fails for want of memory alone.
    pub fn rows_met(
        &self,
        alloc: Global,
        entity: EntityNo,
        condition: &Option<Cond>,
    ) -> Result<Option<Vec<&(Key, Row)>>, AllocError>
        requires { MeetsBelow self.now.entities entity condition.now }
        ensures met { IfOk result (λ o. IfSome o (λ v. IfSome self.now.tables
            (λ m. map (λ r. r.now) v.items ≡ met entity condition.now m))) }
        ensures none { IfOk result (λ o. is_some o ≡ self.now.indexed) }
        ensures ordered { IfSome self.now.tables (λ m. in_order m ≡ true) }
    {
        self.store.rows_met(alloc, entity, condition)
    }

    /// Applies changes of a bulk line to the committed rows, all of them or none; no session has written them. What
    /// sessions have written stays. Committed changes the rows, and any other answer leaves them. A fault is answered
    /// only if the keeper failed in this call.
    pub fn apply(&mut self, alloc: Global, changes: &[Change]) -> Result<Commit, AllocError>
        ensures answer { IfOk result (λ answer. answer ≢ Commit.Fault → IfSome self.old.tables
            (λ m. answer ≡ commit_answer changes.now m)) }
        ensures tables { self.new.tables ≡ tables_committed result changes.now self.old.tables }
        ensures written { self.new.written ≡ self.old.written }
        ensures fault { result ≡ Ok Commit.Fault → Rose self.old.faults self.new.faults }
        ensures faults { self.old.faults ≤ self.new.faults }
        ensures asked { self.new.asked ≡ self.old.asked }
        ensures entities { self.new.entities ≡ self.old.entities }
    {
        self.store.apply(alloc, changes)
    }

    /// Does a kill: what the session has written and not committed is dropped. It takes no memory.
    pub fn kill(&mut self, killed: SessionNo)
        ensures stands { (told : Option Tables) (l : Journal) (now : ℕ) → IsStored told l self.old
            → IsStored told (entry_at now None (Act.Kill killed) Reply.Done ∷ l) self.new }
        ensures own { changes_of self.new killed ≡ [] }
        ensures others { (s : ℕ) → s ≢ killed → changes_of self.new s ≡ changes_of self.old s }
        ensures tables { self.new.tables ≡ self.old.tables }
        ensures faults { self.new.faults ≡ self.old.faults }
        ensures asked { self.new.asked ≡ self.old.asked }
        ensures entities { self.new.entities ≡ self.old.entities }
    {
        self.store.drop_changes(killed);
    }

    /// A restart: what sessions have written and not committed is dropped. It takes no memory.
    pub fn restart(&mut self)
        ensures stands { (told : Option Tables) (l : Journal) (now : ℕ) → IsStored told l self.old
            → IsStored told (entry_at now None Act.Restart Reply.Done ∷ l) self.new }
        ensures own { (s : ℕ) → changes_of self.new s ≡ [] }
        ensures tables { self.new.tables ≡ self.old.tables }
        ensures faults { self.new.faults ≡ self.old.faults }
        ensures asked { self.new.asked ≡ self.old.asked }
        ensures entities { self.new.entities ≡ self.old.entities }
    {
        self.store.drop_all();
    }
}
