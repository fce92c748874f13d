// The store over a keeper: committed rows, and what each session has written. hib_engines answers acts by it.
ghost use Rattle.std.specs.Prelude.{◌≡◌, ◌≢◌, ◌+◌, ◌≤◌, ℕ, [], ◌∷◌, ◌++◌, true, false, map, is_some, Ok, IfOk, IfErr, IfSome, OnOk, OnErr};
ghost use Rattle.std.specs.Option.{option_map};
ghost use Rattle.hib_base.specs.Start.{start};
ghost use Rattle.hib_base.specs.Tables.{Tables, row_at, row_left, last_on, after_changes, commit_answer, in_order};
ghost use Rattle.hib_outside.specs.Causes.{Rose};

use crate::asking::{self, Loaded};
use crate::last_list::LastList;
use crate::snapshot::Snapshot;
use crate::written::Written;
use crate::{indexed, queries, views, written};
use hib_base::{Change, Commit, Cond, EntityNo, Key, Listing, Mapping, Query, Row, SessionNo};
use hib_outside::{KeepFault, Keeper};
use hib_query_eval::Index;
use std::alloc::{AllocError, Global};
use std::marker::Model;

/// The store's answer to a query.
#[derive(Drop)]
pub enum Listed {
    /// What the query gives over the session's view of all keys.
    List(Listing),
    /// The keeper failed.
    Fault,
}

/// Why a store wasn't opened. It hands the keeper back.
#[derive(Drop)]
pub enum OpenFault<K> {
    /// Memory ran out.
    NoMemory(K),
    /// The keeper failed; its count of faults rose.
    StoreFault(K),
}

/// A keeper's rows, and the changes that each session has written and not yet committed. Contracts see what the
/// keeper tells, its counts and the changes.
pub struct Store<K: Keeper> {
    keeper: K,
    written: Written,
    // How many entities the index is of: the first ones.
    entities: u16,
    // The committed rows of the first entities, once a list was asked of them.
    index: Option<Index>,
    // The last list that a session with changes was given. None after changes were written, dropped or committed.
    last: Option<LastList>,
}

impl<K: Keeper> Model for Store<K> {
    ghost use Rattle.std.specs.Prelude.{is_some};
    ghost use Rattle.hib_store.specs.Stores.{StoreState};

    ghost Value = { StoreState };

    ghost view = { λ s. record {
      tables = K.tables s.keeper;
      faults = K.faults s.keeper;
      asked = K.asked s.keeper;
      written = s.written.entries;
      entities = s.entities;
      indexed = is_some s.index;
    } };

    ghost use Rattle.std.specs.Prelude.{IfSome};
    ghost use Rattle.hib_store.specs.Last.{Stands};
    ghost use Rattle.hib_store.specs.Stores.{IsIndexed};

    ghost invariant = { λ s. IsIndexed s.entities s.index (K.tables s.keeper)
        × IfSome s.last (Stands (K.tables s.keeper) s.written.entries) };
}

impl<K: Keeper> Store<K> {
    ghost use Rattle.hib_query_eval.specs.Met.{met};
    ghost use Rattle.hib_store.specs.Stores.{changes_of, is_in, IsView, IsListed, IsSnapshotOf, ReadsBelow, MeetsBelow, StandsCommitted, names_change, tables_committed, handed_back, is_store_fault};
    ghost use Rattle.hib_store.specs.declared.asking.Loaded.{Loaded};
    ghost use Rattle.hib_store.specs.declared.store.Listed.{Listed};
    ghost use Rattle.hib_store.specs.Types.{Commit};

    /// The store over a keeper, in which no session has written. It asks the keeper for nothing.
    fn over(alloc: Global, keeper: K, entities: u16) -> Store<K>
        ensures tables { result.tables ≡ K.tables keeper }
        ensures faults { result.faults ≡ K.faults keeper }
        ensures asked { result.asked ≡ K.asked keeper }
        ensures written { result.written ≡ [] }
        ensures entities { result.entities ≡ entities }
        ensures indexed { result.indexed ≡ false }
        ensures ordered { IfSome result.tables (λ m. in_order m ≡ true) }
    {
        Store {
            keeper,
            written: Written::new(alloc),
            entities,
            index: None,
            last: None,
        }
    }

    /// The store over a keeper that is seeded by one call: the rows that it keeps are widened to the columns of this
    /// mapping, and each of these rows whose key has none is added. No session has written. At an error the keeper is
    /// handed back, with the rows that it had. A list of the first `entities` entities is answered from an index.
    pub fn open(
        alloc: Global,
        mut keeper: K,
        mapping: &Mapping,
        rows: &[(Key, Row)],
        entities: u16,
    ) -> Result<Store<K>, OpenFault<K>>
        ensures tables { IfOk result (λ s. s.tables
            ≡ option_map (λ m. start mapping.now m rows.now) (K.tables keeper)) }
        ensures faults { IfOk result (λ s. K.faults keeper ≤ s.faults) }
        ensures asked { IfOk result (λ s. s.asked ≡ K.asked keeper) }
        ensures written { IfOk result (λ s. s.written ≡ []) }
        ensures entities { IfOk result (λ s. s.entities ≡ entities) }
        ensures indexed { IfOk result (λ s. s.indexed ≡ false) }
        ensures ordered { IfOk result (λ s. IfSome s.tables (λ m. in_order m ≡ true)) }
        ensures back { IfErr result (λ e. K.tables (handed_back e) ≡ K.tables keeper) }
        ensures back_faults { IfErr result (λ e. K.faults keeper ≤ K.faults (handed_back e)) }
        ensures back_asked { IfErr result (λ e. K.asked (handed_back e) ≡ K.asked keeper) }
        ensures fault { IfErr result (λ e. is_store_fault e ≡ true
            → Rose (K.faults keeper) (K.faults (handed_back e))) }
    {
        match keeper.seed(alloc, mapping, rows) {
            Ok(()) => Ok(Store::over(alloc, keeper, entities)),
            Err(KeepFault::NoMemory) => Err(OpenFault::NoMemory(keeper)),
            Err(KeepFault::Failed) => Err(OpenFault::StoreFault(keeper)),
        }
    }

    /// The keeper, with what it tells and its counts. Changes that aren't committed are dropped.
    pub fn close(self) -> K
        ensures tables { K.tables result ≡ self.tables }
        ensures faults { K.faults result ≡ self.faults }
        ensures asked { K.asked result ≡ self.asked }
    {
        let Store {
            keeper,
            written: _,
            entities: _,
            index: _,
            last: _,
        } = self;
        keeper
    }

    /// The changes that a session has written since its last commit, in order.
    pub fn changes(&self, session: SessionNo) -> &[Change]
        ensures { result.now ≡ changes_of self.now session }
    {
        written::changes_of(&self.written, session)
    }

    /// A session's view of a key: what its last change on the key leaves, or else the committed row. A key that
    /// the session has changed doesn't ask the keeper, and is never answered by Fault. At every answer and error
    /// the rows and the changes stay; the keeper's counts may have risen.
    #[tactic(auto, using(hib_base::proofs::Tables::row_at_changes, crate::proofs::Sessions::is_in_last))]
    pub fn load(
        &mut self,
        alloc: Global,
        session: SessionNo,
        key: Key,
    ) -> Result<Loaded, AllocError>
        ensures view { IfOk result (IsView self.old.tables (changes_of self.old session) key) }
        ensures last { IfOk result (λ loaded. IfSome (last_on key (changes_of self.old session))
            (λ change. loaded ≡ Loaded.Row (row_left change))) }
        ensures own { is_in key (changes_of self.old session) ≡ true → (t : Tables)
            → IfOk result (λ loaded. loaded
            ≡ Loaded.Row (row_at (after_changes (changes_of self.old session) t) key)) }
        ensures quiet { is_in key (changes_of self.old session) ≡ true → self.new ≡ self.old }
        ensures no_fault { is_in key (changes_of self.old session) ≡ true
            → result ≢ Ok Loaded.Fault }
        ensures fault { result ≡ Ok Loaded.Fault → Rose self.old.faults self.new.faults }
        ensures faults { self.old.faults ≤ self.new.faults }
        ensures asked { (self.old.asked ≤ self.new.asked) × (self.new.asked ≤ self.old.asked + 1) }
        ensures tables { self.new.tables ≡ self.old.tables }
        ensures written { self.new.written ≡ self.old.written }
        ensures entities { self.new.entities ≡ self.old.entities }
        ensures indexed { self.new.indexed ≡ self.old.indexed }
    {
        let changes = written::changes_of(&self.written, session);
        if let Some(change) = written::last_change(changes, &key) {
            return Ok(Loaded::Row(change.copy_left(alloc)?));
        }
        asking::read(alloc, &mut self.keeper, key)
    }

    /// What a query gives over a session's view of all keys: the committed rows with the session's changes done to
    /// them. The keeper is asked at most once. If the query reads only the first entities, it is asked for the rows of
    /// all of them, and not at all while the index of these rows stands. The index stands from then on, unless the
    /// answer is Fault or an error. Else the keeper is asked for the tables that the query reads. At every answer and
    /// error the rows and the changes stay; the keeper's counts may have risen.
    pub fn list(
        &mut self,
        alloc: Global,
        session: SessionNo,
        query: &Query,
    ) -> Result<Listed, AllocError>
        ensures listed { IfOk result (IsListed self.old.tables
            (changes_of self.old session) query.now) }
        ensures fault { result ≡ Ok Listed.Fault → Rose self.old.faults self.new.faults }
        ensures faults { self.old.faults ≤ self.new.faults }
        ensures asked { (self.old.asked ≤ self.new.asked) × (self.new.asked ≤ self.old.asked + 1) }
        ensures tables { self.new.tables ≡ self.old.tables }
        ensures written { self.new.written ≡ self.old.written }
        ensures entities { self.new.entities ≡ self.old.entities }
        ensures stands { ReadsBelow self.old.entities query.now
            → IfOk result (λ listed. listed ≢ Listed.Fault → self.new.indexed ≡ true) }
        ensures quiet { ReadsBelow self.old.entities query.now → self.old.indexed ≡ true
            → self.new ≡ self.old }
        ensures kept { self.old.indexed ≡ true → self.new.indexed ≡ true }
        ensures others { ¬ ReadsBelow self.old.entities query.now
            → self.new.indexed ≡ self.old.indexed }
    {
        if !queries::reads_below(query, self.entities) {
            let changes = written::changes_of(&self.written, session);
            return asking::listed(alloc, &mut self.keeper, query, changes);
        }
        asking::make_index(alloc, &mut self.keeper, &mut self.index, self.entities)?;
        indexed::list(
            alloc,
            &mut self.index,
            &mut self.written,
            &mut self.last,
            session,
            query,
        )
    }

    /// Makes the index of the committed rows of the first entities, unless it stands. False only if the keeper failed;
    /// if the answer is true the index stands. The keeper is asked at most once. At every answer and error the rows and
    /// the changes stay.
    pub fn ready_index(&mut self, alloc: Global) -> Result<bool, AllocError>
        ensures indexed { IfOk result (λ b. b ≡ self.new.indexed) }
        ensures fault { result ≡ Ok false → Rose self.old.faults self.new.faults }
        ensures faults { self.old.faults ≤ self.new.faults }
        ensures asked { (self.old.asked ≤ self.new.asked) × (self.new.asked ≤ self.old.asked + 1) }
        ensures tables { self.new.tables ≡ self.old.tables }
        ensures written { self.new.written ≡ self.old.written }
        ensures entities { self.new.entities ≡ self.old.entities }
        ensures kept { self.old.indexed ≡ true → self.new ≡ self.old }
    {
        asking::make_index(alloc, &mut self.keeper, &mut self.index, self.entities)?;
        Ok(self.index.is_some())
    }

    /// The committed rows of the first entities, if the index of them stands. The store gives this index away: the next
    /// list that asks for it makes it anew. Nothing else changes. It takes no memory.
    pub fn give_snapshot(&mut self) -> Option<Snapshot>
        ensures of { IfSome result (IsSnapshotOf self.old.tables) }
        ensures there { is_some result ≡ self.old.indexed }
        ensures first { IfSome result (λ s. s.entities ≡ self.old.entities) }
        ensures indexed { self.new.indexed ≡ false }
        ensures tables { self.new.tables ≡ self.old.tables }
        ensures faults { self.new.faults ≡ self.old.faults }
        ensures asked { self.new.asked ≡ self.old.asked }
        ensures written { self.new.written ≡ self.old.written }
        ensures entities { self.new.entities ≡ self.old.entities }
    {
        let index = self.index.take()?;
        Some(Snapshot::of(index, self.entities))
    }

    /// The committed rows of an entity that meet a condition, if there is one, in order of keys. The entity, and those
    /// to which the condition steps, must be among the first. None if and only if the index of their rows doesn't
    /// stand. Fails for want of memory alone.
    pub fn rows_met(
        &self,
        alloc: Global,
        entity: EntityNo,
        condition: &Option<Cond>,
    ) -> Result<Option<Vec<&(Key, Row)>>, AllocError>
        requires { MeetsBelow self.now.entities entity condition.now }
        ensures met { IfOk result (λ o. IfSome o (λ v. IfSome self.now.tables
            (λ m. map (λ r. r.now) v.items ≡ met entity condition.now m))) }
        ensures none { IfOk result (λ o. is_some o ≡ self.now.indexed) }
        ensures ordered { IfSome self.now.tables (λ m. in_order m ≡ true) }
    {
        views::rows_met(alloc, &self.index, entity, condition)
    }

    /// Adds a change to those of a session, which no other session sees. At an error nothing has changed.
    pub fn write(
        &mut self,
        alloc: Global,
        session: SessionNo,
        change: Change,
    ) -> Result<(), AllocError>
        ensures own { OnOk result (changes_of self.new session
            ≡ changes_of self.old session ++ change ∷ []) }
        ensures others { (s : ℕ) → s ≢ session → changes_of self.new s ≡ changes_of self.old s }
        ensures err { OnErr result (self.new ≡ self.old) }
        ensures tables { self.new.tables ≡ self.old.tables }
        ensures faults { self.new.faults ≡ self.old.faults }
        ensures asked { self.new.asked ≡ self.old.asked }
        ensures entities { self.new.entities ≡ self.old.entities }
        ensures indexed { self.new.indexed ≡ self.old.indexed }
    {
        self.last = None;
        written::add_change(alloc, &mut self.written, session, change)
    }

    /// Drops the changes that a session has written. It takes no memory.
    pub fn drop_changes(&mut self, session: SessionNo)
        ensures own { changes_of self.new session ≡ [] }
        ensures others { (s : ℕ) → s ≢ session → changes_of self.new s ≡ changes_of self.old s }
        ensures tables { self.new.tables ≡ self.old.tables }
        ensures faults { self.new.faults ≡ self.old.faults }
        ensures asked { self.new.asked ≡ self.old.asked }
        ensures entities { self.new.entities ≡ self.old.entities }
        ensures indexed { self.new.indexed ≡ self.old.indexed }
    {
        self.last = None;
        written::drop_session(&mut self.written, session);
    }

    /// Drops the changes that all sessions have written. It takes no memory.
    pub fn drop_all(&mut self)
        ensures own { (s : ℕ) → changes_of self.new s ≡ [] }
        ensures tables { self.new.tables ≡ self.old.tables }
        ensures faults { self.new.faults ≡ self.old.faults }
        ensures asked { self.new.asked ≡ self.old.asked }
        ensures entities { self.new.entities ≡ self.old.entities }
        ensures indexed { self.new.indexed ≡ self.old.indexed }
    {
        self.last = None;
        self.written.clear();
    }

    /// Applies a session's changes to the committed rows, all of them or none, and drops them. The first change
    /// that doesn't apply decides. Without changes the answer is Committed, and the keeper isn't asked. At an
    /// error rows and changes stay. The index is dropped after Fault; after Committed it may be, for want of memory.
    pub fn commit(&mut self, alloc: Global, session: SessionNo) -> Result<Commit, AllocError>
        ensures answer { IfOk result (λ answer. answer ≢ Commit.Fault → IfSome self.old.tables
            (λ m. answer ≡ commit_answer (changes_of self.old session) m)) }
        ensures named { IfOk result (λ answer. names_change (changes_of self.old session) answer
            ≡ true) }
        ensures none { changes_of self.old session ≡ [] → (result ≡ Ok Commit.Committed)
            × (self.new ≡ self.old) }
        ensures fault { result ≡ Ok Commit.Fault → Rose self.old.faults self.new.faults }
        ensures faults { self.old.faults ≤ self.new.faults }
        ensures asked { self.new.asked ≡ self.old.asked }
        ensures tables { self.new.tables
            ≡ tables_committed result (changes_of self.old session) self.old.tables }
        ensures own { OnOk result (changes_of self.new session ≡ []) }
        ensures others { (s : ℕ) → s ≢ session → changes_of self.new s ≡ changes_of self.old s }
        ensures err { OnErr result (self.new.written ≡ self.old.written) }
        ensures entities { self.new.entities ≡ self.old.entities }
        ensures indexed { StandsCommitted result self.old.indexed self.new.indexed }
    {
        let changes = written::changes_of(&self.written, session);
        if changes.is_empty() {
            return Ok(Commit::Committed);
        }
        let commit = asking::apply(alloc, &mut self.keeper, changes)?;
        self.last = None;
        self.index = views::left(alloc, self.index.take(), &commit, changes);
        written::drop_session(&mut self.written, session);
        Ok(commit)
    }

    /// Applies changes that no session has written to the committed rows, all of them or none. The first change that
    /// doesn't apply decides. What sessions have written stays, and at an error the rows stay, too. The index is
    /// dropped after Fault; after Committed it may be, for want of memory.
    pub fn apply(&mut self, alloc: Global, changes: &[Change]) -> Result<Commit, AllocError>
        ensures answer { IfOk result (λ answer. answer ≢ Commit.Fault → IfSome self.old.tables
            (λ m. answer ≡ commit_answer changes.now m)) }
        ensures fault { result ≡ Ok Commit.Fault → Rose self.old.faults self.new.faults }
        ensures faults { self.old.faults ≤ self.new.faults }
        ensures asked { self.new.asked ≡ self.old.asked }
        ensures tables { self.new.tables ≡ tables_committed result changes.now self.old.tables }
        ensures written { self.new.written ≡ self.old.written }
        ensures entities { self.new.entities ≡ self.old.entities }
        ensures indexed { StandsCommitted result self.old.indexed self.new.indexed }
    {
        let commit = asking::apply(alloc, &mut self.keeper, changes)?;
        self.last = None;
        self.index = views::left(alloc, self.index.take(), &commit, changes);
        Ok(commit)
    }
}
