// The store as a part, with the list of its entries.
ghost use Rattle.std.specs.Prelude.{◌≡◌, ◌≤◌, ◌^◌, ◌&&◌, not, [], ◌∷◌, length, true, false, is_some, None, Ok, IfOk, IfErr, IfSome, IsSome, OnOk, OnErr};
ghost use Rattle.std.specs.Option.{option_map};
ghost use Rattle.hib_base.specs.declared.entries.Entry.{Entry};
ghost use Rattle.hib_base.specs.declared.entries.Part.{Part};
ghost use Rattle.hib_journal.specs.Kept.{past};
ghost use Rattle.hib_journal.specs.Lists.{stored, unsaved};
ghost use Rattle.hib_journal.specs.Runs.{fault_count, is_fault};
ghost use Rattle.hib_outside.specs.Causes.{Rose};
ghost use Rattle.hib_store.specs.Stores.{changes_of, handed_back, is_store_fault};
ghost use Rattle.hib_split_law.specs.Apart.{IsPartLegal, store_ask_count};
ghost use Rattle.hib_engines.specs.Counts.{RoseBy, RoseWithin};
ghost use Rattle.hib_engines.specs.Store.{IsCounted, IsStored, changes_rows};
ghost use Rattle.hib_engines.specs.Origin.{origin_over};
ghost use Rattle.hib_engines.specs.Built.{IsBuilt};
ghost use Rattle.hib_parts.specs.Listed.{AreOf, IsDueOn, IsEntered, IsLater, IsKept, last_of};
ghost use Rattle.hib_parts.specs.Stored.{DiffersInIndex, IsStartReply, IsStoreEntered};

use crate::entering::{enter_answer, enter_both, prepared};
use crate::start_rows::{StartList, StartRows};
use crate::worker::Worker;
use hib_base::{Act, Reply, Script, SessionNo, Tick};
use hib_engines::{Name, StoreEngine};
use hib_journal::Journal;
use hib_outside::Keeper;
use hib_store::OpenFault;
use std::alloc::{AllocError, Global};
use std::marker::{Model, PhantomData};

/// The store, with the list of its entries, which is legal by itself.
pub struct StorePart<K: Keeper, N: Name> {
    store: StoreEngine<K>,
    last: Tick,
    list: Journal,
    /// Whether memory ran out in a call of `serve`.
    refused: bool,
    /// Whether the committed rows are known to be those at the start: no session with changes has come to a commit,
    /// whatever was answered.
    unchanged: bool,
    of: PhantomData<N>,
}

impl<K: Keeper, N: Name> Model for StorePart<K, N> {
    ghost use Rattle.std.specs.Prelude.{◌≡◌, true};
    ghost use Rattle.hib_journal.specs.Kept.{past};
    ghost use Rattle.hib_journal.specs.Types.{Part};
    ghost use Rattle.hib_engines.specs.Built.{IsBuilt};
    ghost use Rattle.hib_parts.specs.Listed.{IsPartList};
    ghost use Rattle.hib_parts.specs.Stored.{IsKeeping, StoredState};

    ghost Value = { StoredState };

    ghost view = { λ p. record {
      list = past p.list;
      refused = p.refused;
      unchanged = p.unchanged;
      tables = p.store.tables;
      faults = p.store.faults;
      asked = p.store.asked;
      indexed = p.store.indexed;
      entities = p.store.entities;
    } };

    ghost invariant = { λ p. IsBuilt N.script
        × IsPartList N.script N.from.tables Part.Store (past p.list) p.last
        × IsKeeping N.from (past p.list) p.store p.refused
        × (p.unchanged ≡ true → p.store.tables ≡ N.from.tables) };
}

/// The replies that a list over the rows at the start is to an act, if it may be taken: the act is this list, no commit
/// may have changed the rows, and the session has no changes.
fn taken<K: Keeper, N: Name>(
    store: &StoreEngine<K>,
    unchanged: bool,
    session: SessionNo,
    act: &Act,
    found: Option<StartList<N>>,
) -> Option<(Reply, Reply)>
    ensures twin { IfSome result (λ r. r.1 ≡ r.0) }
    ensures given { IfSome result (λ r. IsStartReply N.script N.from.tables act.now r.0) }
    ensures unchanged { IsSome result → unchanged ≡ true }
    ensures clean { IsSome result → changes_of store.now session ≡ [] }
{
    let found = found?;
    match act {
        Act::List { query } if unchanged && *query == found.query() && store.is_clean(session) => {
            Some(found.replies())
        }
        _ => None,
    }
}

/// One act of a session on the store: its entry goes to both lists, or if memory runs out to neither. It is what
/// `serve` does, before that notes whether memory ran out. Answers whether the committed rows may have changed.
fn serve_store<K: Keeper, N: Name>(
    alloc: Global,
    script: &Script,
    worker: &mut Worker<N>,
    store: &mut StoreEngine<K>,
    list: &mut Journal,
    now: Tick,
    unchanged: bool,
    found: Option<StartList<N>>,
) -> Result<bool, AllocError>
    requires script { script.now ≡ N.script }
    requires built { IsBuilt N.script }
    requires due { IsDueOn N.script Part.Store worker.old }
    requires later { IsLater now (past list.old) worker.old.list }
    requires stands { IsStored N.from.tables (past list.old) store.old }
    requires unchanged { unchanged ≡ true → store.old.tables ≡ N.from.tables }
    ensures number { worker.new.number ≡ worker.old.number }
    ensures entered { OnOk result (IsStoreEntered N.script N.from.tables now (past list.old)
        (past list.new) store.old store.new worker.old worker.new) }
    ensures kept { OnErr result (IsKept worker.old worker.new) }
    ensures same { OnErr result (past list.new ≡ past list.old) }
    ensures counted { OnErr result (IsCounted store.old store.new) }
    ensures rows { IfOk result (λ changed. changed ≡ false → store.new.tables ≡ store.old.tables) }
    ensures may { IfOk result (λ changed. (e : Entry) → past list.new ≡ e ∷ past list.old
        → changed ≡ changes_rows (unsaved worker.old.number (past list.old)) e.act) }
    ensures entities { store.new.entities ≡ store.old.entities }
{
    let acts = prepared(alloc, script, worker, list)?;
    let number = worker.number();
    if let Some(replies) = taken(store, unchanged, number, &acts.act, found) {
        enter_both(alloc, script, worker, list, acts, replies, now)?;
        return Ok(false);
    }
    let changed = store.may_change_rows(number, &acts.act);
    let reply = store.serve(alloc, script, number, &acts.act)?;
    enter_answer(alloc, script, worker, list, acts, reply, now)?;
    Ok(changed)
}

impl<K: Keeper, N: Name> StorePart<K, N> {
    /// The store over a keeper whose rows are widened to the script's mapping, and which takes each of the script's
    /// rows if its key has none. At an error the keeper is handed back, with the rows that it had.
    pub fn open(alloc: Global, script: &Script, keeper: K) -> Result<StorePart<K, N>, OpenFault<K>>
        requires script { script.now ≡ N.script }
        requires built { IsBuilt N.script }
        requires from { origin_over N.script (K.tables keeper) (K.faults keeper) (K.asked keeper)
            ≡ N.from }
        ensures list { IfOk result (λ p. p.list ≡ []) }
        ensures going { IfOk result (λ p. p.refused ≡ false) }
        ensures unchanged { IfOk result (λ p. p.unchanged ≡ true) }
        ensures entities { IfOk result (λ p. p.entities ≡ length N.script.mapping) }
        ensures back { IfErr result (λ e. K.tables (handed_back e) ≡ K.tables keeper) }
        ensures back_faults { IfErr result (λ e. K.faults keeper ≤ K.faults (handed_back e)) }
        ensures back_asked { IfErr result (λ e. K.asked (handed_back e) ≡ K.asked keeper) }
        ensures fault { IfErr result (λ e. is_store_fault e ≡ true
            → Rose (K.faults keeper) (K.faults (handed_back e))) }
    {
        let entities = script.mapping.len() as u16;
        let store = StoreEngine::open(
            alloc,
            keeper,
            &script.mapping,
            script.rows.as_slice(),
            entities,
        )?;
        Ok(StorePart {
            store,
            last: Tick(0),
            list: Journal::open(alloc),
            refused: false,
            unchanged: true,
            of: PhantomData,
        })
    }

    /// The tick of its last entry, or 0.
    pub fn last(&self) -> Tick
        ensures last { result ≡ last_of self.now.list }
        ensures bounded { result ≤ 2 ^ 62 }
    {
        self.last
    }

    /// Its entries.
    pub fn list(&self) -> &Journal
        ensures list { past result.now ≡ self.now.list }
        ensures legal { IsPartLegal N.script N.from.tables (past result.now) }
    {
        &self.list
    }

    /// Whether memory ran out in a call of `serve`. Then the keeper may have been asked more often than the list says.
    pub fn refused(&self) -> bool
        ensures { result ≡ self.now.refused }
    {
        self.refused
    }

    /// One act of a session. The act must be due in it, and on the store. It is answered at this tick, which must be
    /// after the last ticks of both. Its entry goes to both lists, with a fault only if the keeper failed. A list that
    /// was worked out over the rows at the start is taken if it still is the answer. If memory runs out both lists are
    /// as before, the keeper was asked once at most, and `refused` says so from then on.
    pub fn serve(
        &mut self,
        alloc: Global,
        worker: &mut Worker<N>,
        script: &Script,
        now: Tick,
        found: Option<StartList<N>>,
    ) -> Result<(), AllocError>
        requires script { script.now ≡ N.script }
        requires due { IsDueOn N.script Part.Store worker.old }
        requires later { IsLater now self.old.list worker.old.list }
        ensures number { worker.new.number ≡ worker.old.number }
        ensures entered { OnOk result (IsEntered now self.old.list self.new.list worker.old
            worker.new) }
        ensures fault { OnOk result ((e : Entry) → self.new.list ≡ e ∷ self.old.list
            → is_fault e.reply ≡ true → Rose self.old.faults self.new.faults) }
        ensures going { OnOk result (self.new.refused ≡ self.old.refused) }
        ensures unchanged { OnOk result ((e : Entry) → self.new.list ≡ e ∷ self.old.list
            → self.new.unchanged ≡ self.old.unchanged
            && not (changes_rows (unsaved worker.old.number self.old.list) e.act)) }
        ensures entities { self.new.entities ≡ self.old.entities }
        ensures kept { OnErr result (IsKept worker.old worker.new) }
        ensures same { OnErr result (self.new.list ≡ self.old.list) }
        ensures still { OnErr result (self.new.unchanged ≡ self.old.unchanged) }
        ensures tables { OnErr result (self.new.tables ≡ self.old.tables) }
        ensures refused { OnErr result (self.new.refused ≡ true) }
    {
        let (store, list) = (&mut self.store, &mut self.list);
        match serve_store(
            alloc,
            script,
            worker,
            store,
            list,
            now,
            self.unchanged,
            found,
        ) {
            Ok(changed) => {
                self.last = now;
                self.unchanged = self.unchanged && !changed;
                Ok(())
            }
            Err(error) => {
                self.refused = true;
                Err(error)
            }
        }
    }

    /// Whether the committed rows are known to be those at the start, as no session with changes has come to a commit.
    pub fn unchanged(&self) -> bool
        ensures { result ≡ self.now.unchanged }
    {
        self.unchanged
    }

    /// The committed rows at the start, made ready for the script's queries, if they still stand and the store has an
    /// index of them. The store gives its index away for that, also if memory runs out, and makes another if a list
    /// asks for it. Fails for want of memory alone.
    pub fn share(
        &mut self,
        alloc: Global,
        script: &Script,
    ) -> Result<Option<StartRows<N>>, AllocError>
        ensures there { self.old.unchanged ≡ true
            → IfOk result (λ r. is_some r ≡ self.old.indexed) }
        ensures none { self.old.unchanged ≡ false → result ≡ Ok None }
        ensures first { IfOk result (λ r. IfSome r (λ s. s.entities ≡ self.old.entities)) }
        ensures given { self.old.unchanged ≡ true → self.new.indexed ≡ false }
        ensures kept { self.old.unchanged ≡ false → self.new ≡ self.old }
        ensures same { DiffersInIndex self.old self.new }
    {
        if !self.unchanged {
            return Ok(None);
        }
        let Some(mut snapshot) = self.store.give_snapshot() else {
            return Ok(None);
        };
        snapshot.ready(alloc, script.queries.as_slice())?;
        Ok(Some(StartRows::of(snapshot)))
    }

    /// Takes the part apart: the keeper, and the entries, which are legal by themselves. What the keeper tells is what
    /// the entries leave. It has failed as often as they say. Unless memory ran out in a call, it was asked no more
    /// often than they say.
    pub fn close(self) -> (K, Journal)
        ensures list { past result.1 ≡ self.list }
        ensures legal { IsPartLegal N.script N.from.tables (past result.1) }
        ensures part { AreOf Part.Store (past result.1) }
        ensures rows { K.tables result.0
            ≡ option_map (λ start. stored start (past result.1)) N.from.tables }
        ensures faults { RoseBy N.from.faults (fault_count (past result.1)) (K.faults result.0) }
        ensures asked { self.refused ≡ false
            → RoseWithin N.from.asked (store_ask_count (past result.1)) (K.asked result.0) }
    {
        let StorePart {
            store,
            last: _,
            list,
            refused: _,
            unchanged: _,
            of: _,
        } = self;
        (store.close(), list)
    }
}
