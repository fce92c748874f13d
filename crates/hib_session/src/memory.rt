// What a session remembers of its own entries: its transaction's time, floor and changes, its locks and its instances.
ghost use Rattle.std.specs.Prelude.{◌≡◌, ◌||◌, ◌∷◌, [], ◌++◌, IfOk, IfSome, IsOk, OnOk, true, not, Some, None, MatchOption, is_some, if◌then◌else◌};
ghost use Rattle.hib_journal.specs.Sessions.{Journal};
ghost use Rattle.hib_journal.specs.Held.{pending};
ghost use Rattle.hib_base.specs.declared.entries.Act.{Act};
ghost use Rattle.hib_journal.specs.Next.{is_in, is_in_tables, is_free, may_read, may_put, flush_of, tables_of, before_cached, completion};
ghost use Rattle.hib_flush.specs.Planned.{planned};
ghost use Rattle.hib_completion.specs.Completed.{acts_of, is_key_in};
ghost use Rattle.hib_identity_map.specs.Holds.{held_in, shown_of};
ghost use Rattle.hib_session.specs.Memory.{marked_in, before_key_in, before_in, flush_in, with_room, Knows, Recalls};

use crate::changed::Changed;
use crate::instances::Instances;
use crate::keyed::{has_room, has_room_in, is_among};
use crate::queries::{is_cached as is_kept, is_touched, query_of};
use hib_base::{
    Act, Acts, Change, Changes, Held, Key, Mode, Outcome, QueryNo, Script, Seq, Strategy, Tick,
    is_cached, strategy_of,
};
use hib_completion::{acts, tables};
use hib_flush::plan;
use indexmap::{IndexMap, IndexSet};
use std::alloc::{AllocError, Global};
use std::marker::Model;

/// What a session remembers of its own entries.
#[derive(Drop)]
pub struct Memory {
    /// The tick of its last Begin, or 0.
    pub time: Tick,
    /// The floor that its last Begin answered, or 0.
    pub floor: Tick,
    /// Its instances in order of arrival.
    pub instances: Instances,
    /// Of a key, whether its instance was made and never written.
    pub marks: IndexMap<Key, bool>,
    /// The changes that it wrote since its last Begin, in order.
    pub changes: Changed,
    /// The keys whose base it was given since its last Begin.
    pub fresh: IndexSet<Key>,
    /// The last lock that it took on a key.
    pub locks: IndexMap<Key, Tick>,
    /// How its last transaction ended.
    pub outcome: Outcome,
}

impl Model for Memory {
    ghost use Rattle.std.specs.Prelude.{◌&&◌, nat_lt};
    ghost use Rattle.indexmap.specs.IndexMap.{spare as spare_of};
    ghost use Rattle.indexmap.specs.IndexSet.{spare};
    ghost use Rattle.hib_session.specs.Memory.{Remembered};

    ghost Value = { Remembered };

    ghost view = { λ m. record {
      time = m.time;
      floor = m.floor;
      instances = m.instances;
      marks = m.marks.entries;
      changes = m.changes.list;
      fresh = m.fresh.keys;
      locks = m.locks.entries;
      outcome = m.outcome;
      room = (nat_lt 0 (spare_of m.marks) && m.changes.room)
          && (nat_lt 0 (spare m.fresh) && nat_lt 0 (spare_of m.locks));
    } };
}

/// Whether a key's instance was made and never written.
pub fn is_marked(marks: &IndexMap<Key, bool>, key: Key) -> bool
    ensures { result ≡ marked_in key marks.now.entries }
{
    match marks.get(&key) {
        Some(mark) => *mark,
        None => false,
    }
}

/// The act that comes before the first write of a key: a lock, or the removal of its item. None if no region has the
/// entity's keys.
fn before_first(strategy: Strategy, key: Key, version: Option<u32>, floor: Tick) -> Option<Act>
    ensures { acts_of result ≡ before_cached strategy key version floor }
{
    match strategy {
        Strategy::ReadWrite => Some(Act::Lock {
            key,
            version,
            floor,
        }),
        Strategy::Uncached => None,
        Strategy::ReadOnly | Strategy::Nonstrict => Some(Act::RegionRemove { key }),
    }
}

impl Memory {
    /// The memory of a session that has done nothing.
    pub fn new(alloc: Global) -> Memory
        ensures { Knows result [] }
    {
        Memory {
            time: Tick(0),
            floor: Tick(0),
            instances: Instances::open(alloc),
            marks: IndexMap::new(alloc),
            changes: Changed::new(alloc),
            fresh: IndexSet::new(alloc),
            locks: IndexMap::new(alloc),
            outcome: Outcome::RolledBack,
        }
    }

    /// Whether there is room for one more of each.
    pub fn has_room(&self) -> bool
        ensures { result ≡ self.now.room }
    {
        has_room(&self.marks)
            && self.changes.has_room()
            && has_room_in(&self.fresh)
            && has_room(&self.locks)
    }

    /// Makes room for one more of each, if it is needed. At an error nothing has changed but the room.
    pub fn reserve(&mut self, needed: bool) -> Result<(), AllocError>
        ensures same { self.new ≡ with_room self.new.room self.old }
        ensures ok { OnOk result ((not needed || self.new.room) ≡ true) }
        ensures room { (not needed || self.old.room) ≡ true → IsOk result }
    {
        if !needed || self.has_room() {
            return Ok(());
        }
        self.marks.reserve(1)?;
        self.changes.reserve()?;
        self.fresh.reserve(1)?;
        self.locks.reserve(1)?;
        Ok(())
    }

    /// The instance that is held of a key.
    pub fn find(&self, key: Key) -> Option<&Held>
        ensures { MatchOption result (held_in self.now.instances.held key ≡ None)
            (λ h. held_in self.now.instances.held key ≡ Some (shown_of key h.now)) }
    {
        self.instances.look(key)
    }

    /// Whether an instance of a key is held.
    pub fn holds(&self, key: Key) -> bool
        ensures { result ≡ is_some (held_in self.now.instances.held key) }
    {
        self.find(key).is_some()
    }

    /// Whether a key is among the changes of the transaction.
    pub fn has_changed(&self, key: Key) -> bool
        ensures { result ≡ is_in key self.now.changes }
    {
        self.changes.has(key)
    }

    /// Whether a key is held or among the changes. A persist of such a key is refused.
    pub fn knows(&self, key: Key) -> bool
        ensures { result ≡ (is_some (held_in self.now.instances.held key) || is_in key
            self.now.changes) }
    {
        // The key is passed twice, which a struct by value is not in a proved body.
        let Key { entity, id } = key;
        self.holds(Key { entity, id }) || self.has_changed(Key { entity, id })
    }

    /// Whether the region of a key is asked before the store.
    pub fn reads(&self, script: &Script, mode: Mode, key: Key) -> bool
        ensures { (mine : Journal) → Knows self.now mine
            → result ≡ may_read script.now mode key mine }
    {
        is_cached(script.mapping.as_slice(), key.entity) && mode.reads() && !self.has_changed(key)
    }

    /// Whether a loaded row of a key is put into its region.
    pub fn puts(&self, script: &Script, mode: Mode, key: Key) -> bool
        ensures { (mine : Journal) → Recalls self.now mine
            → result ≡ may_put script.now mode key mine }
    {
        is_cached(script.mapping.as_slice(), key.entity) && mode.puts() && !self.has_changed(key)
    }

    /// Whether a query may use its kept results: it keeps some, the mode allows it, and the session has changed no
    /// table that it reads.
    pub fn may_use_results(&self, script: &Script, query: QueryNo, by_mode: bool) -> bool
        ensures { (mine : Journal) → Recalls self.now mine
            → result ≡ is_free script.now query by_mode mine }
    {
        is_kept(script, query) && by_mode && !is_touched(script, query, self.changes.as_slice())
    }

    /// Whether a change of one of a query's tables is pending; none if only a plan of a flush tells that.
    fn touches(&self, script: &Script, query: QueryNo) -> Option<bool>
        ensures { IfSome result (λ b. b
            ≡ is_in_tables (tables_of script.now query) (planned self.now.instances)) }
    {
        match query_of(script, query) {
            Some(query) => self.instances.touch(query, script.mapping.len()),
            None => Some(false),
        }
    }

    /// Whether a query is to be preceded by a flush: a change of one of its tables is pending.
    pub fn must_flush(
        &self,
        alloc: Global,
        script: &Script,
        query: QueryNo,
    ) -> Result<bool, AllocError>
        ensures { IfOk result (λ b. (mine : Journal) → Knows self.now mine
            → b ≡ is_in_tables (tables_of script.now query) (pending mine)) }
    {
        if let Some(found) = self.touches(script, query) {
            return Ok(found);
        }
        let changes = plan(alloc, self.instances.map())?;
        Ok(is_touched(script, query, changes.as_slice()))
    }

    /// The version that a lock on a key is to have: that of its base, if the base was read or written in this
    /// transaction.
    fn lock_version(&self, key: &Key, version: Option<u32>) -> Option<u32>
        ensures { result ≡ (if is_key_in key.now self.now.fresh then version else None) }
    {
        if is_among(&self.fresh, *key) {
            version
        } else {
            None
        }
    }

    /// What comes before a write of an update or a delete: nothing, if the key is in the changes already.
    fn before_key(&self, script: &Script, key: &Key, version: Option<u32>) -> Option<Act>
        ensures { acts_of result ≡ before_key_in script.now self.now key.now version }
    {
        if self.has_changed(*key) {
            return None;
        }
        let version = self.lock_version(key, version);
        let strategy = strategy_of(script.mapping.as_slice(), key.entity);
        before_first(strategy, *key, version, self.floor)
    }

    /// What comes before the write of a change.
    fn before(&self, script: &Script, change: &Change) -> Option<Act>
        ensures { acts_of result ≡ before_in script.now self.now change.now }
    {
        match change {
            Change::Insert { .. } => None,
            Change::Update { key, expected, .. } | Change::Delete { key, expected } => {
                self.before_key(script, key, *expected)
            }
        }
    }

    /// Adds the write of a change, and what comes before it.
    fn add_write(&self, script: &Script, acts: &mut Acts, change: Change) -> Result<(), AllocError>
        ensures { OnOk result (acts.new
            ≡ acts.old ++ (before_in script.now self.now change ++ Act.Write change ∷ [])) }
    {
        if let Some(act) = self.before(script, &change) {
            acts.push(act)?;
        }
        acts.push(Act::Write(change))
    }

    /// The acts of a flush that writes these changes.
    fn flush_acts(
        &self,
        alloc: Global,
        script: &Script,
        changes: Changes,
    ) -> Result<Acts, AllocError>
        ensures { IfOk result (λ q. q ≡ flush_in script.now self.now changes) }
    {
        let mut acts = Seq::new(alloc);
        if changes.is_empty() {
            return Ok(acts);
        }
        let tables = tables(alloc, &script.mapping, changes.as_slice())?;
        acts.push(Act::Pre { tables })?;
        for change in changes.into_vec() {
            self.add_write(script, &mut acts, change)?;
        }
        Ok(acts)
    }

    /// The acts of a flush: it writes what is pending.
    pub fn flush(&self, alloc: Global, script: &Script) -> Result<Acts, AllocError>
        ensures { IfOk result (λ q. (mine : Journal) → Knows self.now mine
            → q ≡ flush_of script.now mine (pending mine)) }
    {
        if self.instances.are_untouched() {
            return Ok(Seq::new(alloc));
        }
        let changes = plan(alloc, self.instances.map())?;
        let acts = self.flush_acts(alloc, script, changes)?;
        Ok(acts)
    }

    /// The acts that complete a transaction.
    pub fn completion(
        &self,
        alloc: Global,
        script: &Script,
        mode: Mode,
        committed: bool,
    ) -> Result<Acts, AllocError>
        ensures { IfOk result (λ q. (mine : Journal) → Recalls self.now mine
            → q ≡ completion script.now mode committed mine) }
    {
        let mut acts = acts(
            alloc,
            &script.mapping,
            self.changes.as_slice(),
            &self.locks,
            committed,
            mode,
            self.floor,
        )?;
        acts.push(Act::End)?;
        Ok(acts)
    }
}
