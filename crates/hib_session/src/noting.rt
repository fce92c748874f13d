// How a session's memory takes one more entry.
ghost use Rattle.std.specs.Prelude.{◌≡◌, ◌∷◌, [], ◌++◌, OnOk, OnErr, IfOk, IsOk, is_some, true, false, not, ◌||◌, Some, None};
ghost use Rattle.hib_journal.specs.Sessions.{floor_after};
ghost use Rattle.hib_journal.specs.Held.{is_break};
ghost use Rattle.hib_journal.specs.Legal.{outcome_after};
ghost use Rattle.hib_base.specs.declared.entries.Act.{Act};
ghost use Rattle.hib_identity_map.specs.Identity.{change_in, drop_in, written, with_sets, remove_last};
ghost use Rattle.hib_base.specs.Tables.{row_left};
ghost use Rattle.hib_session.specs.Memory.{marked_in, with_value, with_key, made, managed, arrive_in, remove_in, with_pairs, with_room, unless_broken, map_written, marks_written, fresh_written, noted, Fits, brings, has_copies, is_write, takes_room as takes_room_of};

use crate::changed::Changed;
use crate::control::takes_room;
use crate::keyed::{add, put};
use crate::memory::{Memory, is_marked};
use crate::written::Written;
use hib_base::{
    Act, Change, Commit, Entry, Held, Key, Outcome, Reply, Row, Sets, State, Tick, copy_sets,
};
use indexmap::{IndexMap, IndexSet};
use std::alloc::{AllocError, Global};

/// A row that was read, as an instance.
fn read_held(alloc: Global, row: &Row) -> Result<Held, AllocError>
    ensures { IfOk result (λ h. h ≡ managed row.now) }
{
    let base = row.copy(alloc)?;
    let row = row.copy(alloc)?;
    Ok(Held {
        state: State::Managed,
        base: Some(base),
        row,
    })
}

/// A new row, as an instance.
fn made_held(alloc: Global, row: &Row) -> Result<Held, AllocError>
    ensures { IfOk result (λ h. h ≡ made row.now) }
{
    let row = row.copy(alloc)?;
    Ok(Held {
        state: State::New,
        base: None,
        row,
    })
}

impl Memory {
    /// A row that was read arrives, in the place of an instance of the same key. At an error nothing has changed but
    /// the room.
    fn read(&mut self, alloc: Global, key: &Key, row: &Row) -> Result<(), AllocError>
        ensures ok { OnOk result (self.new
            ≡ record self.old {
              instances = with_pairs self.old.instances
                  (arrive_in key.now (managed row.now) self.old.instances.held);
              marks = with_value key.now false self.old.marks;
              fresh = with_key key.now self.old.fresh;
              room = self.new.room;
            }) }
        ensures err { OnErr result (self.new ≡ with_room self.new.room self.old) }
    {
        let held = read_held(alloc, row)?;
        self.marks.reserve(1)?;
        self.fresh.reserve(1)?;
        self.instances.arrive(key, held)?;
        put(&mut self.marks, *key, false);
        add(&mut self.fresh, *key);
        Ok(())
    }

    /// A new row arrives, in the place of an instance of the same key. At an error nothing has changed but the room.
    fn make(&mut self, alloc: Global, key: &Key, row: &Row) -> Result<(), AllocError>
        ensures ok { OnOk result (self.new
            ≡ record self.old {
              instances = with_pairs self.old.instances
                  (arrive_in key.now (made row.now) self.old.instances.held);
              marks = with_value key.now true self.old.marks;
              room = self.new.room;
            }) }
        ensures err { OnErr result (self.new ≡ with_room self.new.room self.old) }
    {
        let held = made_held(alloc, row)?;
        self.marks.reserve(1)?;
        self.instances.make(key, held)?;
        put(&mut self.marks, *key, true);
        Ok(())
    }

    /// A transaction begins. It takes no memory.
    fn begin(&mut self, alloc: Global, entry: &Entry)
        ensures { self.new ≡ record self.old {
          time = entry.now.tick;
          floor = floor_after Act.Begin entry.now.reply self.old.floor;
          changes = [];
          fresh = [];
          room = self.new.room;
        } }
    {
        self.time = entry.tick;
        if let Reply::Began { floor } = &entry.reply {
            self.floor = *floor;
        }
        self.changes = Changed::new(alloc);
        self.fresh = IndexSet::new(alloc);
    }

    /// Empties the identity map. It takes no memory.
    fn clear(&mut self, alloc: Global)
        ensures { self.new ≡ record self.old {
          instances = with_pairs self.old.instances [];
          marks = [];
          room = self.new.room;
        } }
    {
        self.instances.clear();
        self.marks = IndexMap::new(alloc);
    }

    /// Notes how a commit was answered. It takes no memory.
    fn commit(&mut self, alloc: Global, reply: &Reply)
        ensures { self.new ≡ record self.old {
          instances = with_pairs self.old.instances
              (unless_broken (is_break Act.Commit reply.now) self.old.instances.held);
          marks = unless_broken (is_break Act.Commit reply.now) self.old.marks;
          outcome = outcome_after Act.Commit reply.now self.old.outcome;
          room = self.new.room;
        } }
    {
        match reply {
            Reply::Commit(Commit::Committed) => {
                self.outcome = Outcome::Committed;
                return;
            }
            Reply::Commit(Commit::Stale { .. }) => self.outcome = Outcome::Stale,
            Reply::Commit(Commit::Duplicate { .. }) => self.outcome = Outcome::Duplicate,
            Reply::Commit(Commit::Fault) => self.outcome = Outcome::Fault,
            _ => {}
        }
        self.clear(alloc);
    }

    /// Notes an insert that was written: the instance stands for the written row from now on. There must be room for
    /// it. It takes no memory.
    fn insert(&mut self, change: Change, key: &Key, base: Row)
        requires { self.old.room ≡ true }
        ensures { self.new ≡ record self.old {
          instances = with_pairs self.old.instances
              (change_in key.now (written base) self.old.instances.held);
          marks = with_value key.now false self.old.marks;
          fresh = with_key key.now self.old.fresh;
          changes = self.old.changes ++ change ∷ [];
          room = self.new.room;
        } }
    {
        put(&mut self.marks, *key, false);
        add(&mut self.fresh, *key);
        self.changes.push(change);
        self.instances.set_base(key, base);
    }

    /// Notes an update that was written: the instance stands for the written row from now on. There must be room for
    /// it. It takes no memory.
    fn update(&mut self, change: Change, key: &Key, base: Row)
        requires { self.old.room ≡ true }
        ensures { self.new ≡ record self.old {
          instances = with_pairs self.old.instances
              (change_in key.now (written base) self.old.instances.held);
          fresh = with_key key.now self.old.fresh;
          changes = self.old.changes ++ change ∷ [];
          room = self.new.room;
        } }
    {
        add(&mut self.fresh, *key);
        self.changes.push(change);
        self.instances.set_base(key, base);
    }

    /// Notes a delete that was written: the instance leaves. There must be room for it. It takes no memory.
    fn delete(&mut self, change: Change, key: &Key)
        requires { self.old.room ≡ true }
        ensures { self.new ≡ record self.old {
          instances = with_pairs self.old.instances (drop_in key.now self.old.instances.held);
          changes = self.old.changes ++ change ∷ [];
          room = self.new.room;
        } }
    {
        self.changes.push(change);
        self.instances.drop(key);
    }

    /// Notes a change that was written. There must be room for it. It takes no memory.
    fn write(&mut self, written: Written)
        requires { self.old.room ≡ true }
        ensures { written.base ≡ row_left written.change → self.new ≡ record self.old {
          instances = map_written written.change self.old.instances;
          marks = marks_written written.change self.old.marks;
          fresh = fresh_written written.change self.old.fresh;
          changes = self.old.changes ++ written.change ∷ [];
          room = self.new.room;
        } }
    {
        let Written { change, base } = written;
        let key = change.key();
        match (&change, base) {
            (Change::Insert { .. }, Some(base)) => self.insert(change, &key, base),
            (Change::Update { .. }, Some(base)) => self.update(change, &key, base),
            (_, _) => self.delete(change, &key),
        }
    }

    /// Notes that a row was removed: its instance leaves if it was never written, and else is marked.
    fn remove(&mut self, key: &Key) -> Result<(), AllocError>
        ensures ok { OnOk result (self.new
            ≡ record self.old {
              instances = record {
                held = remove_in
                    (marked_in key.now self.old.marks) key.now self.old.instances.held;
                removals = remove_last key.now self.old.instances.removals;
              };
            }) }
        ensures err { OnErr result (self.new ≡ self.old) }
    {
        self.instances.remove(key, is_marked(&self.marks, *key))
    }

    /// Sets cells of a row in its instance.
    fn set(&mut self, alloc: Global, key: &Key, sets: &Sets) -> Result<(), AllocError>
        ensures ok { OnOk result (self.new
            ≡ record self.old {
              instances = with_pairs self.old.instances
                  (change_in key.now (with_sets sets.now) self.old.instances.held);
            }) }
        ensures err { OnErr result (self.new ≡ self.old) }
    {
        let sets = copy_sets(alloc, sets)?;
        self.instances.set_cells(alloc, key, sets)
    }

    /// Notes a lock that was given. There must be room for it.
    fn lock(&mut self, key: Key, lock: Tick)
        requires { self.old.room ≡ true }
        ensures { self.new ≡ record self.old {
          locks = with_value key lock self.old.locks;
          room = self.new.room;
        } }
    {
        put(&mut self.locks, key, lock);
    }

    /// Notes a change that was written. There must be room for it. If its copies are there, it takes no memory.
    fn write_copied(
        &mut self,
        alloc: Global,
        change: &Change,
        copies: Option<Written>,
    ) -> Result<(), AllocError>
        requires { self.old.room ≡ true }
        ensures ok { OnOk result (Fits copies (Act.Write change.now) → self.new ≡ record self.old {
          instances = map_written change.now self.old.instances;
          marks = marks_written change.now self.old.marks;
          fresh = fresh_written change.now self.old.fresh;
          changes = self.old.changes ++ change.now ∷ [];
          room = self.new.room;
        }) }
        ensures err { OnErr result (self.new ≡ self.old) }
        ensures room { is_some copies ≡ true → IsOk result }
    {
        let written = match copies {
            Some(written) => written,
            None => Written::of(alloc, change)?,
        };
        self.write(written);
        Ok(())
    }

    /// Takes one more entry. If it must find room, the room must be there. At an error nothing has changed but the
    /// room.
    fn take(
        &mut self,
        alloc: Global,
        entry: &Entry,
        copies: Option<Written>,
    ) -> Result<(), AllocError>
        requires { (not (takes_room_of entry.now.act) || self.old.room) ≡ true }
        ensures ok { OnOk result (Fits copies entry.now.act
            → self.new ≡ with_room self.new.room (noted self.old entry.now)) }
        ensures err { OnErr result (self.new ≡ with_room self.new.room self.old) }
        ensures room { brings entry.now.act ≡ false → has_copies copies entry.now.act ≡ true
            → IsOk result }
    {
        match &entry.act {
            Act::Write(change) => self.write_copied(alloc, change, copies),
            _ => self.take_other(alloc, entry),
        }
    }

    /// Takes an entry, which must be no write. At an error nothing has changed but the room.
    fn take_other(&mut self, alloc: Global, entry: &Entry) -> Result<(), AllocError>
        requires room { (not (takes_room_of entry.now.act) || self.old.room) ≡ true }
        requires other { is_write entry.now.act ≡ false }
        ensures ok { OnOk result (self.new ≡ with_room self.new.room (noted self.old entry.now)) }
        ensures err { OnErr result (self.new ≡ with_room self.new.room self.old) }
        ensures room { brings entry.now.act ≡ false → IsOk result }
    {
        match (&entry.act, &entry.reply) {
            (Act::Persist { key, row }, Reply::New) => self.make(alloc, key, row),
            (Act::Load { key }, Reply::Row(Some(row))) => self.read(alloc, key, row),
            (Act::Get { key, .. }, Reply::Hit(row)) => self.read(alloc, key, row),
            (Act::Set { key, cells }, Reply::Set) => self.set(alloc, key, cells),
            (Act::Remove { key }, Reply::Removed) => self.remove(key),
            (Act::Lock { key, .. }, Reply::Locked(lock)) => {
                self.lock(*key, lock.id);
                Ok(())
            }
            (Act::Begin, _) => {
                self.begin(alloc, entry);
                Ok(())
            }
            (Act::Commit, reply) => {
                self.commit(alloc, reply);
                Ok(())
            }
            (Act::Rollback, _) => {
                self.clear(alloc);
                self.outcome = Outcome::RolledBack;
                Ok(())
            }
            (Act::Clear, _) => {
                self.clear(alloc);
                Ok(())
            }
            _ => Ok(()),
        }
    }

    /// Takes one more entry. `copies` are those of a write, if they were made. If there is room, or the entry needs
    /// none, it takes memory only for what the entry brings. At an error nothing has changed but the room.
    pub fn note(
        &mut self,
        alloc: Global,
        entry: &Entry,
        copies: Option<Written>,
    ) -> Result<(), AllocError>
        ensures ok { OnOk result (Fits copies entry.now.act
            → self.new ≡ with_room self.new.room (noted self.old entry.now)) }
        ensures err { OnErr result (self.new ≡ with_room self.new.room self.old) }
        ensures room { (not (takes_room_of entry.now.act) || self.old.room) ≡ true
            → brings entry.now.act ≡ false
            → has_copies copies entry.now.act ≡ true → IsOk result }
    {
        self.reserve(takes_room(&entry.act))?;
        self.take(alloc, entry, copies)
    }
}
