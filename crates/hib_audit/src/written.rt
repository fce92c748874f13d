// What a session has written in its transaction, by which the audit knows where a fault may be answered.
ghost use Rattle.std.specs.Prelude.{◌≡◌, ◌↔◌, IsTrue, [], Some, OnOk, List, if◌then◌else◌, true};
ghost use Rattle.hib_base.specs.Keys.{same_key};
ghost use Rattle.hib_base.specs.declared.replies.Reply.{Reply};
ghost use Rattle.hib_base.specs.declared.replies.Commit.{Commit};
ghost use Rattle.hib_journal.specs.Types.{Change};
ghost use Rattle.hib_journal.specs.Sessions.{changes_after};
ghost use Rattle.hib_journal.specs.Legal.{fault_of};
ghost use Rattle.hib_audit.specs.Standing.{has_key, HasWritten};

use hib_base::{Act, Commit, Key, Reply};
use std::alloc::{AllocError, Global};
use std::collections::HashSet;
use std::marker::Model;

/// The keys that a session has changed since its last Begin, and whether there is one.
#[derive(Drop)]
pub struct Written {
    keys: HashSet<Key>,
    any: bool,
}

impl Model for Written {
    ghost use Rattle.hib_audit.specs.Standing.{WrittenState};

    ghost Value = { WrittenState };

    ghost view = { λ w. record { keys = w.keys.keys; any = w.any } };
}

/// Adds a key to those that are changed.
fn add(keys: &mut HashSet<Key>, key: Key) -> Result<(), AllocError>
    ensures { OnOk result ((k : Rattle.hib_journal.specs.Types.Key)
        → has_key k keys.new.keys ≡ (if same_key key k then true else has_key k keys.old.keys)) }
{
    keys.insert(key)?;
    Ok(())
}

impl Written {
    /// Nothing was changed. It takes no memory.
    pub fn new(alloc: Global) -> Written
        ensures { HasWritten [] result }
    {
        Written {
            keys: HashSet::new(alloc),
            any: false,
        }
    }

    fn has(&self, key: Key) -> bool
        ensures { result ≡ has_key key self.now.keys }
    {
        self.keys.contains(&key)
    }

    /// Whether this reply to an act is a fault that may be: to a Load of a key that isn't changed, to a List, or to a
    /// Commit of some changes.
    pub fn may_fail(&self, act: &Act, reply: &Reply) -> bool
        ensures { (cs : List Change) → HasWritten cs self.now → IsTrue result
            ↔ (fault_of cs act.now ≡ Some reply.now) }
    {
        match act {
            Act::Load { key } => !self.has(*key) && is_fault(reply),
            Act::List { .. } => is_fault(reply),
            Act::Commit => self.any && is_commit_fault(reply),
            _ => false,
        }
    }

    /// Notes an act of the session.
    pub fn note(&mut self, alloc: Global, act: &Act) -> Result<(), AllocError>
        ensures { OnOk result ((cs : List Change) → HasWritten cs self.old
            → HasWritten (changes_after act.now cs) self.new) }
    {
        match act {
            Act::Begin => {
                *self = Written::new(alloc);
                Ok(())
            }
            Act::Write(change) => {
                add(&mut self.keys, change.key())?;
                self.any = true;
                Ok(())
            }
            _ => Ok(()),
        }
    }
}

fn is_fault(reply: &Reply) -> bool
    ensures { IsTrue result ↔ (reply.now ≡ Reply.Fault) }
{
    matches!(reply, Reply::Fault)
}

fn is_commit_fault(reply: &Reply) -> bool
    ensures { IsTrue result ↔ (reply.now ≡ Reply.Commit Commit.Fault) }
{
    match reply {
        Reply::Commit(commit) => *commit == Commit::Fault,
        _ => false,
    }
}
