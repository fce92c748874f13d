// The listeners hear of what a step of `collect` did.
ghost use Rattle.std.specs.Prelude.{◌≡◌, ◌∷◌, is_ok, not, false};
ghost use Rattle.hib_listeners.specs.Told.{tells, AreTold};
ghost use Rattle.hib_collections_law.specs.declared.entries.GatherEntry.{GatherEntry};
ghost use Rattle.hib_collections_law.specs.Types.{Gathered as Past};
ghost use Rattle.hib_collections.specs.Kept.{past};
ghost use Rattle.hib_collections.specs.Run.{told_in};
ghost use Rattle.hib_collections.specs.Gather.{AreHeard};

use crate::gathered::Gathered;
use crate::turns::Turned;
use hib_base::Entry;
use hib_collections_law::GatherEntry;
use hib_listeners::Listeners;
use hib_outside::Listener;
use std::alloc::{AllocError, Global};

/// Tells an entry to the listeners. If one has no memory for it, `deaf` notes that.
fn tell_entry<L: Listener>(
    alloc: Global,
    entry: &Entry,
    listeners: &mut Listeners<L>,
    deaf: &mut bool,
) -> Result<(), AllocError>
    ensures deaf { deaf.new ≡ not (is_ok result) }
    ensures told { AreTold entry.now (is_ok result) (tells L.heard L.left listeners.old)
        (tells L.heard L.left listeners.new) }
{
    let told = listeners.tell(alloc, entry);
    *deaf = told.is_err();
    told
}

/// Tells the entry of a session's plan that a turn added, or the one that its hit stands for. If it added any other,
/// nothing is told. If a listener has no memory for it, `deaf` notes that.
pub fn tell<L: Listener>(
    alloc: Global,
    turned: &Turned,
    journal: &Gathered,
    listeners: &mut Listeners<L>,
    deaf: &mut bool,
) -> Result<(), AllocError>
    requires hears { deaf.old ≡ false }
    ensures deaf { deaf.new ≡ not (is_ok result) }
    ensures told { (x : GatherEntry) (g : Past) → past journal.now ≡ x ∷ g
        → AreHeard (told_in turned.now x) (is_ok result) (tells L.heard L.left listeners.old)
        (tells L.heard L.left listeners.new) }
{
    if let Turned::Hit(entry) = turned {
        return tell_entry(alloc, entry, listeners, deaf);
    }
    match journal.last() {
        Some(GatherEntry::Plain(entry)) => tell_entry(alloc, entry, listeners, deaf),
        _ => Ok(()),
    }
}
