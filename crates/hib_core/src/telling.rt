// The listeners of a factory hear of its newest entry.
ghost use Rattle.std.specs.Prelude.{◌≡◌, [], ◌∷◌, ◌++◌, List, is_ok, not, false};
ghost use Rattle.hib_base.specs.declared.entries.Entry.{Entry};
ghost use Rattle.hib_journal.specs.Kept.{past};
ghost use Rattle.hib_journal.specs.Sessions.{Journal as Past};
ghost use Rattle.hib_listeners.specs.Heard.{HaveHeard};
ghost use Rattle.hib_listeners.specs.Told.{Told, tells, AreTold};

use hib_journal::Journal;
use hib_listeners::{Listeners, telling_goes_on};
use hib_outside::Listener;
use std::alloc::{AllocError, Global};

/// Tells the newest entry of a journal to the listeners. If one has no memory for it, `deaf` notes that.
pub fn tell<L: Listener>(
    alloc: Global,
    journal: &Journal,
    listeners: &mut Listeners<L>,
    deaf: &mut bool,
) -> Result<(), AllocError>
    requires hears { deaf.old ≡ false }
    ensures deaf { deaf.new ≡ not (is_ok result) }
    ensures told { (e : Entry) (h : Past) → past journal.now ≡ e ∷ h
        → AreTold e (is_ok result) (tells L.heard L.left listeners.old) (tells L.heard L.left
        listeners.new) }
    ensures heard { (start : List Told) (e : Entry) (h : Past) (es : List Entry)
        → past journal.now ≡ e ∷ h → journal.now.list ≡ es ++ e ∷ []
        → HaveHeard false es start (tells L.heard L.left listeners.old)
        → HaveHeard deaf.new journal.now.list start (tells L.heard L.left listeners.new) }
{
    telling_goes_on();
    let Some(entry) = journal.last() else {
        return Ok(());
    };
    let told = listeners.tell(alloc, entry);
    *deaf = told.is_err();
    told
}
