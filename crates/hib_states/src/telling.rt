// The states of a journal: of each entry, why it was refused by what was known before it, and then what it has changed.
ghost use Rattle.std.specs.Prelude.{◌≡◌, ◌∷◌, ◌++◌, Some, IfOk, OnOk, length, reverse, slice_get};
ghost use Rattle.hib_base.specs.Tables.{Tables};
ghost use Rattle.hib_follow.specs.Known.{Knows};
ghost use Rattle.hib_journal.specs.Kept.{past};
ghost use Rattle.hib_journal.specs.Legal.{IsLegal};
ghost use Rattle.hib_journal.specs.Types.{Entry};
ghost use Rattle.std.specs.Prelude.{List};
ghost use Rattle.hib_states.specs.Seats.{AreSeats};
ghost use Rattle.hib_states.specs.States.{entry_text, states_text};

use crate::causes::put_cause;
use crate::changed::put_changed;
use crate::copies::put_copies;
use crate::seats::Seats;
use crate::unsound::put_unsound_keys;
use hib_base::{Entry, Script};
use hib_follow::Known;
use hib_journal::Journal;
use std::alloc::{AllocError, Global};

/// Tells the entry at a place, the next one.
fn put_entry<'a>(
    alloc: Global,
    out: &mut Vec<u8>,
    known: &mut Known<'a>,
    seats: &mut Seats,
    script: &Script,
    entries: &[Entry],
    place: usize,
    entry: &'a Entry,
) -> Result<(), AllocError>
    requires { slice_get entries.now place ≡ Some entry.now }
    ensures text { OnOk result ((start : Tables) (h : List Entry) → length h ≡ place
        → IsLegal script.now (Some start) (entry.now ∷ h) → Knows script.now entries.now h known.old
        → AreSeats script.now h seats.old.sessions.items → out.new.items ≡ out.old.items ++ entry_text script.now start h entry.now) }
    ensures known { OnOk result ((start : Tables) (h : List Entry) → length h ≡ place
        → IsLegal script.now (Some start) (entry.now ∷ h) → Knows script.now entries.now h known.old
        → Knows script.now entries.now (entry.now ∷ h) known.new) }
    ensures seats { OnOk result ((start : Tables) (h : List Entry) → IsLegal script.now (Some start) (entry.now ∷ h)
        → AreSeats script.now h seats.old.sessions.items → AreSeats script.now (entry.now ∷ h) seats.new.sessions.items) }
{
    let number = place as u64 + 1;
    put_cause(alloc, out, script, number, entries, known, entry)?;
    put_unsound_keys(alloc, out, script, number, known, entry)?;
    known.note(alloc, script, entries, place, entry)?;
    seats.note(alloc, script, entry)?;
    put_changed(alloc, out, script, number, entries, known, entry)?;
    put_copies(alloc, out, script, number, seats, entry)?;
    Ok(())
}

/// Tells the entries of a journal, the oldest first.
fn tell_all(alloc: Global, script: &Script, entries: &[Entry]) -> Result<Vec<u8>, AllocError>
    ensures { IfOk result (λ text. (start : Tables) → IsLegal script.now (Some start) (reverse entries.now)
        → text.items ≡ states_text script.now start (reverse entries.now)) }
{
    let mut known = Known::new(alloc);
    let mut seats = Seats::open(alloc, script)?;
    let mut out = Vec::new(alloc);
    for place in 0..entries.len() {
        let entry = &entries[place];
        put_entry(
            alloc, &mut out, &mut known, &mut seats, script, entries, place, entry,
        )?;
    }
    Ok(out)
}

/// The state after each entry, told by what may differ from the state before it, and the cause of each refusal, of a
/// journal that is legal for the script from some rows. Of another journal it is a text too, of which nothing is known.
/// Want of memory alone is an error. A number that is too large is answered as that: a legal journal has none.
#[tactic(auto, unfolding(hib_journal::specs::Kept::past))]
pub fn tell(alloc: Global, script: &Script, journal: &Journal) -> Result<Vec<u8>, AllocError>
    ensures { IfOk result (λ text. (start : Tables) → IsLegal script.now (Some start) (past journal.now)
        → text.items ≡ states_text script.now start (past journal.now)) }
{
    tell_all(alloc, script, journal.as_slice())
}
