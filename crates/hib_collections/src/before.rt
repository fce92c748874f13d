// What comes before an act that is due in a session by its plan: an act at an owner of a collection, or nothing.
ghost use Rattle.std.specs.Prelude.{◌≡◌, ◌≤◌, ◌∷◌, [], length};
ghost use Rattle.hib_base.specs.declared.entries.Act.{Act};
ghost use Rattle.hib_base.specs.declared.scripts.Script.{Script as Said};
ghost use Rattle.hib_journal.specs.Sessions.{Journal};
ghost use Rattle.hib_journal.specs.Next.{is_in_tables};
ghost use Rattle.hib_session.specs.Session.{Follows};
ghost use Rattle.hib_collections_law.specs.Types.{Gathered, max_collections};
ghost use Rattle.hib_collections_law.specs.Gathered as Law;
ghost use Rattle.hib_collections_law.specs.Gathered.{due_end, due_for, due_list, due_write, is_changed, locks_in};
ghost use Rattle.hib_collections_law.specs.Gathered.{missed};
ghost use Rattle.hib_collections.specs.Notes.{AreNoted};
ghost use Rattle.hib_collections.specs.Before.{IsKnown, due_by};

use crate::notes::Notes;
use crate::owners::{asked, to_lock};
use crate::places::OwnerPlace;
use hib_base::{Act, Change, EntityNo, QueryNo, Script, Tick};
use hib_collections_law::Defs;
use hib_session::Session;

/// What comes before an act that is due in a session.
pub enum Before {
    /// Nothing: the act itself is next.
    Nothing,
    /// The collection of a list is asked for its members.
    Get(OwnerPlace),
    /// The owner of a row that is to be written is locked.
    Lock(OwnerPlace),
    /// A lock is given back.
    Unlock(OwnerPlace, Tick),
}

/// Whether one of the changes is of this entity.
fn is_touched(entity: EntityNo, changes: &[Change]) -> bool
    ensures { result ≡ is_in_tables (entity ∷ []) changes.now }
{
    for change in changes {
        if change.key().entity == entity {
            return true;
        }
    }
    false
}

/// The collection and the owner that a query of the script asks for; none if it asks for no members of a collection.
fn asked_by(script: &Script, defs: &Defs, query: QueryNo) -> Option<OwnerPlace>
    requires few { length defs.now ≤ max_collections }
    ensures { result ≡ Law.asked_by script.now defs.now query }
{
    match script.queries.as_slice().get(usize::from(query.0)) {
        Some(query) => asked(defs, query),
        None => None,
    }
}

/// Whether the session has changed rows of the entity that the members of a collection are of. Then it asks the store
/// itself.
fn has_changed(defs: &Defs, session: &Session, place: OwnerPlace) -> bool
    ensures { (script : Said) (mine : Journal) → Follows script session.now mine
        → result ≡ is_changed defs.now mine place.0 }
{
    match defs.as_slice().get(usize::from(place.collection)) {
        Some(def) => is_touched(def.entity, session.changes()),
        None => false,
    }
}

/// What comes before a list. If it is a list of members, their collection is asked first; not if it has just refused
/// them, and not if the session has changed rows of their entity.
fn before_list(
    script: &Script,
    defs: &Defs,
    session: &Session,
    notes: &Notes,
    query: QueryNo,
) -> Before
    requires few { length defs.now ≤ max_collections }
    ensures { (told : Said) (mine : Journal) (own : Gathered) → Follows told session.now mine
        → AreNoted notes.now own
        → due_list defs.now (Law.asked_by script.now defs.now query)
        (missed own) (Act.List query) mine ≡ due_by result (Act.List query) mine }
{
    if notes.has_missed() {
        return Before::Nothing;
    }
    match asked_by(script, defs, query) {
        Some(place) => {
            if has_changed(defs, session, place) {
                Before::Nothing
            } else {
                Before::Get(place)
            }
        }
        None => Before::Nothing,
    }
}

/// What comes before a write: a lock on each owner whose members it may change, one in each step.
fn before_write(defs: &Defs, session: &Session, notes: &Notes, change: &Change) -> Before
    requires few { length defs.now ≤ max_collections }
    ensures { (script : Said) (mine : Journal) (own : Gathered) → Follows script session.now mine
        → AreNoted notes.now own → IsKnown mine (Act.Write change.now)
        → due_write (Law.to_lock defs.now change.now mine (locks_in own)) change.now mine
        ≡ due_by result (Act.Write change.now) mine }
{
    let old = session.base(change.key());
    match to_lock(defs, change, old, notes.locks()) {
        Some(place) => Before::Lock(place),
        None => Before::Nothing,
    }
}

/// What comes before the end of a transaction: each lock is given back, one in each step.
fn before_end(notes: &Notes) -> Before
    ensures { (mine : Journal) (own : Gathered) → AreNoted notes.now own
        → due_end (locks_in own) ≡ due_by result Act.End mine }
{
    match notes.locks().first() {
        Some((place, lock)) => Before::Unlock(place, lock),
        None => Before::Nothing,
    }
}

/// What comes before an act that is due in a session.
pub fn comes_before(
    script: &Script,
    defs: &Defs,
    session: &Session,
    notes: &Notes,
    act: &Act,
) -> Before
    requires few { length defs.now ≤ max_collections }
    ensures { (mine : Journal) (own : Gathered) → Follows script.now session.now mine
        → AreNoted notes.now own → IsKnown mine act.now
        → due_for script.now defs.now act.now mine own ≡ due_by result act.now mine }
{
    match act {
        Act::List { query } => before_list(script, defs, session, notes, *query),
        Act::Write(change) => before_write(defs, session, notes, change),
        Act::End => before_end(notes),
        _ => Before::Nothing,
    }
}
