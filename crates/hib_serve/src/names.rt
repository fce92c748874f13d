// Sessions by the names that the application gives them.
ghost use Rattle.hib_live.specs.Live.{LiveState};
ghost use Rattle.hib_serve.specs.Sessions.{number_in, with_named};
ghost use Rattle.hib_statements.specs.Places.{or_place, place_of};
ghost use Rattle.indexmap.specs.IndexMap.{insert_entry, spare};
ghost use Rattle.std.specs.Prelude.{◌≡◌, ◌<◌, ℕ, IfOk, List, None, OnErr, OnOk, Some, bytes_eq, if◌then◌else◌};

use hib_base::SessionNo;
use hib_live::{LiveCore, Name};
use hib_outside::Keeper;
use indexmap::IndexMap;
use std::alloc::{AllocError, Global};

/// The number of each session that a name has begun.
pub type Names = IndexMap<Vec<u8>, SessionNo>;

/// The number of the session that a name has begun, if it has.
pub fn number_of(names: &Names, name: &[u8]) -> Option<SessionNo>
    ensures { result ≡ place_of name.now names.now.entries }
{
    names.get(name).copied()
}

// Notes the number of a name's session. There must be room for it. It takes no memory.
fn put(names: &mut Names, name: Vec<u8>, number: SessionNo)
    requires { 0 < spare names.old }
    ensures { names.new.entries
        ≡ insert_entry (λ a b. bytes_eq a.items b.items) names.old.entries name number }
{
    names.insert(name, number).unwrap();
}

// Begins the session of a name that has none. At an error nothing has changed.
fn begin<K: Keeper, N: Name>(
    alloc: Global,
    core: &mut LiveCore<K, N>,
    names: &mut Names,
    name: &[u8],
) -> Result<SessionNo, AllocError>
    requires { place_of name.now names.old.entries ≡ None }
    ensures number { IfOk result (λ n. n ≡ number_in core.old.script None) }
    ensures script { OnOk result (core.new.script ≡ with_named core.old.script None) }
    ensures journal { core.new.journal ≡ core.old.journal }
    ensures names { IfOk result (λ n. (w : List ℕ) → place_of w names.new.entries
        ≡ or_place (place_of w names.old.entries)
        (if bytes_eq w name.now then Some n else None)) }
    ensures core { OnErr result (core.new ≡ core.old) }
    ensures err { OnErr result (names.new.entries ≡ names.old.entries) }
{
    let key = Vec::from_slice(alloc, name)?;
    names.reserve(1)?;
    let number = core.begin(alloc)?;
    put(names, key, number);
    Ok(number)
}

/// The session of a name, which begins if the name has none. At an error, which is want of memory or too many sessions,
/// nothing has changed.
pub fn session_of<K: Keeper, N: Name>(
    alloc: Global,
    core: &mut LiveCore<K, N>,
    names: &mut Names,
    name: &[u8],
) -> Result<SessionNo, AllocError>
    ensures number { IfOk result (λ n. n
        ≡ number_in core.old.script (place_of name.now names.old.entries)) }
    ensures script { OnOk result (core.new.script
        ≡ with_named core.old.script (place_of name.now names.old.entries)) }
    ensures journal { core.new.journal ≡ core.old.journal }
    ensures names { IfOk result (λ n. (w : List ℕ) → place_of w names.new.entries
        ≡ or_place (place_of w names.old.entries)
        (if bytes_eq w name.now then Some n else None)) }
    ensures core { OnErr result (core.new ≡ core.old) }
    ensures err { OnErr result (names.new.entries ≡ names.old.entries) }
{
    match number_of(names, name) {
        Some(number) => Ok(number),
        None => begin(alloc, core, names, name),
    }
}
