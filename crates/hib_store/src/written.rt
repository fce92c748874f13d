// The changes that sessions have written and not committed, by session.
ghost use Rattle.std.specs.Prelude.{◌≡◌, ◌<◌, ◌++◌, ◌∷◌, ◌==◌, if◌then◌else◌, ℕ, [], OnOk, OnErr, option_copied};
ghost use Rattle.hib_base.specs.Keys.{same_key};
ghost use Rattle.hib_base.specs.Tables.{last_on};
ghost use Rattle.hib_store.specs.Stores.{changes_in, or_none};

use hib_base::{Change, Key, Query, SessionNo};
use hib_query_eval::Own;
use indexmap::IndexMap;
use std::alloc::{AllocError, Global};

/// The changes of the sessions that have written some, by the sessions' numbers.
pub type Written = IndexMap<SessionNo, Own>;

/// The changes of a session.
pub fn changes_of(written: &Written, session: SessionNo) -> &[Change]
    ensures { result.now ≡ changes_in written.now.entries session }
{
    match written.get(&session) {
        Some(changes) => changes.as_slice(),
        None => &[],
    }
}

/// The changes of a session, if it has some, with what they leave.
pub fn own_of(written: &Written, session: SessionNo) -> Option<&Own>
    ensures { or_none (option_copied result) ≡ changes_in written.now.entries session }
{
    written.get(&session)
}

/// Makes what a session's changes leave ready for a query, if the session has changes.
pub fn lay(
    alloc: Global,
    written: &mut Written,
    session: SessionNo,
    query: &Query,
) -> Result<(), AllocError>
    ensures { written.new.entries ≡ written.old.entries }
{
    let Some(index) = written.get_index_of(&session) else {
        return Ok(());
    };
    written[index].lay(alloc, query)
}

/// Adds the first change of a session, which must have none.
fn add_first(
    alloc: Global,
    written: &mut Written,
    session: SessionNo,
    change: Change,
) -> Result<(), AllocError>
    requires { changes_in written.old.entries session ≡ [] }
    ensures ok { OnOk result ((s : ℕ)
        → changes_in written.new.entries s
        ≡ (if session == s then changes_in written.old.entries s ++ change ∷ []
        else changes_in written.old.entries s)) }
    ensures err { OnErr result (written.new.entries ≡ written.old.entries) }
{
    let mut changes = Own::new(alloc);
    changes.push(alloc, change)?;
    written.insert(session, changes)?;
    Ok(())
}

/// Adds a change to those of a session.
pub fn add_change(
    alloc: Global,
    written: &mut Written,
    session: SessionNo,
    change: Change,
) -> Result<(), AllocError>
    ensures ok { OnOk result ((s : ℕ)
        → changes_in written.new.entries s
        ≡ (if session == s then changes_in written.old.entries s ++ change ∷ []
        else changes_in written.old.entries s)) }
    ensures err { OnErr result (written.new.entries ≡ written.old.entries) }
{
    let Some(index) = written.get_index_of(&session) else {
        return add_first(alloc, written, session, change);
    };
    written[index].push(alloc, change)
}

/// Drops the changes of a session. It takes no memory.
pub fn drop_session(written: &mut Written, session: SessionNo)
    ensures { (s : ℕ) → changes_in written.new.entries s
        ≡ (if session == s then [] else changes_in written.old.entries s) }
{
    written.swap_remove(&session);
}

fn is_same(a: &Key, b: &Key) -> bool
    ensures { result ≡ same_key a.now b.now }
{
    a == b
}

/// The last change on a key.
pub fn last_change<'a>(changes: &'a [Change], key: &Key) -> Option<&'a Change>
    ensures { option_copied result ≡ last_on key.now changes.now }
{
    let mut at = changes.len();
    while at > 0 {
        at -= 1;
        let change = &changes[at];
        if is_same(&change.key(), key) {
            return Some(change);
        }
    }
    None
}
