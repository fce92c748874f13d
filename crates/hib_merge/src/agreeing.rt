// Whether the lists of sessions agree with a merged list, and whether its ticks are those that are due. hib_joined asks
// it before it takes the merged list for the journal of a run.
ghost use Rattle.std.specs.Prelude.{◌≡◌, ◌↔◌, true, length, option_copied, IfOk, IsNone, MatchOption};
ghost use Rattle.std.specs.List.{list_all};
ghost use Rattle.hib_merge.specs.declared.tearing.Torn.{Torn};
ghost use Rattle.hib_merge.specs.Tearing.{AreSameBelow, IsFirstUnknown, IsSessionTorn, IsTorn, IsWhole};

use crate::Lists;
use crate::differences::difference;
use crate::placing::own_lists;
use crate::tearing::Torn;
use crate::ticks::torn_tick;
use hib_base::Entry;
use hib_journal::Journal;
use std::alloc::{AllocError, Global};

/// In the first session whose list differs from its entries: what each has at the first place where they do. None if no
/// list differs.
fn parted<'a>(
    alloc: Global,
    mine: &'a [Journal],
    entries: &'a [Entry],
) -> Result<Option<(Option<&'a Entry>, Option<&'a Entry>)>, AllocError>
    ensures { IfOk result (λ o. MatchOption o (AreSameBelow (length mine.now) mine.now entries.now)
        (λ t. IsSessionTorn mine.now entries.now (option_copied t.0) (option_copied t.1))) }
{
    let owns = own_lists(alloc, entries, mine.len())?;
    for s in 0..mine.len() {
        let listed = mine[s].as_slice();
        let own = &owns[s];
        if let Some(place) = difference(listed, own) {
            return Ok(Some((listed.get(place), own.get(place))));
        }
    }
    Ok(None)
}

/// Torn lists, with copies of what they have where they part.
fn torn_lists(
    alloc: Global,
    mine: Option<&Entry>,
    part: Option<&Entry>,
) -> Result<Option<Torn>, AllocError>
    ensures { IfOk result (λ o. o ≡ Some (Torn.Lists (option_copied mine.entry) (option_copied part.entry))) }
{
    let mine = copy_of(alloc, mine)?;
    let part = copy_of(alloc, part)?;
    Ok(Some(Torn::Lists { mine, part }))
}

/// A copy of an entry, if there is one.
fn copy_of(alloc: Global, entry: Option<&Entry>) -> Result<Option<Entry>, AllocError>
    ensures { IfOk result (λ e. e ≡ option_copied entry.entry) }
{
    match entry {
        Some(entry) => Ok(Some(entry.copy(alloc)?)),
        None => Ok(None),
    }
}

/// Whether an entry is of one of the first `count` sessions.
fn is_known(count: usize, entry: &Entry) -> bool
    ensures { result ≡ Rattle.hib_merge.specs.Tearing.is_known count entry.now }
{
    match entry.session {
        Some(session) => (session.0 as usize) < count,
        None => false,
    }
}

/// The first entry that is of none of the first `count` sessions, or none.
fn first_unknown(count: usize, entries: &[Entry]) -> Option<&Entry>
    ensures { MatchOption result (list_all
        (Rattle.hib_merge.specs.Tearing.is_known count) entries.now ≡ true)
        (λ e. IsFirstUnknown count entries.now e.now) }
{
    for entry in entries {
        if !is_known(count, entry) {
            return Some(entry);
        }
    }
    None
}

/// The first thing that is wrong, for `agree`.
fn first_torn(alloc: Global, merged: &Journal, mine: &Lists) -> Result<Option<Torn>, AllocError>
    ensures { IfOk result (λ o. MatchOption o (IsWhole mine.now merged.now)
        (IsTorn mine.now merged.now)) }
{
    let _count = merged.len();
    let entries = merged.as_slice();
    let lists = mine.as_slice();
    if let Some((listed, own)) = parted(alloc, lists, entries)? {
        return torn_lists(alloc, listed, own);
    }
    if let Some(entry) = first_unknown(lists.len(), entries) {
        return torn_lists(alloc, None, Some(entry));
    }
    torn_tick(alloc, entries)
}

/// Checks a merged list against the lists of the sessions. These came out of locks, of which only the type is known.
/// None if all is well: each session's list, which stands at the place of its number, is its entries in the merged
/// list; each entry is of one of these sessions; each tick is the one that is due. Else the first thing that is wrong,
/// looked for in this order: in the first session whose list differs, what each has at the first place where they do;
/// the first entry of none of the sessions; the first entry with another tick. Fails for want of memory alone.
pub fn agree(alloc: Global, merged: &Journal, mine: &Lists) -> Result<Option<Torn>, AllocError>
    ensures torn { IfOk result (λ o. MatchOption o (IsWhole mine.now merged.now)
        (IsTorn mine.now merged.now)) }
    ensures exact { IfOk result (λ o. IsNone o ↔ IsWhole mine.now merged.now) }
{
    first_torn(alloc, merged, mine)
}
