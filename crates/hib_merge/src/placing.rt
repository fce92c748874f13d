// The entries of each session in a merged list, to compare them with the list that the session left.
ghost use Rattle.std.specs.Prelude.{◌≡◌, ◌<◌, ◌++◌, ◌∷◌, ◌==◌, ℕ, [], if◌then◌else◌, length, IfOk, OnOk};
ghost use Rattle.hib_journal.specs.Sessions.{own, is_by};
ghost use Rattle.hib_split_law.specs.Merged.{list_of};

use crate::pointed::Pointed;
use hib_base::Entry;
use std::alloc::{AllocError, Global};

/// This many empty lists.
fn empty_lists<'a>(alloc: Global, count: usize) -> Result<Vec<Pointed<'a>>, AllocError>
    ensures all { IfOk result (λ v. length v.items ≡ count) }
    ensures empty { IfOk result (λ v. (s : ℕ) → list_of s v.items ≡ []) }
{
    let mut lists = Vec::new(alloc);
    for _at in 0..count {
        lists.push(Pointed::new(alloc))?;
    }
    Ok(lists)
}

/// Adds an entry to the list at this place, if there is such a list.
fn place_at<'a>(lists: &mut Vec<Pointed<'a>>, at: usize, entry: &'a Entry) -> Result<(), AllocError>
    ensures all { OnOk result (length lists.new.items ≡ length lists.old.items) }
    ensures placed { OnOk result ((s : ℕ) → s < length lists.old.items
        → list_of s lists.new.items ≡ list_of s lists.old.items ++ (if at == s
        then entry.now ∷ [] else [])) }
{
    if at >= lists.len() {
        return Ok(());
    }
    lists[at].push(entry)
}

/// Adds an entry to the list of its session, if there is such a list.
fn place<'a>(lists: &mut Vec<Pointed<'a>>, entry: &'a Entry) -> Result<(), AllocError>
    ensures all { OnOk result (length lists.new.items ≡ length lists.old.items) }
    ensures placed { OnOk result ((s : ℕ) → s < length lists.old.items
        → list_of s lists.new.items ≡ list_of s lists.old.items ++ (if is_by s entry.now
        then entry.now ∷ [] else [])) }
{
    match entry.session {
        Some(session) => place_at(lists, session.0 as usize, entry),
        None => Ok(()),
    }
}

/// For each of the first `count` sessions the list of its entries.
pub fn own_lists<'a>(
    alloc: Global,
    entries: &'a [Entry],
    count: usize,
) -> Result<Vec<Pointed<'a>>, AllocError>
    ensures all { IfOk result (λ v. length v.items ≡ count) }
    ensures lists { IfOk result (λ v. (s : ℕ) → s < count → list_of s v.items ≡ own s entries.now) }
{
    let mut lists = empty_lists(alloc, count)?;
    for entry in entries {
        place(&mut lists, entry)?;
    }
    Ok(lists)
}
