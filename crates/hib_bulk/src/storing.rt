// What the store does for a bulk line: it changes the committed rows that meet the line's condition.
ghost use Rattle.std.specs.Prelude.{◌≡◌, ◌≤◌, true, None, Ok, IfOk, IfSome, OnErr};
ghost use Rattle.hib_base.specs.Tables.{in_order};
ghost use Rattle.hib_outside.specs.Causes.{Rose};
ghost use Rattle.hib_store.specs.Stores.{MeetsBelow};
ghost use Rattle.hib_engines.specs.Store.{IsCounted};
ghost use Rattle.hib_bulk_law.specs.Rows.{bulk_changes};
ghost use Rattle.hib_bulk.specs.Changed.{IsChanged, is_fault};

use crate::changing::changes_of;
use hib_base::{Changes, Commit, Reply};
use hib_bulk_law::{BulkDef, BulkReply, bulks_are_changes};
use hib_engines::StoreEngine;
use hib_outside::Keeper;
use std::alloc::{AllocError, Global};

/// The changes that a line makes to the committed rows, in order of keys. None only if the keeper failed. Nothing
/// changes but the keeper's counts.
fn changes_due<K: Keeper>(
    alloc: Global,
    store: &mut StoreEngine<K>,
    line: &BulkDef,
) -> Result<Option<Changes>, AllocError>
    requires below { MeetsBelow store.old.entities line.now.entity line.now.condition }
    ensures changes { IfOk result (λ o. IfSome o (λ cs. IfSome store.old.tables
        (λ m. (in_order m ≡ true) × (cs ≡ bulk_changes line.now m)))) }
    ensures fault { result ≡ Ok None → Rose store.old.faults store.new.faults }
    ensures entities { store.new.entities ≡ store.old.entities }
    ensures still { IsCounted store.old store.new }
{
    if !store.ready_index(alloc)? {
        return Ok(None);
    }
    let Some(rows) = store.rows_met(alloc, line.entity, &line.condition)? else {
        return Ok(None);
    };
    let changes = changes_of(alloc, line, rows.as_slice())?;
    Ok(Some(changes))
}

/// The reply to a line whose changes are this many, by what the store has answered to them.
fn answer(commit: Commit, rows: u64) -> BulkReply
    ensures { result ≡ Rattle.hib_bulk.specs.Changed.answer_of commit rows }
{
    match commit {
        Commit::Committed => BulkReply::Changed { rows },
        Commit::Stale { .. } | Commit::Duplicate { .. } => BulkReply::Changed { rows: 0 },
        Commit::Fault => BulkReply::Plain(Reply::Fault),
    }
}

/// Changes the committed rows that meet a line's condition, all of them or none, and answers how many they are. A fault
/// is answered only if the keeper failed, and changes no row. If the keeper doesn't tell its rows, the count may also
/// be 0 because the changes didn't apply. What sessions have written stays. At an error nothing has changed, but for
/// the keeper's counts.
pub fn change_rows<K: Keeper>(
    alloc: Global,
    store: &mut StoreEngine<K>,
    line: &BulkDef,
) -> Result<BulkReply, AllocError>
    requires below { MeetsBelow store.old.entities line.now.entity line.now.condition }
    ensures changed { IfOk result (λ r. IsChanged line.now r store.old store.new) }
    ensures fault { IfOk result (λ r. is_fault r ≡ true → Rose store.old.faults store.new.faults) }
    ensures faults { store.old.faults ≤ store.new.faults }
    ensures entities { store.new.entities ≡ store.old.entities }
    ensures err { OnErr result (IsCounted store.old store.new) }
{
    bulks_are_changes();
    let Some(changes) = changes_due(alloc, store, line)? else {
        return Ok(BulkReply::Plain(Reply::Fault));
    };
    if changes.is_empty() {
        return Ok(BulkReply::Changed { rows: 0 });
    }
    let commit = store.apply(alloc, changes.as_slice())?;
    Ok(answer(commit, changes.len() as u64))
}
