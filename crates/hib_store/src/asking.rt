// What the store asks its keeper, and what it makes of the keeper's answers.
ghost use Rattle.std.specs.Prelude.{◌≡◌, ◌≢◌, ◌+◌, ◌≤◌, length, true, [], Ok, None, IfOk, IfSome, IsSome, OnOk};
ghost use Rattle.hib_base.specs.Tables.{commit_answer};
ghost use Rattle.hib_outside.specs.Causes.{Rose};
ghost use Rattle.hib_outside.specs.Verdicts.{commit_of, IsPlace};
ghost use Rattle.hib_query_eval.specs.Reads.{read_by};
ghost use Rattle.hib_store.specs.Stores.{IsIndexed, IsListed, IsView, names_change, tables_committed};
ghost use Rattle.hib_store.specs.declared.asking.Loaded.{Loaded};
ghost use Rattle.hib_store.specs.declared.store.Listed.{Listed};
ghost use Rattle.hib_store.specs.Types.{Commit};

use crate::store::Listed;
use crate::{queries, views};
use hib_base::{Change, Commit, Key, Query, Row, Rows};
use hib_outside::{Applied, KeepFault, Keeper};
use hib_query_eval::Index;
use std::alloc::{AllocError, Global};

/// The store's answer to a load.
#[derive(Drop)]
pub enum Loaded {
    /// The session's view of the key: its row, or none.
    Row(Option<Row>),
    /// The keeper failed.
    Fault,
}

/// Asks a keeper for the row of a key.
pub fn read<K: Keeper>(alloc: Global, keeper: &mut K, key: Key) -> Result<Loaded, AllocError>
    ensures view { IfOk result (IsView (K.tables keeper.old) [] key) }
    ensures fault { result ≡ Ok Loaded.Fault → Rose (K.faults keeper.old) (K.faults keeper.new) }
    ensures faults { K.faults keeper.old ≤ K.faults keeper.new }
    ensures asked { (K.asked keeper.old ≤ K.asked keeper.new)
        × (K.asked keeper.new ≤ K.asked keeper.old + 1) }
    ensures tables { K.tables keeper.new ≡ K.tables keeper.old }
{
    match keeper.read(alloc, key) {
        Ok(row) => Ok(Loaded::Row(row)),
        Err(KeepFault::NoMemory) => Err(AllocError),
        Err(KeepFault::Failed) => Ok(Loaded::Fault),
    }
}

/// Asks a keeper for the rows of the tables that a query reads. None if the keeper failed.
fn list<K: Keeper>(alloc: Global, keeper: &mut K, query: &Query) -> Result<Option<Rows>, AllocError>
    ensures rows { IfOk result (λ found. IfSome found
        (λ rows. IfSome (K.tables keeper.old) (λ m. rows ≡ read_by query.now m))) }
    ensures fault { result ≡ Ok None → Rose (K.faults keeper.old) (K.faults keeper.new) }
    ensures faults { K.faults keeper.old ≤ K.faults keeper.new }
    ensures asked { (K.asked keeper.old ≤ K.asked keeper.new)
        × (K.asked keeper.new ≤ K.asked keeper.old + 1) }
    ensures tables { K.tables keeper.new ≡ K.tables keeper.old }
{
    let tables = queries::tables_of(alloc, query)?;
    match keeper.list(alloc, tables.as_slice()) {
        Ok(rows) => Ok(Some(rows)),
        Err(KeepFault::NoMemory) => Err(AllocError),
        Err(KeepFault::Failed) => Ok(None),
    }
}

/// Asks a keeper for the rows of the tables that a query reads, and gives what the query gives over them with changes
/// laid over them. A fault if the keeper failed.
pub fn listed<K: Keeper>(
    alloc: Global,
    keeper: &mut K,
    query: &Query,
    changes: &[Change],
) -> Result<Listed, AllocError>
    ensures listed { IfOk result (IsListed (K.tables keeper.old) changes.now query.now) }
    ensures fault { result ≡ Ok Listed.Fault
        → Rose (K.faults keeper.old) (K.faults keeper.new) }
    ensures faults { K.faults keeper.old ≤ K.faults keeper.new }
    ensures asked { (K.asked keeper.old ≤ K.asked keeper.new)
        × (K.asked keeper.new ≤ K.asked keeper.old + 1) }
    ensures tables { K.tables keeper.new ≡ K.tables keeper.old }
{
    let Some(rows) = list(alloc, keeper, query)? else {
        return Ok(Listed::Fault);
    };
    Ok(Listed::List(views::listed(alloc, query, rows, changes)?))
}

/// Asks a keeper for the rows of the first entities, and makes an index of them. None if the keeper failed.
fn index<K: Keeper>(
    alloc: Global,
    keeper: &mut K,
    entities: u16,
) -> Result<Option<Index>, AllocError>
    ensures rows { IfOk result (λ index. IsIndexed entities index (K.tables keeper.old)) }
    ensures fault { result ≡ Ok None → Rose (K.faults keeper.old) (K.faults keeper.new) }
    ensures faults { K.faults keeper.old ≤ K.faults keeper.new }
    ensures asked { (K.asked keeper.old ≤ K.asked keeper.new)
        × (K.asked keeper.new ≤ K.asked keeper.old + 1) }
    ensures tables { K.tables keeper.new ≡ K.tables keeper.old }
{
    let all = queries::entities_below(alloc, entities)?;
    match keeper.list(alloc, all.as_slice()) {
        Ok(rows) => {
            let rows = hib_outside::laid_over(alloc, rows, &[])?;
            Ok(Some(Index::build(alloc, rows)?))
        }
        Err(KeepFault::NoMemory) => Err(AllocError),
        Err(KeepFault::Failed) => Ok(None),
    }
}

/// Makes an index of the rows of the first entities, unless it stands; then the keeper isn't asked. There is none
/// afterwards only if the keeper failed.
pub fn make_index<K: Keeper>(
    alloc: Global,
    keeper: &mut K,
    index: &mut Option<Index>,
    entities: u16,
) -> Result<(), AllocError>
    ensures rows { IsIndexed entities index.old (K.tables keeper.old)
        → IsIndexed entities index.new (K.tables keeper.old) }
    ensures stands { IsSome index.old → (keeper.new ≡ keeper.old) × (index.new ≡ index.old) }
    ensures fault { OnOk result (index.new ≡ None
        → Rose (K.faults keeper.old) (K.faults keeper.new)) }
    ensures faults { K.faults keeper.old ≤ K.faults keeper.new }
    ensures asked { (K.asked keeper.old ≤ K.asked keeper.new)
        × (K.asked keeper.new ≤ K.asked keeper.old + 1) }
    ensures tables { K.tables keeper.new ≡ K.tables keeper.old }
{
    if index.is_none() {
        *index = self::index(alloc, keeper, entities)?;
    }
    Ok(())
}

/// Has a keeper apply changes to its rows.
#[tactic(auto, using(crate::proofs::Answers::answer_told))]
pub fn apply<K: Keeper>(
    alloc: Global,
    keeper: &mut K,
    changes: &[Change],
) -> Result<Commit, AllocError>
    ensures answer { IfOk result (λ answer. answer ≢ Commit.Fault
        → IfSome (K.tables keeper.old) (λ m. answer ≡ commit_answer changes.now m)) }
    ensures named { IfOk result (λ answer. names_change changes.now answer ≡ true) }
    ensures fault { result ≡ Ok Commit.Fault → Rose (K.faults keeper.old) (K.faults keeper.new) }
    ensures faults { K.faults keeper.old ≤ K.faults keeper.new }
    ensures asked { K.asked keeper.new ≡ K.asked keeper.old }
    ensures tables { K.tables keeper.new
        ≡ tables_committed result changes.now (K.tables keeper.old) }
{
    match keeper.apply(alloc, changes) {
        Ok(applied) => Ok(answer(changes, applied)),
        Err(KeepFault::NoMemory) => Err(AllocError),
        Err(KeepFault::Failed) => Ok(Commit::Fault),
    }
}

/// The answer to a commit, by what the keeper has answered.
fn answer(changes: &[Change], applied: Applied) -> Commit
    requires { IsPlace applied (length changes.now) }
    ensures value { result ≡ commit_of changes.now applied }
    ensures named { names_change changes.now result ≡ true }
    ensures no_fault { result ≢ Commit.Fault }
{
    match applied {
        Applied::Done => Commit::Committed,
        Applied::Stale { at, found, .. } => Commit::Stale {
            key: changes[at].key(),
            found,
        },
        Applied::Duplicate { at } => Commit::Duplicate {
            key: changes[at].key(),
        },
    }
}
