// What a query gives over a session's view, and what becomes of the index at a commit.
ghost use Rattle.std.specs.Prelude.{◌≡◌, ◌≢◌, ◌<◌, ℕ, true, map, Option, None, Some, Ok, IfOk, IfSome, IsSome, is_some, MatchOption, MatchResult};
ghost use Rattle.hib_base.specs.Tables.{Tables, after_changes, in_order};
ghost use Rattle.hib_journal.specs.Query.{gives, reads};
ghost use Rattle.hib_query_eval.specs.Met.{met};
ghost use Rattle.hib_query_eval.specs.Reads.{read_by};
ghost use Rattle.hib_store.specs.declared.store.Listed.{Listed};
ghost use Rattle.hib_store.specs.Stores.{IsIndexed, IsListed, MeetsBelow, StandsAfter, index_left};
ghost use Rattle.hib_store.specs.Types.{Commit};

use crate::store::Listed;
use hib_base::{Change, Commit, Cond, EntityNo, Key, Listing, Query, Row, Rows};
use hib_query_eval::{Index, Own};
use std::alloc::{AllocError, Global};

/// What a query gives over the rows of the tables that it reads, with changes laid over them.
pub fn listed(
    alloc: Global,
    query: &Query,
    rows: Rows,
    changes: &[Change],
) -> Result<Listing, AllocError>
    ensures { (m : Tables) → in_order m ≡ true → rows ≡ read_by query.now m
        → IfOk result (λ l. l ≡ gives query.now (after_changes changes.now m)) }
{
    let view = hib_outside::laid_over(alloc, rows, changes)?;
    hib_query_eval::gives(alloc, query, &view)
}

/// Makes an index ready for a query, if there is an index. Fails for want of memory alone.
pub fn ready(alloc: Global, index: &mut Option<Index>, query: &Query) -> Result<(), AllocError>
    ensures { index.new ≡ index.old }
{
    match index {
        Some(index) => index.ready(alloc, query),
        None => Ok(()),
    }
}

/// What a query gives over the rows of an index with a session's own changes laid over them; a fault if there is no
/// index.
pub fn answered(
    alloc: Global,
    index: &Option<Index>,
    query: &Query,
    own: &Own,
) -> Result<Listed, AllocError>
    ensures listed { (n : ℕ) (told : Option Tables) → IfSome told (λ m. in_order m ≡ true)
        → IsIndexed n index.now told → ((k : ℕ) → reads query.now k ≡ true → k < n)
        → IfOk result (IsListed told own.now query.now) }
    ensures fault { result ≡ Ok Listed.Fault → index.now ≡ None }
    ensures stands { IfOk result (λ listed. listed ≢ Listed.Fault → IsSome index.now) }
{
    match index {
        Some(index) => Ok(Listed::List(index.gives(alloc, query, own)?)),
        None => Ok(Listed::Fault),
    }
}

/// The rows of an index that are of this entity and meet a condition; none if there is no index.
pub fn rows_met<'a>(
    alloc: Global,
    index: &'a Option<Index>,
    entity: EntityNo,
    condition: &Option<Cond>,
) -> Result<Option<Vec<&'a (Key, Row)>>, AllocError>
    ensures met { (n : ℕ) (told : Option Tables) → IfSome told (λ m. in_order m ≡ true)
        → IsIndexed n index.now told → MeetsBelow n entity condition.now
        → IfOk result (λ o. IfSome o (λ v. IfSome told
        (λ m. map (λ r. r.now) v.items ≡ met entity condition.now m))) }
    ensures none { IfOk result (λ o. is_some o ≡ is_some index.now) }
{
    match index {
        Some(index) => Ok(Some(index.rows_met(alloc, entity, condition)?)),
        None => Ok(None),
    }
}

/// The index after the changes of a commit that was answered so, for `left`. None after a fault, and if its rows don't
/// have what the changes change.
fn after(
    alloc: Global,
    index: Index,
    commit: &Commit,
    changes: &[Change],
) -> Result<Option<Index>, AllocError>
    ensures { MatchResult result (λ left. left ≡ index_left commit.now changes.now index)
        (λ _. commit.now ≡ Commit.Committed) }
{
    match commit {
        Commit::Committed => index.apply(alloc, changes),
        Commit::Stale { .. } | Commit::Duplicate { .. } => Ok(Some(index)),
        Commit::Fault => Ok(None),
    }
}

/// The index after an answer to a commit of changes. It is dropped after a fault, if there is no memory to change it,
/// and if its rows don't have what the changes change.
pub fn left(
    alloc: Global,
    index: Option<Index>,
    commit: &Commit,
    changes: &[Change],
) -> Option<Index>
    ensures rows { IfSome result (λ left. MatchOption index ⊥
        (λ rows. index_left commit.now changes.now rows ≡ Some left)) }
    ensures stands { StandsAfter commit.now (is_some index) (is_some result) }
{
    let index = index?;
    match after(alloc, index, commit, changes) {
        Ok(left) => left,
        Err(_) => None,
    }
}
