// What a session is given over the rows of the index: the list that it was given last, or one that is looked up.
ghost use Rattle.std.specs.Prelude.{◌≡◌, ◌≢◌, ℕ, true, Option, None, Ok, IfOk, IfSome, IsSome};
ghost use Rattle.hib_base.specs.Tables.{Tables, in_order};
ghost use Rattle.hib_store.specs.Last.{Stands};
ghost use Rattle.hib_store.specs.Stores.{changes_in, IsIndexed, IsListed, ReadsBelow};
ghost use Rattle.hib_store.specs.declared.store.Listed.{Listed};

use crate::last_list::{self, LastList};
use crate::store::Listed;
use crate::views;
use crate::written::{self, Written};
use hib_base::{Query, SessionNo};
use hib_query_eval::{Index, Own};
use std::alloc::{AllocError, Global};

/// Makes the index, if it stands, and what a session's changes leave ready for a query.
fn make_ready(
    alloc: Global,
    index: &mut Option<Index>,
    written: &mut Written,
    session: SessionNo,
    query: &Query,
) -> Result<(), AllocError>
    ensures index { index.new ≡ index.old }
    ensures written { written.new.entries ≡ written.old.entries }
{
    views::ready(alloc, index, query)?;
    written::lay(alloc, written, session, query)
}

/// What a query gives over the rows of the index with a session's own changes laid over them; a fault if the index
/// doesn't stand. If the session has changes, the list becomes the one that was given last.
fn looked_up(
    alloc: Global,
    index: &Option<Index>,
    written: &Written,
    last: &mut Option<LastList>,
    session: SessionNo,
    query: &Query,
) -> Result<Listed, AllocError>
    ensures listed { (n : ℕ) (told : Option Tables) → IfSome told (λ m. in_order m ≡ true)
        → IsIndexed n index.now told → ReadsBelow n query.now
        → IfOk result (IsListed told (changes_in written.now.entries session) query.now) }
    ensures last { (n : ℕ) (told : Option Tables) → IfSome told (λ m. in_order m ≡ true)
        → IsIndexed n index.now told → ReadsBelow n query.now
        → IfSome last.old (Stands told written.now.entries)
        → IfSome last.new (Stands told written.now.entries) }
    ensures fault { result ≡ Ok Listed.Fault → index.now ≡ None }
    ensures stands { IfOk result (λ listed. listed ≢ Listed.Fault → IsSome index.now) }
{
    let Some(own) = written::own_of(written, session) else {
        return views::answered(alloc, index, query, &Own::new(alloc));
    };
    let listed = views::answered(alloc, index, query, own)?;
    *last = last_list::kept(alloc, session, query, &listed)?;
    Ok(listed)
}

/// What a query gives over the rows of the index with a session's own changes laid over them; a fault if the index
/// doesn't stand. A list that stands from the last time is given again.
pub fn list(
    alloc: Global,
    index: &mut Option<Index>,
    written: &mut Written,
    last: &mut Option<LastList>,
    session: SessionNo,
    query: &Query,
) -> Result<Listed, AllocError>
    ensures listed { (n : ℕ) (told : Option Tables) → IfSome told (λ m. in_order m ≡ true)
        → IsIndexed n index.old told → ReadsBelow n query.now
        → IfSome last.old (Stands told written.old.entries)
        → IfOk result (IsListed told (changes_in written.old.entries session) query.now) }
    ensures last { (n : ℕ) (told : Option Tables) → IfSome told (λ m. in_order m ≡ true)
        → IsIndexed n index.old told → ReadsBelow n query.now
        → IfSome last.old (Stands told written.old.entries)
        → IfSome last.new (Stands told written.old.entries) }
    ensures index { index.new ≡ index.old }
    ensures written { written.new.entries ≡ written.old.entries }
    ensures fault { result ≡ Ok Listed.Fault → index.old ≡ None }
    ensures stands { IfOk result (λ listed. listed ≢ Listed.Fault → IsSome index.old) }
{
    if index.is_some() {
        if let Some(list) = last_list::again(alloc, last, session, query)? {
            return Ok(Listed::List(list));
        }
    }
    make_ready(alloc, index, written, session, query)?;
    looked_up(alloc, index, written, last, session, query)
}
