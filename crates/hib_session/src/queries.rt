// Which tables a query reads, to know whether it must be preceded by a flush, and whether kept results may answer it.
ghost use Rattle.std.specs.Prelude.{◌≡◌, length, slice_get, false, option_copied};
ghost use Rattle.std.specs.Option.{option_map_or};
ghost use Rattle.hib_journal.specs.Next.{is_in_tables, tables_of};
ghost use Rattle.hib_session.specs.Queries.{touches as touching, touching_in};

use hib_base::{Change, Query, QueryNo, Script};
use hib_journal::reads;

/// Whether one of the changes is of a table that a query reads.
fn touches(query: &Query, entities: usize, changes: &[Change]) -> bool
    ensures { result ≡ touching entities query.now changes.now }
{
    for change in changes {
        let entity = change.key().entity;
        if (entity.0 as usize) < entities && reads(query, entity) {
            return true;
        }
    }
    false
}

/// The query of a number; an undeclared one has none.
pub fn query_of(script: &Script, query: QueryNo) -> Option<&Query>
    ensures { option_copied result ≡ slice_get script.now.queries query }
{
    script.queries.as_slice().get(query.0 as usize)
}

// For `is_touched`, by a test of each change.
fn touches_named(script: &Script, query: QueryNo, changes: &[Change]) -> bool
    ensures { result ≡ touching_in (length script.now.mapping)
        (slice_get script.now.queries query) changes.now }
{
    match query_of(script, query) {
        Some(query) => touches(query, script.mapping.len(), changes),
        None => false,
    }
}

/// Whether one of the changes is of a table of a query; an undeclared query has none.
pub fn is_touched(script: &Script, query: QueryNo, changes: &[Change]) -> bool
    ensures { result ≡ is_in_tables (tables_of script.now query) changes.now }
{
    touches_named(script, query, changes)
}

/// Whether results are kept of a query; of an undeclared one none are.
pub fn is_cached(script: &Script, query: QueryNo) -> bool
    ensures { result ≡ option_map_or (λ d. d.cached) (slice_get script.now.queries query) false }
{
    match query_of(script, query) {
        Some(query) => query.cached,
        None => false,
    }
}
