// The tables that a query reads, for the check of a kept result against their stamps.
ghost use Rattle.std.specs.Prelude.{◌≡◌, ◌<◌, ◌^◌, length, IfOk};
ghost use Rattle.hib_journal.specs.Next.{tables_of as tables_in};
ghost use Rattle.hib_outside.specs.Keeps.{is_listed};

use hib_base::{EntityNo, QueryNo, Script};
use std::alloc::{AllocError, Global};

/// Whether this entity is among these.
fn is_among(entities: &[EntityNo], entity: EntityNo) -> bool
    ensures { result ≡ is_listed entity entities.now }
{
    entities.contains(&entity)
}

/// The tables of a query of the script, in the mapping's order; none of a query that isn't there.
pub fn tables_of(
    alloc: Global,
    script: &Script,
    query: QueryNo,
) -> Result<Vec<EntityNo>, AllocError>
    requires few { length script.now.mapping < 2 ^ 16 }
    ensures { IfOk result (λ v. v.items ≡ tables_in script.now query) }
{
    let mut tables = Vec::new(alloc);
    let Some(query) = script.queries.as_slice().get(query.0 as usize) else {
        return Ok(tables);
    };
    let read = hib_store::tables_of(alloc, query)?;
    for number in 0..script.mapping.len() {
        let entity = EntityNo(number as u16);
        if is_among(read.as_slice(), entity) {
            tables.push(entity)?;
        }
    }
    Ok(tables)
}
