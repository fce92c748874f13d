// The tables that a completion stamps, and a flush before its writes.
ghost use Rattle.std.specs.Prelude.{◌≡◌, ◌==◌, IfOk, MatchOption, false, true};
ghost use Rattle.std.specs.List.{list_any};
ghost use Rattle.hib_base.specs.Tables.{key_of};
ghost use Rattle.hib_completion.specs.Completed.{tables_by};

use hib_base::{Change, EntityNo, Mapping, Names, Seq};
use std::alloc::{AllocError, Global};

/// The entity of this number, if one of the changes is of it.
fn touched(changes: &[Change], number: usize) -> Option<EntityNo>
    ensures { MatchOption result (list_any (λ c. (key_of c).entity == number) changes.now ≡ false)
        (λ e. (e ≡ number) × (list_any (λ c. (key_of c).entity == number) changes.now ≡ true)) }
{
    for change in changes {
        let entity = change.key().entity;
        if entity.0 as usize == number {
            return Some(entity);
        }
    }
    None
}

/// The entities of these changes, in the order of the mapping. Fails for want of memory alone.
pub fn tables(alloc: Global, mapping: &Mapping, changes: &[Change]) -> Result<Names, AllocError>
    ensures { IfOk result (λ n. n ≡ tables_by mapping.now changes.now) }
{
    let mut names = Seq::new(alloc);
    for number in 0..mapping.len() {
        if let Some(entity) = touched(changes, number) {
            names.push(entity)?;
        }
    }
    Ok(names)
}
