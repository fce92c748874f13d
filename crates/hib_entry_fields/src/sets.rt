// The columns with their cells that bytes look like, as the act of a set has them.
ghost use Rattle.hib_entry_fields.specs.Fields as format;
ghost use Rattle.std.specs.Prelude.{◌≡◌, IfOk, length, option_map};

use crate::cells::cell_at;
use crate::fields::{after_one, next};
use crate::names::column_of;
use hib_base::{Cell, EntityNo, Script, Seq, Sets};
use std::alloc::{AllocError, Global};

// The column and the cell at the front, and what follows them; none if there is no cell.
#[tactic(auto, unfolding(crate::specs::Fields::set_at))]
fn set_at<'a>(
    alloc: Global,
    script: &Script,
    entity: EntityNo,
    bytes: &'a [u8],
) -> Result<Option<((u16, Cell), &'a [u8])>, AllocError>
    ensures { IfOk result (λ o. option_map (λ x. (x.0, x.1.now)) o
        ≡ format.set_at script.now entity bytes.now) }
{
    let (name, rest) = next(bytes);
    match cell_at(alloc, after_one(rest))? {
        Some((cell, rest)) => Ok(Some(((column_of(script, entity, name), cell), rest))),
        None => Ok(None),
    }
}

/// The columns of an entity with their cells, one after the other. Fails for want of memory alone.
pub fn sets_of(
    alloc: Global,
    script: &Script,
    entity: EntityNo,
    bytes: &[u8],
) -> Result<Sets, AllocError>
    ensures { IfOk result (λ s. s ≡ format.sets_from script.now entity
        (length bytes.now) bytes.now) }
{
    let mut sets = Vec::new(alloc);
    let mut rest = bytes;
    for _ in 0..bytes.len() {
        match set_at(alloc, script, entity, rest)? {
            None => return Ok(Seq::from_vec(sets)),
            Some((set, after)) => {
                sets.push(set)?;
                rest = after;
            }
        }
    }
    Ok(Seq::from_vec(sets))
}
