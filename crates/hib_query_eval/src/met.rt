// Which rows of an entity meet a condition: the rows that a bulk line changes.
ghost use Rattle.std.specs.Prelude.{◌≡◌, map, true, IfOk};
ghost use Rattle.std.specs.List.{filter};
ghost use Rattle.hib_base.specs.Tables.{in_order};
ghost use Rattle.hib_query_eval.specs.Met.{meets, met};

use crate::view::View;
use crate::{conditions, searches};
use hib_base::{Cond, EntityNo, Key, Row};
use std::alloc::{AllocError, Global};

/// Whether a row is one of an entity and meets a condition.
#[inline]
fn is_met(entity: EntityNo, condition: &Option<Cond>, view: &View<'_>, row: &(Key, Row)) -> bool
    ensures { result ≡ meets entity condition.now view.now row.now }
{
    row.0.entity == entity && conditions::meets(view, &row.1, condition)
}

/// Of some rows of a view those that are of this entity and meet a condition.
fn met_of<'a>(
    alloc: Global,
    entity: EntityNo,
    condition: &Option<Cond>,
    rows: &'a [(Key, Row)],
    view: &View<'_>,
) -> Result<Vec<&'a (Key, Row)>, AllocError>
    ensures { IfOk result (λ v. map (λ r. r.now) v.items
        ≡ filter (meets entity condition.now view.now) rows.now) }
{
    let mut met = Vec::new(alloc);
    for row in rows {
        if is_met(entity, condition, view, row) {
            met.push(row)?;
        }
    }
    Ok(met)
}

/// Of rows, which must stand in order of keys, those of an entity that meet a condition, if there is one. Fails for
/// want of memory alone.
pub fn rows_met<'a>(
    alloc: Global,
    entity: EntityNo,
    condition: &Option<Cond>,
    rows: &'a [(Key, Row)],
) -> Result<Vec<&'a (Key, Row)>, AllocError>
    requires { in_order rows.now ≡ true }
    ensures { IfOk result (λ v. map (λ r. r.now) v.items ≡ met entity condition.now rows.now) }
{
    let view = View::of(rows);
    let own = searches::of_entity(rows, entity);
    met_of(alloc, entity, condition, own, &view)
}
