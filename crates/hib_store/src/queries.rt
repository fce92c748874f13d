// Which tables a query reads, for the keeper and for the index.
ghost use Rattle.std.specs.Prelude.{◌≡◌, ◌<◌, ◌||◌, ℕ, true, nat_lt, IfOk, OnOk, ◌==◌, false};
ghost use Rattle.std.specs.Option.{option_map_or};
ghost use Rattle.hib_journal.specs.Query.{mentions, reads};
ghost use Rattle.hib_outside.specs.Keeps.{is_listed};
ghost use Rattle.hib_store.specs.Stores.{ReadsBelow};

use hib_base::{Cond, EntityNo, Query, Target};
use std::alloc::{AllocError, Global};

/// The entities that a query reads, each once: its own, and those to which its condition steps.
/// Fails for want of memory alone.
pub fn tables_of(alloc: Global, query: &Query) -> Result<Vec<EntityNo>, AllocError>
    ensures { IfOk result (λ v. (n : ℕ) → is_listed n v.items ≡ reads query.now n) }
{
    let mut tables = vec![in alloc; query.entity]?;
    if let Some(condition) = &query.condition {
        add_steps(&mut tables, condition)?;
    }
    Ok(tables)
}

/// Adds the entities to which a condition steps.
fn add_steps(tables: &mut Vec<EntityNo>, condition: &Cond) -> Result<(), AllocError>
    ensures { OnOk result ((n : ℕ)
        → is_listed n tables.new.items
        ≡ (is_listed n tables.old.items || mentions n condition.now)) }
{
    match condition {
        Cond::And(a, b) | Cond::Or(a, b) => {
            add_steps(tables, a)?;
            add_steps(tables, b)
        }
        Cond::Not(a) => add_steps(tables, a),
        Cond::Test { path, .. } => add_target(tables, path.target),
        Cond::Among { path, .. } => add_target(tables, path.target),
    }
}

/// Adds the entity of a target, unless it is there.
fn add_target(tables: &mut Vec<EntityNo>, target: Option<Target>) -> Result<(), AllocError>
    ensures { OnOk result ((n : ℕ)
        → is_listed n tables.new.items
        ≡ (is_listed n tables.old.items || option_map_or (λ g. g.entity == n) target false)) }
{
    if let Some(target) = target {
        if !tables.contains(&target.entity) {
            tables.push(target.entity)?;
        }
    }
    Ok(())
}

/// Whether a path steps to no other entity than the first ones.
fn steps_below(target: Option<Target>, entities: u16) -> bool
    ensures only { result ≡ true → (n : ℕ) → option_map_or (λ g. g.entity == n) target false ≡ true
        → n < entities }
    ensures others { ((n : ℕ) → option_map_or (λ g. g.entity == n) target false ≡ true
        → n < entities) → result ≡ true }
{
    match target {
        Some(target) => target.entity.0 < entities,
        None => true,
    }
}

/// Whether a condition steps only to the first entities.
fn mentions_below(condition: &Cond, entities: u16) -> bool
    ensures only { result ≡ true → (n : ℕ) → mentions n condition.now ≡ true → n < entities }
    ensures others { ((n : ℕ) → mentions n condition.now ≡ true → n < entities) → result ≡ true }
{
    match condition {
        Cond::And(a, b) | Cond::Or(a, b) => mentions_below(a, entities)
            && mentions_below(b, entities),
        Cond::Not(a) => mentions_below(a, entities),
        Cond::Test { path, .. } => steps_below(path.target, entities),
        Cond::Among { path, .. } => steps_below(path.target, entities),
    }
}

/// Whether a query reads only the first entities. Then it is answered from the index.
pub fn reads_below(query: &Query, entities: u16) -> bool
    ensures only { result ≡ true → ReadsBelow entities query.now }
    ensures others { ReadsBelow entities query.now → result ≡ true }
{
    query.entity.0 < entities
        && match &query.condition {
            Some(condition) => mentions_below(condition, entities),
            None => true,
        }
}

/// The first entities, as a list for the keeper.
pub fn entities_below(alloc: Global, entities: u16) -> Result<Vec<EntityNo>, AllocError>
    ensures { IfOk result (λ v. (n : ℕ) → is_listed n v.items ≡ nat_lt n entities) }
{
    let mut all = Vec::new(alloc);
    for entity in 0..entities {
        all.push(EntityNo(entity))?;
    }
    Ok(all)
}
