// Which tables a query reads.
ghost use Rattle.std.specs.Prelude.{◌≡◌, ◌==◌, false};
ghost use Rattle.std.specs.Option.{option_map_or};
ghost use Rattle.hib_journal.specs.Query.{mentions, reads};

use hib_base::{Cond, EntityNo, Query, Target};

/// Whether a path steps to an entity.
fn steps_to(entity: EntityNo, target: Option<Target>) -> bool
    ensures { result ≡ option_map_or (λ g. g.entity == entity) target false }
{
    match target {
        Some(target) => target.entity == entity,
        None => false,
    }
}

/// Whether a condition steps to an entity.
pub fn mentions(entity: EntityNo, condition: &Cond) -> bool
    ensures { result ≡ mentions entity condition.now }
{
    match condition {
        Cond::And(first, second) | Cond::Or(first, second) => mentions(entity, first)
            || mentions(entity, second),
        Cond::Not(only) => mentions(entity, only),
        Cond::Test { path, .. } | Cond::Among { path, .. } => steps_to(entity, path.target),
    }
}

/// Whether a query reads an entity's table: its own, and those to which its condition steps.
pub fn reads(query: &Query, entity: EntityNo) -> bool
    ensures { result ≡ reads query.now entity }
{
    query.entity == entity
        || match &query.condition {
            Some(condition) => mentions(entity, condition),
            None => false,
        }
}
