// Which tables a query reads, to know whether a session's own changes matter to it.
ghost use Rattle.std.specs.Prelude.{◌≡◌, ◌||◌, ℕ, false};
ghost use Rattle.std.specs.Option.{option_map_or};
ghost use Rattle.std.specs.List.{list_any};
ghost use Rattle.hib_base.specs.Tables.{Tables, key_of, after_changes};
ghost use Rattle.hib_journal.specs.Query.{mentions, reads, gives};

use hib_base::{Change, Cond, Query};
use hib_journal::{mentions, reads};

/// Whether changes touch a table that a query reads.
pub fn is_touched(query: &Query, changes: &[Change]) -> bool
    ensures { result ≡ list_any (λ c. reads query.now (key_of c).entity) changes.now }
{
    for change in changes {
        if reads(query, change.key().entity) {
            return true;
        }
    }
    false
}

/// Whether a condition steps to any table.
fn steps(condition: &Cond) -> bool
    ensures { result ≡ false → (n : ℕ) → mentions n condition.now ≡ false }
{
    match condition {
        Cond::And(first, second) | Cond::Or(first, second) => steps(first) || steps(second),
        Cond::Not(only) => steps(only),
        Cond::Test { path, .. } | Cond::Among { path, .. } => path.target.is_some(),
    }
}

/// Whether a query's condition steps to any table.
pub fn steps_anywhere(query: &Query) -> bool
    ensures { result ≡ false → (n : ℕ) → option_map_or (mentions n) query.now.condition false
        ≡ false }
{
    match &query.condition {
        Some(condition) => steps(condition),
        None => false,
    }
}

/// Whether changes touch a table to which a condition steps.
fn is_stepped(condition: &Cond, changes: &[Change]) -> bool
    ensures { result ≡ list_any (λ c. mentions (key_of c).entity condition.now) changes.now }
{
    if !steps(condition) {
        return false;
    }
    for change in changes {
        if mentions(change.key().entity, condition) {
            return true;
        }
    }
    false
}

/// Whether changes touch a table to which a query's condition steps.
pub fn touches_steps(query: &Query, changes: &[Change]) -> bool
    ensures { result ≡ option_map_or (λ q. list_any (λ c. mentions (key_of c).entity q) changes.now)
        query.now.condition false }
{
    match &query.condition {
        Some(condition) => is_stepped(condition, changes),
        None => false,
    }
}
