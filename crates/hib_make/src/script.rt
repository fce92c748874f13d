// The script of a seed, as `make` runs it.
ghost use Rattle.std.specs.Prelude.{◌≡◌, true, IfOk};
ghost use Rattle.hib_base.specs.Valid.{is_valid};
ghost use Rattle.hib_make.specs.Made.{made};

use crate::draws::Draws;
use crate::entities::mapping;
use crate::queries::queries;
use crate::rows::rows;
use crate::sessions::{schedule, sessions};
use hib_base::Script;
use std::alloc::{AllocError, Global};

/// The script that is made of a seed: six entities, 112 rows, four queries, 40 sessions and 400 orders. It is valid.
/// Fails for want of memory alone.
#[tactic(auto, unfolding(crate::specs::Made::made))]
pub fn make(alloc: Global, seed: u32) -> Result<Script, AllocError>
    ensures made { IfOk result (λ s. s ≡ made seed) }
    ensures valid { IfOk result (λ s. is_valid s ≡ true) }
{
    let mut draws = Draws::new(seed);
    let mapping = mapping(alloc)?;
    let queries = queries(alloc)?;
    let rows = rows(alloc, &mut draws)?;
    let sessions = sessions(alloc, &mut draws)?;
    let schedule = schedule(alloc, &mut draws)?;
    Ok(Script {
        timeout: 1000,
        results: 20,
        mapping,
        rows,
        queries,
        sessions,
        schedule,
    })
}
