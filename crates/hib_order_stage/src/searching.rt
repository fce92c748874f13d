// The search of a script's orders.
ghost use Rattle.hib_base.specs.Valid.{is_valid};
ghost use Rattle.hib_order_stage.specs.Staged.{ended_in, judged_from_start, new_origin, rows_at_start};
ghost use Rattle.hib_order_tries.specs.Found.{IsTold};
ghost use Rattle.std.specs.Prelude.{◌≡◌, ◌⊎◌, ◌≤◌, [], IfOk, true};

use crate::stage::Stage;
use crate::watcher::Watcher;
use hib_base::Script;
use hib_core::Name;
use hib_order_tries::{Told, search};
use std::alloc::{AllocError, Global};
use std::marker::Brand;

/// What a search of a script's orders came to.
#[derive(Drop)]
pub struct Searched {
    /// What was found.
    pub told: Told,
    /// The script.
    pub script: Script,
}

/// Searches the orders on the stage of this name.
fn search_in<N: Name, W: Watcher + Drop>(
    alloc: Global,
    script: Script,
    most_kills: usize,
    most: usize,
    limit: u64,
    watcher: W,
) -> Result<Searched, AllocError>
    requires script { script ≡ N.script }
    requires valid { is_valid N.script ≡ true }
    requires from { new_origin N.script ≡ N.from }
    requires told { [] ≡ N.told }
    ensures script { IfOk result (λ s. s.script ≡ N.script) }
    ensures tried { IfOk result (λ s.
        IsTold N.script (rows_at_start N.script) (judged_from_start N.script) (ended_in N.script)
        most_kills most s.told.whole s.told.level s.told.findings) }
    ensures level { IfOk result (λ s. s.told.level ≤ most) }
    ensures limit { IfOk result (λ s. s.told.findings.tried ≤ limit) }
    ensures whole { IfOk result (λ s.
        (s.told.whole ≡ true) ⊎ (s.told.findings.tried ≡ limit)) }
{
    let mut stage = Stage::<N, W>::new(alloc, script, watcher)?;
    let told = search(alloc, &mut stage, most_kills, most, limit)?;
    match stage.into_script() {
        Some(script) => Ok(Searched { told, script }),
        None => Err(AllocError),
    }
}

/// Tries the orders of a script's sessions within a number of switches and a number of kills, those with the fewest
/// switches first, and so many of them at most, each by a new factory from the script's rows. Each order is tried once.
/// All are tried unless there are more than that. The watcher hears of runs that are played; no clause says of which.
/// Fails for want of memory alone.
pub fn search_orders<W: Watcher + Drop>(
    alloc: Global,
    script: Script,
    most_kills: usize,
    most: usize,
    limit: u64,
    watcher: W,
) -> Result<Searched, AllocError>
    requires { is_valid script ≡ true }
    ensures script { IfOk result (λ s. s.script ≡ script) }
    ensures tried { IfOk result (λ s.
        IsTold script (rows_at_start script) (judged_from_start script) (ended_in script)
        most_kills most s.told.whole s.told.level s.told.findings) }
    ensures level { IfOk result (λ s. s.told.level ≤ most) }
    ensures limit { IfOk result (λ s. s.told.findings.tried ≤ limit) }
    ensures whole { IfOk result (λ s.
        (s.told.whole ≡ true) ⊎ (s.told.findings.tried ≡ limit)) }
{
    search_in::<Brand, W>(alloc, script, most_kills, most, limit, watcher)
}
