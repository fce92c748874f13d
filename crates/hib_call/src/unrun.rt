// What a run comes to that doesn't begin, since the keeper failed or memory ran out.
ghost use Rattle.std.specs.Prelude.{◌≡◌, None};
ghost use Rattle.hib_store.specs.Stores.{handed_back};
ghost use Rattle.hib_call.specs.Runs.{opening_status};

use crate::lent::Lent;
use crate::status::Status;
use crate::tasks::{Outcome, Ran};
use hib_outside::{Keeper, Listener};
use hib_store::OpenFault;

/// The run of which nothing was run, since what was to run wasn't opened.
pub fn not_run<R: Drop, K: Keeper, L: Listener>(
    fault: OpenFault<K>,
    listeners: Vec<L>,
) -> Ran<R, K, L>
    ensures outcome { result.outcome ≡ Outcome.Stopped (opening_status fault) None }
    ensures keeper { result.lent.keeper ≡ handed_back fault }
    ensures listeners { result.lent.listeners ≡ listeners }
{
    let (status, keeper) = match fault {
        OpenFault::NoMemory(keeper) => (Status::NoMemory, keeper),
        OpenFault::StoreFault(keeper) => (Status::StoreFault, keeper),
    };
    Ran {
        outcome: Outcome::Stopped(status, None),
        lent: Lent { keeper, listeners },
    }
}
