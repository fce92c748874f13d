// How the sessions of a run have ended.
ghost use Rattle.hib_order_law.specs.Judged.{ending};
ghost use Rattle.hib_order_law.specs.Orders.{onto};
ghost use Rattle.std.specs.Prelude.{◌≡◌, [], IfOk};

use hib_base::{Entry, Outcome, Script};
use hib_report::Fates;
use std::alloc::{AllocError, Global};

/// Of each session of a script, by number, the outcome of its last transaction in a run of these entries, the oldest
/// first. Want of memory alone is an error.
pub fn ending(alloc: Global, script: &Script, entries: &[Entry]) -> Result<Vec<Outcome>, AllocError>
    ensures { IfOk result (λ v. v.items ≡ ending script.now (onto entries.now [])) }
{
    let fates = Fates::of(alloc, script.sessions.len(), entries)?;
    let mut ending = Vec::with_capacity(alloc, fates.fates.len())?;
    for fate in fates.fates.as_slice() {
        ending.push(fate.outcome)?;
    }
    Ok(ending)
}
