// The node of each session, by the section of `nodes`.
ghost use Rattle.std.specs.Prelude.{◌<◌, ◌≤◌, ◌^◌, IfOk};
ghost use Rattle.hib_nodes.specs.Placed.{ArePlaced};

use hib_base::SessionNo;
use std::alloc::{AllocError, Global};

/// The node of each of the first `sessions` sessions, by its number: the first node that is named for it, or 1. Fails
/// for want of memory alone.
pub fn nodes_of(
    alloc: Global,
    places: &[(SessionNo, u8)],
    sessions: usize,
) -> Result<Vec<u8>, AllocError>
    ensures { IfOk result (λ v. ArePlaced places.now sessions v.items) }
{
    let mut nodes = vec![in alloc; 1; sessions]?;
    for back in 0..places.len() {
        let place = places[places.len() - 1 - back];
        let at = place.0.0 as usize;
        if at < sessions {
            nodes[at] = place.1;
        }
    }
    Ok(nodes)
}
