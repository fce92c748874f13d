// What waits for a node is delivered to it: the key of another node's commit is fenced here, so that no older row is
// kept.
ghost use Rattle.std.specs.Prelude.{◌≡◌, ◌≢◌, ◌∷◌, length, OnErr, Ok, true, false};
ghost use Rattle.hib_nodes.specs.Kept.{past};
ghost use Rattle.hib_nodes.specs.Run.{HasDelivered, IsDelivered};
ghost use Rattle.hib_nodes.specs.Shared.{IsShared};
ghost use Rattle.hib_nodes.specs.Standing.{is_node};

use crate::names::Name;
use crate::shared::NodesShared;
use hib_base::Tick;
use hib_nodes_law::{NodeEntry, apart_is_legal, parts_tell};
use hib_outside::Keeper;
use std::alloc::AllocError;

/// Delivers the first key that waits for a node, by a fence of it, whose two entries are added. False if none waits. If
/// memory runs out nothing has changed.
pub fn deliver<K: Keeper, N: Name>(
    node: u8,
    shared: &mut NodesShared<K>,
) -> Result<bool, AllocError>
    requires node { is_node node ≡ true }
    requires shared { IsShared N.script N.places N.from shared.old }
    ensures shared { IsShared N.script N.places N.from shared.new }
    ensures delivered { result ≡ Ok true
        → HasDelivered N.script node (past shared.old.journal) (past shared.new.journal) }
    ensures none { result ≡ Ok false
        → IsDelivered N.script node (past shared.old.journal) (past shared.new.journal) }
    ensures store { shared.new.parts.store ≡ shared.old.parts.store }
    ensures same { result ≢ Ok true → past shared.new.journal ≡ past shared.old.journal }
    ensures still { result ≢ Ok true → shared.new.parts ≡ shared.old.parts }
{
    apart_is_legal();
    parts_tell();
    let Some(key) = shared.queues.first(node) else {
        return Ok(false);
    };
    shared.journal.reserve()?;
    let now = Tick(shared.journal.len() as u64 + 1);
    let (lock, unlock) = shared.parts.fence(node, key, now)?;
    shared.queues.take(node);
    shared.journal.push(NodeEntry { node, entry: lock });
    shared.journal.push(NodeEntry {
        node,
        entry: unlock,
    });
    Ok(true)
}
