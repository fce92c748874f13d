// One turn of a session in `nodes`: the act that is due is answered by the session or by a part, and its entry is
// added. The keys that it commits come into the other node's queue in the same step.
ghost use Rattle.std.specs.Prelude.{◌≡◌, ◌≢◌, ◌≤◌, ◌<◌, ◌+◌, ◌++◌, ◌^◌, [], length, IfOk, IfSome, OnOk, OnErr, Some};
ghost use Rattle.std.specs.Prelude.{None, Ok, true, if◌then◌else◌};
ghost use Rattle.hib_journal.specs.Sessions.{Journal, own};
ghost use Rattle.hib_journal.specs.Next.{next};
ghost use Rattle.hib_session.specs.Session.{Follows, is_ready, number_of};
ghost use Rattle.hib_engines.specs.Due.{IsDue, HasQueries};
ghost use Rattle.hib_nodes_law.specs.Legal.{node_of};
ghost use Rattle.hib_nodes_law.specs.Nodes.{entries};
ghost use Rattle.hib_nodes.specs.Kept.{past};
ghost use Rattle.hib_nodes.specs.Queue.{other_node, queue_in, AreWaiting};
ghost use Rattle.hib_nodes.specs.Shared.{AreSessions, HasTurned, IsShared, IsTurn, Leaves, Moves, Serves};
ghost use Rattle.hib_nodes.specs.Turns.{keys_at, IsKept};

use crate::journal::Noded;
use crate::keys::shared_keys;
use crate::names::Name;
use crate::queue::{Queues, other_node};
use crate::shared::NodesShared;
use hib_base::{Act, Commit, Entry, Key, Reply, Script, SessionNo, Tick};
use hib_engines::Stepped;
use hib_journal::part_of;
use hib_nodes_law::NodeEntry;
use hib_outside::Keeper;
use hib_session::Session;
use std::alloc::{AllocError, Global};

/// The act that is due in a session.
fn due_act(alloc: Global, script: &Script, session: &Session) -> Result<Option<Act>, AllocError>
    requires queries { HasQueries script.now }
    ensures act { IfOk result (λ a. (mine : Journal) → Follows script.now session.now mine
        → a ≡ next script.now (number_of session.now) mine) }
    ensures due { IfOk result (λ a. (mine : Journal) → Follows script.now session.now mine
        → IfSome a (IsDue script.now mine)) }
{
    let act = session.next_act(alloc, script)?;
    Ok(act)
}

/// Makes a session and the journal ready for one more entry, and gives its tick: one more than there are entries. At an
/// error all is as before but for the room.
fn prepare(
    alloc: Global,
    script: &Script,
    session: &mut Session,
    journal: &mut Noded,
) -> Result<Tick, AllocError>
    ensures tick { IfOk result (λ t. t ≡ length (past journal.old) + 1) }
    ensures few { OnOk result (length (past journal.old) + 1 < 2 ^ 62) }
    ensures room { OnOk result (1 < journal.new.spare) }
    ensures ready { OnOk result (is_ready script.now session.new ≡ true) }
    ensures same { past journal.new ≡ past journal.old }
    ensures kept { IsKept script.now session.old session.new }
{
    session.ready(alloc, script)?;
    journal.reserve()?;
    Ok(Tick(journal.len() as u64 + 1))
}

/// The keys that come into the other node's queue if this act of a session is a commit that applies. Room is made for
/// them there. At an error what waits is as before.
fn keys_due(
    alloc: Global,
    script: &Script,
    node: u8,
    session: &Session,
    act: &Act,
    queues: &mut Queues,
) -> Result<Vec<Key>, AllocError>
    ensures keys { IfOk result (λ v. (mine : Journal) → Follows script.now session.now mine
        → v.items ≡ keys_at script.now act.now mine) }
    ensures room { IfOk result (λ v. length v.items ≤ (queue_in queues.new (other_node node)).spare) }
    ensures same { AreWaiting queues.old queues.new }
{
    let Act::Commit = act else {
        return Ok(Vec::new(alloc));
    };
    let keys = shared_keys(alloc, script, session.changes())?;
    queues.reserve(other_node(node), keys.len())?;
    Ok(keys)
}

/// Whether a reply says that a commit was applied.
fn is_committed(reply: &Reply) -> bool
    ensures { result ≡ Rattle.hib_nodes.specs.Turns.is_committed reply.now }
{
    match reply {
        Reply::Commit(Commit::Committed) => true,
        _ => false,
    }
}

/// Adds the keys to the other node's queue, if the reply says that the commit was applied. There must be room for them.
fn note_commit(node: u8, reply: &Reply, keys: &[Key], queues: &mut Queues)
    requires { length keys.now ≤ (queue_in queues.old (other_node node)).spare }
    ensures pairs { (queue_in queues.new (other_node node)).pairs
        ≡ (queue_in queues.old (other_node node)).pairs
        ++ (if Rattle.hib_nodes.specs.Turns.is_committed reply.now then keys.now else []) }
    ensures taken { (queue_in queues.new (other_node node)).taken
        ≡ (queue_in queues.old (other_node node)).taken }
    ensures other { queue_in queues.new (other_node (other_node node))
        ≡ queue_in queues.old (other_node (other_node node)) }
{
    if is_committed(reply) {
        queues.append(other_node(node), keys);
    }
}

/// Answers the act that is due, lets its session take it, and adds its entry: all of it, or if memory runs out nothing.
fn serve<K: Keeper, N: Name>(
    alloc: Global,
    script: &Script,
    node: u8,
    session: &mut Session,
    shared: &mut NodesShared<K>,
    act: Act,
    tick: Tick,
) -> Result<(), AllocError>
    requires script { script.now ≡ N.script }
    requires node { node ≡ node_of N.places (number_of session.old) }
    requires shared { IsShared N.script N.places N.from shared.old }
    requires tick { tick ≡ length (past shared.old.journal) + 1 }
    requires few { length (past shared.old.journal) + 1 < 2 ^ 62 }
    requires room { 0 < shared.old.journal.spare }
    requires turn { IsTurn N.script (past shared.old.journal) session.old act }
    requires ready { is_ready script.now session.old ≡ true }
    ensures ok { OnOk result (Serves N.script N.places N.from act shared.old shared.new session.old
        session.new) }
    ensures err { OnErr result (Leaves N.script shared.old shared.new session.old session.new) }
{
    let keys = keys_due(alloc, script, node, session, &act, &mut shared.queues)?;
    let reply = shared
        .parts
        .answer(alloc, script, node, session, &act, tick)?;
    let number = session.number();
    let part = part_of(&act, number);
    let entry = Entry {
        tick,
        session: Some(number),
        part,
        act,
        reply,
    };
    session.advance(alloc, script, &entry)?;
    note_commit(node, &entry.reply, keys.as_slice(), &mut shared.queues);
    shared.journal.push(NodeEntry { node, entry });
    Ok(())
}

/// One act of a session at its node, if one is due. If memory runs out nothing has changed, but for the keeper's
/// counts if the act calls it.
fn take_turn<K: Keeper, N: Name>(
    alloc: Global,
    script: &Script,
    node: u8,
    session: &mut Session,
    shared: &mut NodesShared<K>,
) -> Result<Stepped, AllocError>
    requires script { script.now ≡ N.script }
    requires node { node ≡ node_of N.places (number_of session.old) }
    requires known { number_of session.old < length N.script.sessions }
    requires shared { IsShared N.script N.places N.from shared.old }
    requires follows { Follows N.script session.old
        (own (number_of session.old) (entries (past shared.old.journal))) }
    ensures did { result ≡ Ok Stepped.Did
        → Moves N.script N.places N.from shared.old shared.new session.old session.new }
    ensures done { result ≡ Ok Stepped.Done → next N.script (number_of session.old)
        (own (number_of session.old) (entries (past shared.old.journal))) ≡ None }
    ensures rests { result ≡ Ok Stepped.Done → shared.new.parts ≡ shared.old.parts }
    ensures left { result ≢ Ok Stepped.Did
        → Leaves N.script shared.old shared.new session.old session.new }
{
    let tick = prepare(alloc, script, session, &mut shared.journal)?;
    let Some(act) = due_act(alloc, script, session)? else {
        return Ok(Stepped::Done);
    };
    serve::<K, N>(alloc, script, node, session, shared, act, tick)?;
    Ok(Stepped::Did)
}

/// One act of the session of this number at its node, if one is due. If memory runs out nothing has changed, but for
/// the keeper's counts if the act calls it.
pub fn turn<K: Keeper, N: Name>(
    alloc: Global,
    script: &Script,
    node: u8,
    number: SessionNo,
    sessions: &mut Vec<Session>,
    shared: &mut NodesShared<K>,
) -> Result<Stepped, AllocError>
    requires script { script.now ≡ N.script }
    requires node { node ≡ node_of N.places number }
    requires known { number < length N.script.sessions }
    requires shared { IsShared N.script N.places N.from shared.old }
    requires sessions { AreSessions N.script (past shared.old.journal) sessions.old.items }
    ensures turned { HasTurned N.script N.places N.from number result shared.old shared.new }
    ensures sessions { AreSessions N.script (past shared.new.journal) sessions.new.items }
{
    let session = &mut sessions[number.0 as usize];
    take_turn::<K, N>(alloc, script, node, session, shared)
}
