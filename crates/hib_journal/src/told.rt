// What an act tells with its reply: whose changes are committed, whether a session's instances leave, and whether a
// lock had run out.
ghost use Rattle.std.specs.Prelude.{◌≡◌, not};
ghost use Rattle.hib_journal.specs.Held.{is_break};
ghost use Rattle.hib_journal.specs.Sessions.{committer};
ghost use Rattle.hib_journal.specs.Slot.{touch_here};
ghost use Rattle.hib_journal.specs.Sound.{leaves_calm};

use hib_base::{Act, Commit, Entry, Put, Reply, SessionNo, Unlocked, Updated};

/// The session whose commit is answered committed, if the entry is one.
pub fn committer(entry: &Entry) -> Option<SessionNo>
    ensures { result ≡ committer entry.now.act entry.now.reply entry.now.session }
{
    match &entry.act {
        Act::Commit => match &entry.reply {
            Reply::Commit(Commit::Committed) => entry.session,
            _ => None,
        },
        _ => None,
    }
}

/// Whether all instances of the session leave.
pub fn is_break(act: &Act, reply: &Reply) -> bool
    ensures { result ≡ is_break act.now reply.now }
{
    match act {
        Act::Clear | Act::Rollback => true,
        Act::Commit => !matches!(reply, Reply::Commit(Commit::Committed)),
        _ => false,
    }
}

/// Whether a lock on the key that the act names had run out.
pub fn is_upset(act: &Act, reply: &Reply) -> bool
    ensures { result ≡ not (leaves_calm (touch_here act.now reply.now)) }
{
    match act {
        Act::Put { .. } => matches!(reply, Reply::Put(Put::Stored { late: true, .. })),
        Act::Unlock { .. } => matches!(reply, Reply::Unlocked(Unlocked::Expired)),
        Act::AfterUpdate { .. } => matches!(reply, Reply::Updated(Updated::Expired)),
        _ => false,
    }
}
