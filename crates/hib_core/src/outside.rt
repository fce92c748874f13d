// What comes from outside of the sessions: kills, evictions and restarts, each an entry of no session.
ghost use Rattle.std.specs.Prelude.{◌≡◌, ◌∷◌, ◌+◌, ◌<◌, ◌≤◌, List, length, OnOk, OnErr, IsOk, true, false};
ghost use Rattle.hib_base.specs.declared.scripts.Order.{Order};
ghost use Rattle.hib_journal.specs.Kept.{past};
ghost use Rattle.hib_journal.specs.Next.{is_cached};
ghost use Rattle.hib_journal.specs.Sessions.{Journal as Past, is_open};
ghost use Rattle.hib_journal.specs.Played.{play_order};
ghost use Rattle.hib_core.specs.Standing.{outside_entry};
ghost use Rattle.hib_core.specs.Bound.{outside_count};
ghost use Rattle.hib_session.specs.Sessions.{AreSessions};
ghost use Rattle.hib_core.specs.Factory.{IsRun, IsAsked, HasGrown};
ghost use Rattle.hib_core.specs.Playing.{played, Leads};
ghost use Rattle.hib_session.specs.declared.session.Session.{Session};

use crate::turns::{add, reserve_tick};
use hib_base::{Act, Entry, Key, Reply, SessionNo, Tick};
use hib_engines::{Engines, Name};
use hib_journal::{Journal, part_of};
use hib_law::law;
use hib_outside::Keeper;
use hib_session::{Session, kill_all, kill_at};
use std::alloc::{AllocError, Global};

/// Adds the entry of an act from outside to a journal, which must have room for it. It takes no memory. Listeners are
/// told elsewhere, in `telling`.
fn tell(journal: &mut Journal, tick: Tick, act: Act, reply: Reply)
    requires room { 0 < journal.old.spare }
    requires tick { tick ≡ length (past journal.old) + 1 }
    ensures { past journal.new ≡ outside_entry (past journal.old) act reply ∷ past journal.old }
{
    let part = part_of(&act, SessionNo(0));
    let entry = Entry {
        tick,
        session: None,
        part,
        act,
        reply,
    };
    add(journal, entry);
}

/// Whether a session is open.
pub fn opened<K: Keeper, N: Name>(number: SessionNo, engines: &Engines<K>) -> bool
    ensures { (h : Past) → IsRun N.script N.from h engines.now → result ≡ is_open number h }
{
    engines.registry().is_open(number)
}

/// Kills a session, if it is open. Its locks stay until their time is over. If memory runs out nothing has changed.
pub fn kill<K: Keeper, N: Name>(
    number: SessionNo,
    sessions: &mut Vec<Session>,
    engines: &mut Engines<K>,
    journal: &mut Journal,
) -> Result<(), AllocError>
    requires run { IsRun N.script N.from (past journal.old) engines.old }
    requires sessions { AreSessions N.script (past journal.old) sessions.old.items }
    ensures run { IsRun N.script N.from (past journal.new) engines.new }
    ensures sessions { AreSessions N.script (past journal.new) sessions.new.items }
    ensures asked { IsAsked N.from (past journal.old) engines.old
        → IsAsked N.from (past journal.new) engines.new }
    ensures played { OnOk result (Leads (play_order N.script (Order.Kill number)) played
        (past journal.old) (past journal.new)) }
    ensures outside { outside_count (past journal.new) ≤ outside_count (past journal.old) + 1 }
    ensures closed { is_open number (past journal.old) ≡ false → (IsOk result)
        × (past journal.new ≡ past journal.old) }
    ensures grown { OnOk result (is_open number (past journal.old) ≡ true
        → HasGrown (past journal.old) (past journal.new)) }
    ensures same { OnErr result (past journal.new ≡ past journal.old) }
    ensures engines { OnErr result (engines.new ≡ engines.old) }
    ensures err { OnErr result (sessions.new.items ≡ sessions.old.items) }
{
    law();
    if !engines.registry().is_open(number) {
        return Ok(());
    }
    let now = reserve_tick(journal)?;
    tell(journal, now, Act::Kill { session: number }, Reply::Done);
    engines.kill(number);
    kill_at(sessions, number.0 as usize);
    Ok(())
}

/// Evicts a row from its region. Its entity must be cached. If memory runs out nothing has changed.
pub fn evict<K: Keeper, N: Name>(
    alloc: Global,
    key: Key,
    engines: &mut Engines<K>,
    journal: &mut Journal,
) -> Result<(), AllocError>
    requires cached { is_cached N.script key.entity ≡ true }
    requires run { IsRun N.script N.from (past journal.old) engines.old }
    ensures run { IsRun N.script N.from (past journal.new) engines.new }
    ensures sessions { (xs : List Session) → AreSessions N.script (past journal.old) xs
        → AreSessions N.script (past journal.new) xs }
    ensures asked { IsAsked N.from (past journal.old) engines.old
        → IsAsked N.from (past journal.new) engines.new }
    ensures played { OnOk result (Leads (play_order N.script (Order.Evict key)) played
        (past journal.old) (past journal.new)) }
    ensures grown { OnOk result (HasGrown (past journal.old) (past journal.new)) }
    ensures outside { outside_count (past journal.new) ≤ outside_count (past journal.old) + 1 }
    ensures same { OnErr result (past journal.new ≡ past journal.old) }
    ensures engines { OnErr result (engines.new ≡ engines.old) }
{
    law();
    let now = reserve_tick(journal)?;
    let evicted = key;
    let reply = engines.evict(alloc, key, now)?;
    tell(journal, now, Act::Evict { key: evicted }, reply);
    Ok(())
}

/// A restart: the sessions that are open are killed, and nothing is cached, locked or stamped any more. If memory runs
/// out nothing has changed.
pub fn restart<K: Keeper, N: Name>(
    sessions: &mut Vec<Session>,
    engines: &mut Engines<K>,
    journal: &mut Journal,
) -> Result<(), AllocError>
    requires run { IsRun N.script N.from (past journal.old) engines.old }
    requires sessions { AreSessions N.script (past journal.old) sessions.old.items }
    ensures run { IsRun N.script N.from (past journal.new) engines.new }
    ensures sessions { AreSessions N.script (past journal.new) sessions.new.items }
    ensures asked { IsAsked N.from (past journal.old) engines.old
        → IsAsked N.from (past journal.new) engines.new }
    ensures played { OnOk result (Leads (play_order N.script Order.Restart) played
        (past journal.old) (past journal.new)) }
    ensures grown { OnOk result (HasGrown (past journal.old) (past journal.new)) }
    ensures outside { outside_count (past journal.new) ≤ outside_count (past journal.old) + 1 }
    ensures same { OnErr result (past journal.new ≡ past journal.old) }
    ensures engines { OnErr result (engines.new ≡ engines.old) }
    ensures err { OnErr result (sessions.new.items ≡ sessions.old.items) }
{
    law();
    let now = reserve_tick(journal)?;
    tell(journal, now, Act::Restart, Reply::Done);
    kill_all(sessions, engines.registry().open_sessions());
    engines.restart();
    Ok(())
}
