// What makes an entry, for the script of what was asked so far: a step of a session, a kill, an eviction and a restart.
// A factory's steps are of a name, which stands for one script; so each call here is of a name of its own.
ghost use Rattle.std.specs.Prelude.{ℕ, ◌≡◌, ◌∷◌, ◌<◌, ◌==◌, length, slice_get, List, IfOk, OnOk, OnErr, IsOk, Ok, false, true};
ghost use Rattle.hib_base.specs.declared.entries.Entry.{Entry};
ghost use Rattle.hib_base.specs.declared.scripts.Order.{Order};
ghost use Rattle.hib_journal.specs.Kept.{past};
ghost use Rattle.hib_journal.specs.Next.{is_cached};
ghost use Rattle.hib_journal.specs.Sessions.{Journal as Past, was_killed, is_open};
ghost use Rattle.hib_journal.specs.Played.{has_next, play_order};
ghost use Rattle.hib_journal.specs.Runs.{is_fault};
ghost use Rattle.hib_outside.specs.Causes.{Rose};
ghost use Rattle.hib_session.specs.declared.session.Session.{Session};
ghost use Rattle.hib_session.specs.Sessions.{AreSessions};
ghost use Rattle.hib_engines.specs.Due.{HasQueries};
ghost use Rattle.hib_engines.specs.Engines.{IsStill, IsAskedFor};
ghost use Rattle.hib_core.specs.Factory.{IsRun, Does, IsOver, IsStepRefused, HasGrown};
ghost use Rattle.hib_core.specs.Playing.{played, Leads};

use hib_base::{Key, Script, SessionNo};
use hib_core::{Name, Stepped, evict, has_turn, kill, restart, turn};
use hib_engines::Engines;
use hib_journal::Journal;
use hib_outside::Keeper;
use hib_session::Session;
use std::alloc::{AllocError, Global};
use std::marker::Brand;

/// Whether an act is due in a session, which must be there.
pub fn is_due(
    alloc: Global,
    script: &Script,
    number: SessionNo,
    sessions: &[Session],
) -> Result<bool, AllocError>
    requires queries { HasQueries script.now }
    requires there { number < length sessions.now }
    ensures due { (h : Past) → AreSessions script.now h sessions.now
        → IfOk result (λ b. b ≡ has_next script.now h number) }
{
    has_turn::<Brand>(alloc, script, number, sessions)
}

/// One act of a session, if one is due. If memory runs out nothing has changed, but for the keeper's counts.
pub fn take_turn<K: Keeper, N: Name>(
    alloc: Global,
    script: &Script,
    number: SessionNo,
    sessions: &mut Vec<Session>,
    engines: &mut Engines<K>,
    journal: &mut Journal,
) -> Result<Stepped, AllocError>
    requires known { number < length script.now.sessions }
    requires run { IsRun script.now N.from (past journal.old) engines.old }
    requires sessions { AreSessions script.now (past journal.old) sessions.old.items }
    ensures run { IsRun script.now N.from (past journal.new) engines.new }
    ensures sessions { AreSessions script.now (past journal.new) sessions.new.items }
    ensures did { result ≡ Ok Stepped.Did
        → Does script.now number (past journal.old)
        (past journal.new) sessions.old.items sessions.new.items }
    ensures done { result ≡ Ok Stepped.Done
        → IsOver script.now number (past journal.old) (past journal.new) }
    ensures same { OnErr result (past journal.new ≡ past journal.old) }
    ensures err { OnErr result (IsStill engines.old engines.new) }
    ensures counts { OnErr result (IsStepRefused script.now (past journal.old) number engines.old
        engines.new) }
    ensures asks_once { (e : Entry) → past journal.new ≡ e ∷ past journal.old
        → IsAskedFor (past journal.old) number e.act engines.old engines.new }
    ensures fault { (e : Entry) → past journal.new ≡ e ∷ past journal.old → is_fault e.reply ≡ true
        → Rose engines.old.store.faults engines.new.store.faults }
    ensures dead { was_killed number (past journal.old) ≡ true → result ≡ Ok Stepped.Done }
    ensures others { (s : ℕ) → (number == s) ≡ false
        → slice_get sessions.new.items s ≡ slice_get sessions.old.items s }
{
    turn::<K, Brand>(alloc, script, number, sessions, engines, journal)
}

/// Kills a session, if it is open. If memory runs out nothing has changed.
pub fn kill_session<K: Keeper, N: Name>(
    script: &Script,
    number: SessionNo,
    sessions: &mut Vec<Session>,
    engines: &mut Engines<K>,
    journal: &mut Journal,
) -> Result<(), AllocError>
    requires run { IsRun script.now N.from (past journal.old) engines.old }
    requires sessions { AreSessions script.now (past journal.old) sessions.old.items }
    ensures run { IsRun script.now N.from (past journal.new) engines.new }
    ensures sessions { AreSessions script.now (past journal.new) sessions.new.items }
    ensures played { OnOk result (Leads (play_order script.now (Order.Kill number)) played
        (past journal.old) (past journal.new)) }
    ensures closed { is_open number (past journal.old) ≡ false → (IsOk result)
        × (past journal.new ≡ past journal.old) }
    ensures grown { OnOk result (is_open number (past journal.old) ≡ true
        → HasGrown (past journal.old) (past journal.new)) }
    ensures same { OnErr result (past journal.new ≡ past journal.old) }
    ensures engines { OnErr result (engines.new ≡ engines.old) }
    ensures err { OnErr result (sessions.new.items ≡ sessions.old.items) }
{
    kill_named::<K, Brand>(script, number, sessions, engines, journal)
}

/// The same for a script that the name stands for.
fn kill_named<K: Keeper, M: Name>(
    script: &Script,
    number: SessionNo,
    sessions: &mut Vec<Session>,
    engines: &mut Engines<K>,
    journal: &mut Journal,
) -> Result<(), AllocError>
    requires script { script.now ≡ M.script }
    requires run { IsRun M.script M.from (past journal.old) engines.old }
    requires sessions { AreSessions M.script (past journal.old) sessions.old.items }
    ensures run { IsRun M.script M.from (past journal.new) engines.new }
    ensures sessions { AreSessions M.script (past journal.new) sessions.new.items }
    ensures played { OnOk result (Leads (play_order M.script (Order.Kill number)) played
        (past journal.old) (past journal.new)) }
    ensures closed { is_open number (past journal.old) ≡ false → (IsOk result)
        × (past journal.new ≡ past journal.old) }
    ensures grown { OnOk result (is_open number (past journal.old) ≡ true
        → HasGrown (past journal.old) (past journal.new)) }
    ensures same { OnErr result (past journal.new ≡ past journal.old) }
    ensures engines { OnErr result (engines.new ≡ engines.old) }
    ensures err { OnErr result (sessions.new.items ≡ sessions.old.items) }
{
    let _ = script;
    kill::<K, M>(number, sessions, engines, journal)
}

/// Evicts a row from its region. Its entity must be cached. If memory runs out nothing has changed.
pub fn evict_row<K: Keeper, N: Name>(
    alloc: Global,
    script: &Script,
    key: Key,
    engines: &mut Engines<K>,
    journal: &mut Journal,
) -> Result<(), AllocError>
    requires cached { is_cached script.now key.entity ≡ true }
    requires run { IsRun script.now N.from (past journal.old) engines.old }
    ensures run { IsRun script.now N.from (past journal.new) engines.new }
    ensures sessions { (xs : List Session) → AreSessions script.now (past journal.old) xs
        → AreSessions script.now (past journal.new) xs }
    ensures played { OnOk result (Leads (play_order script.now (Order.Evict key)) played
        (past journal.old) (past journal.new)) }
    ensures grown { OnOk result (HasGrown (past journal.old) (past journal.new)) }
    ensures same { OnErr result (past journal.new ≡ past journal.old) }
    ensures engines { OnErr result (engines.new ≡ engines.old) }
{
    evict_named::<K, Brand>(alloc, script, key, engines, journal)
}

/// The same for a script that the name stands for.
fn evict_named<K: Keeper, M: Name>(
    alloc: Global,
    script: &Script,
    key: Key,
    engines: &mut Engines<K>,
    journal: &mut Journal,
) -> Result<(), AllocError>
    requires script { script.now ≡ M.script }
    requires cached { is_cached M.script key.entity ≡ true }
    requires run { IsRun M.script M.from (past journal.old) engines.old }
    ensures run { IsRun M.script M.from (past journal.new) engines.new }
    ensures sessions { (xs : List Session) → AreSessions M.script (past journal.old) xs
        → AreSessions M.script (past journal.new) xs }
    ensures played { OnOk result (Leads (play_order M.script (Order.Evict key)) played
        (past journal.old) (past journal.new)) }
    ensures grown { OnOk result (HasGrown (past journal.old) (past journal.new)) }
    ensures same { OnErr result (past journal.new ≡ past journal.old) }
    ensures engines { OnErr result (engines.new ≡ engines.old) }
{
    let _ = script;
    evict::<K, M>(alloc, key, engines, journal)
}

/// A restart: the sessions that are open are killed, and nothing is cached, locked or stamped any more. If memory runs
/// out nothing has changed.
pub fn restart_all<K: Keeper, N: Name>(
    script: &Script,
    sessions: &mut Vec<Session>,
    engines: &mut Engines<K>,
    journal: &mut Journal,
) -> Result<(), AllocError>
    requires run { IsRun script.now N.from (past journal.old) engines.old }
    requires sessions { AreSessions script.now (past journal.old) sessions.old.items }
    ensures run { IsRun script.now N.from (past journal.new) engines.new }
    ensures sessions { AreSessions script.now (past journal.new) sessions.new.items }
    ensures played { OnOk result (Leads (play_order script.now Order.Restart) played
        (past journal.old) (past journal.new)) }
    ensures grown { OnOk result (HasGrown (past journal.old) (past journal.new)) }
    ensures same { OnErr result (past journal.new ≡ past journal.old) }
    ensures engines { OnErr result (engines.new ≡ engines.old) }
    ensures err { OnErr result (sessions.new.items ≡ sessions.old.items) }
{
    restart_named::<K, Brand>(script, sessions, engines, journal)
}

/// The same for a script that the name stands for.
fn restart_named<K: Keeper, M: Name>(
    script: &Script,
    sessions: &mut Vec<Session>,
    engines: &mut Engines<K>,
    journal: &mut Journal,
) -> Result<(), AllocError>
    requires script { script.now ≡ M.script }
    requires run { IsRun M.script M.from (past journal.old) engines.old }
    requires sessions { AreSessions M.script (past journal.old) sessions.old.items }
    ensures run { IsRun M.script M.from (past journal.new) engines.new }
    ensures sessions { AreSessions M.script (past journal.new) sessions.new.items }
    ensures played { OnOk result (Leads (play_order M.script Order.Restart) played
        (past journal.old) (past journal.new)) }
    ensures grown { OnOk result (HasGrown (past journal.old) (past journal.new)) }
    ensures same { OnErr result (past journal.new ≡ past journal.old) }
    ensures engines { OnErr result (engines.new ≡ engines.old) }
    ensures err { OnErr result (sessions.new.items ≡ sessions.old.items) }
{
    let _ = script;
    restart::<K, M>(sessions, engines, journal)
}
