// A step of the factory of `bulk`: one act of a session or of a bulk line, if one is due. It finds the one of this
// number, and `turns` or `lines` makes the step.
ghost use Rattle.std.specs.Prelude.{◌≡◌, ◌+◌, ◌<◌, ◌^◌, List, length};
ghost use Rattle.hib_session.specs.declared.session.Session.{Session as Actor};
ghost use Rattle.hib_bulk.specs.declared.lines.LineProgress.{LineProgress as Come};
ghost use Rattle.hib_bulk.specs.Kept.{past};
ghost use Rattle.hib_bulk.specs.Run.{IsRun};
ghost use Rattle.hib_bulk.specs.Steps.{AreSessions, AreLines, HasTurned};

use crate::journal::Bulked;
use crate::lines::{LineProgress, line_turn};
use crate::names::Name;
use crate::parts::BulkParts;
use crate::turns::take_turn;
use hib_base::{Script, SessionNo};
use hib_bulk_law::BulkDef;
use hib_engines::Stepped;
use hib_outside::Keeper;
use hib_session::Session;
use std::alloc::{AllocError, Global};

/// One act of the session of this number, or the sweep that is due before it. If memory runs out nothing has changed,
/// but for the keeper's counts.
pub fn step_session<K: Keeper, N: Name>(
    alloc: Global,
    script: &Script,
    number: SessionNo,
    sessions: &mut Vec<Session>,
    parts: &mut BulkParts<K>,
    journal: &mut Bulked,
) -> Result<Stepped, AllocError>
    requires script { script.now ≡ N.script }
    requires known { number < length N.script.sessions }
    requires run { IsRun N.script N.lines N.from (past journal.old) parts.old }
    requires sessions { AreSessions N.script (past journal.old) sessions.old.items }
    ensures turned { HasTurned N.script N.lines N.from number result (past journal.old)
        (past journal.new) parts.old parts.new }
    ensures sessions { AreSessions N.script (past journal.new) sessions.new.items }
    ensures lines { (ps : List Come) → AreLines N.script N.lines (past journal.old) ps
        → AreLines N.script N.lines (past journal.new) ps }
{
    let session = &mut sessions[number.0 as usize];
    take_turn::<K, N>(alloc, script, session, parts, journal)
}

/// The number of the line at this place among the lines: they come after the sessions.
fn line_number(script: &Script, at: usize) -> SessionNo
    requires { length script.now.sessions + at < 2 ^ 32 }
    ensures { result ≡ length script.now.sessions + at }
{
    SessionNo((script.sessions.len() + at) as u32)
}

/// One act of a line, if it isn't at its end. If memory runs out nothing has changed, but for the keeper's counts.
pub fn step_line<K: Keeper, N: Name>(
    alloc: Global,
    script: &Script,
    lines: &[BulkDef],
    at: usize,
    progress: &mut Vec<LineProgress>,
    parts: &mut BulkParts<K>,
    journal: &mut Bulked,
) -> Result<Stepped, AllocError>
    requires script { script.now ≡ N.script }
    requires lines { lines.now ≡ N.lines }
    requires known { at < length N.lines }
    requires run { IsRun N.script N.lines N.from (past journal.old) parts.old }
    requires progress { AreLines N.script N.lines (past journal.old) progress.old.items }
    ensures turned { HasTurned N.script N.lines N.from (length N.script.sessions + at) result
        (past journal.old) (past journal.new) parts.old parts.new }
    ensures progress { AreLines N.script N.lines (past journal.new) progress.new.items }
    ensures sessions { (xs : List Actor) → AreSessions N.script (past journal.old) xs
        → AreSessions N.script (past journal.new) xs }
{
    let line = &lines[at];
    let number = line_number(script, at);
    let mine = &mut progress[at];
    line_turn::<K, N>(alloc, script, line, number, mine, parts, journal)
}
