// Kills of sessions, for a factory and for an audit: a killed session has no act due any more.
ghost use Rattle.std.specs.Prelude.{◌==◌};
ghost use Rattle.std.specs.List.{list_any};
ghost use Rattle.hib_session.specs.Killed.{AreKilled};

use crate::session::Session;
use hib_base::SessionNo;

/// Kills the session at a place among the sessions, if there is one. It takes no memory.
pub fn kill_at(sessions: &mut Vec<Session>, place: usize)
    ensures { AreKilled (λ s. place == s) sessions.old.items sessions.new.items }
{
    if place < sessions.len() {
        sessions[place].kill();
    }
}

/// Kills the sessions of these numbers, which are their places. It takes no memory.
pub fn kill_all(sessions: &mut Vec<Session>, numbers: &[SessionNo])
    ensures { AreKilled (λ s. list_any (λ n. n == s) numbers.now) sessions.old.items
        sessions.new.items }
{
    for number in numbers {
        kill_at(sessions, number.0 as usize);
    }
}
