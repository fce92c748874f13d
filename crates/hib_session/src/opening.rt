// The sessions of a script, for whoever plays or audits it.
ghost use Rattle.std.specs.Prelude.{◌<◌, ◌^◌, [], length, IfOk};
ghost use Rattle.hib_session.specs.Sessions.{AreSessions};

use crate::session::Session;
use hib_base::{Script, SessionNo};
use std::alloc::{AllocError, Global};

/// The sessions of a script, each at its number, which have done nothing. Fails for want of memory alone.
pub fn open_all(alloc: Global, script: &Script) -> Result<Vec<Session>, AllocError>
    requires few { length script.now.sessions < 2 ^ 32 }
    ensures { IfOk result (λ v. AreSessions script.now [] v.items) }
{
    let mut sessions = Vec::with_capacity(alloc, script.sessions.len())?;
    for number in 0..script.sessions.len() {
        sessions.push(Session::open(alloc, SessionNo(number as u32)))?;
    }
    Ok(sessions)
}
