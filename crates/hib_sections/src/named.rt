// Who is named in a section: sessions, and bulk lines, which stand for it as sessions without statements.
ghost use Rattle.std.specs.Prelude.{◌≡◌, IfOk};
ghost use Rattle.hib_statements.specs.Orders.{session_at, small32};
ghost use Rattle.hib_sections.specs.Sections.{actor as actor_of, names as names_of};

use hib_base::{Seq, SessionDef, SessionNo, Sessions, Text};
use hib_statements::NamedSessions;
use std::alloc::{AllocError, Global};

/// Somebody of this name, without statements.
pub fn actor(alloc: Global, name: &Text) -> Result<SessionDef, AllocError>
    ensures { IfOk result (λ s. s ≡ actor_of name.now) }
{
    let mut copy = Seq::new(alloc);
    copy.append(name.as_slice())?;
    Ok(SessionDef {
        name: copy,
        statements: Seq::new(alloc),
    })
}

/// The sessions of a script, without their statements: one is found by its name in a map.
pub fn names(alloc: Global, sessions: &Sessions) -> Result<NamedSessions, AllocError>
    ensures { IfOk result (λ n. n ≡ names_of sessions.now) }
{
    let mut named = NamedSessions::new(alloc);
    for session in sessions.as_slice() {
        named.push(alloc, actor(alloc, &session.name)?)?;
    }
    Ok(named)
}

/// The number of the session of this name, if there is one.
pub fn session(named: &NamedSessions, name: &[u8]) -> Option<SessionNo>
    ensures { result ≡ session_at named.now name.now }
{
    session_no(named.place(name)?)
}

/// The number of the session at a place, if numbers reach so far.
fn session_no(place: usize) -> Option<SessionNo>
    ensures { result ≡ small32 place }
{
    if place < 1 << 32 {
        Some(SessionNo(place as u32))
    } else {
        None
    }
}
