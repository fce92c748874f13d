// The points of an entry, which an audit looks at one after the other, but for its tick and its reply, which stand in
// `ticks` and `auditor`.
ghost use Rattle.std.specs.Prelude.{◌≡◌, IfOk, IfSome, Some, None, if◌then◌else◌};
ghost use Rattle.hib_base.specs.declared.entries.Act.{Act};
ghost use Rattle.hib_journal.specs.Sessions.{Journal, own, is_open};
ghost use Rattle.hib_journal.specs.Legal;
ghost use Rattle.hib_journal.specs.Legal.{due_by, may_come};
ghost use Rattle.hib_journal.specs.Due.{IsAllowed};
ghost use Rattle.hib_engines.specs.Registry.{IsRegistry};
ghost use Rattle.hib_session.specs.Sessions.{AreSessions};
ghost use Rattle.hib_audit.specs.Standing.{IsAllowedFor, Differs};

use crate::actors::is_outside;
use crate::same::is_same_act;
use hib_base::{Act, Entry, Script, SessionNo, is_cached};
use hib_engines::Registry;
use hib_journal::part_of;
use hib_session::Session;
use std::alloc::{AllocError, Global};

/// The points of an entry of a legal journal, in the order in which they are looked at.
#[derive(Clone, Copy, Debug, PartialEq, Eq)]
pub enum AuditKind {
    /// Its tick is from 1 to 2^62, not before the last one, and after those of its part and of its session.
    Tick,
    /// An act is due in its session, which wasn't killed; or it has no session, and no session does such an act.
    Session,
    /// Its part is that of the act that is due.
    Part,
    /// Its act is the one that is due; a kill is of an open session, and an eviction of a cached entity.
    Act,
    /// Its reply is the one that the session or the part gives, or a fault that may come.
    Reply,
}

/// The act that is due in the session of this number; none if there is no such session, or if nothing is due in it.
fn session_act(
    alloc: Global,
    script: &Script,
    sessions: &[Session],
    number: SessionNo,
) -> Result<Option<Act>, AllocError>
    ensures due { IfOk result (λ o. (h : Journal) → AreSessions script.now h sessions.now
        → (a : Act) → o ≡ due_by script.now h (Some number) a) }
    ensures allowed { IfOk result (λ o. (h : Journal) → AreSessions script.now h sessions.now
        → IfSome o (IsAllowed script.now number (own number h))) }
{
    match sessions.get(number.0 as usize) {
        Some(session) => {
            let act = session.next_act(alloc, script)?;
            Ok(act)
        }
        None => Ok(None),
    }
}

/// The act from outside that an entry without a session names, if no session does such an act.
fn outside_act(alloc: Global, act: &Act) -> Result<Option<Act>, AllocError>
    ensures { IfOk result (λ o. o ≡ (if Legal.is_outside act.now then Some act.now else None)) }
{
    if is_outside(act) {
        return Ok(Some(act.copy(alloc)?));
    }
    Ok(None)
}

/// The act that is due: for an entry of a session its session's next one; for an entry without a session the entry's
/// own, if no session does such an act.
pub fn due_act(
    alloc: Global,
    script: &Script,
    sessions: &[Session],
    entry: &Entry,
) -> Result<Option<Act>, AllocError>
    ensures due { IfOk result (λ o. (h : Journal) → AreSessions script.now h sessions.now
        → o ≡ Legal.due script.now h entry.now) }
    ensures allowed { IfOk result (λ o. (h : Journal) → AreSessions script.now h sessions.now
        → IfSome o (IsAllowedFor script.now h entry.now.session)) }
{
    match entry.session {
        Some(number) => session_act(alloc, script, sessions, number),
        None => outside_act(alloc, &entry.act),
    }
}

/// Whether an act that is due may come: a kill must be of an open session, and an eviction of a cached entity.
fn comes(script: &Script, registry: &Registry, act: &Act) -> bool
    ensures { (h : Journal) → IsRegistry registry.now h
        → may_come script.now h (Some act.now) ≡ (if result then Some act.now else None) }
{
    match act {
        Act::Kill { session } => registry.is_open(*session),
        Act::Evict { key } => is_cached(script.mapping.as_slice(), key.entity),
        _ => true,
    }
}

/// The point in which an entry differs from the act that is due: its part, or else its act, which differs too if the
/// act that is due may not come.
pub fn difference(
    script: &Script,
    registry: &Registry,
    due: &Act,
    entry: &Entry,
) -> Option<AuditKind>
    ensures { (h : Journal) → IsRegistry registry.now h
        → Differs script.now h due.now entry.now result }
{
    let number = entry.session.unwrap_or(SessionNo(0));
    if part_of(due, number) != entry.part {
        return Some(AuditKind::Part);
    }
    if !comes(script, registry, due) || !is_same_act(due, &entry.act) {
        return Some(AuditKind::Act);
    }
    None
}
