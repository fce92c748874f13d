// The order of a schedule that a line is, or its first fault. Each kind of line has a function that looks at its form,
// and one that finds what it names.
ghost use Rattle.hib_statements.specs.Orders as orders;
ghost use Rattle.std.specs.Prelude.{◌≡◌};

use crate::named::NamedSessions;
use crate::parts::{is_key, key};
use hib_base::{EntityDef, Key, Kind, Mapping, Order, SessionNo, is_cached};
use hib_lex::{Token, begins};
use hib_mapping::{entity_number, is_number, is_within, is_word, number_up_to, word_bytes};

/// The most steps of a run.
const MOST_STEPS: u32 = 1_000_000;

/// The order of a line of a schedule, over a mapping and the sessions that were declared.
///
/// Errors: the line is no order; the first kind that it has of line, words, unknown and number. An uncached entity is
/// unknown to `evict`.
pub fn order(mapping: &Mapping, sessions: &NamedSessions, line: &[Token]) -> Result<Order, Kind>
    ensures { result ≡ orders.order_of mapping.now sessions.now line.now }
{
    if begins(line, b"run") {
        run(sessions, line)
    } else if begins(line, b"kill") {
        kill(sessions, line)
    } else if begins(line, b"evict") {
        evict(mapping.as_slice(), line)
    } else if begins(line, b"restart") {
        restart(line)
    } else {
        Err(Kind::Line)
    }
}

/// `run SESSION N`.
fn run(sessions: &NamedSessions, line: &[Token]) -> Result<Order, Kind>
    ensures { result ≡ orders.run_of sessions.now line.now }
{
    match line {
        [_, name, steps] if is_word(name) && is_number(steps) => run_from(
            session_number(sessions, word_bytes(name)),
            steps,
        ),
        _ => Err(Kind::Words),
    }
}

fn run_from(session: Option<SessionNo>, steps: &Token) -> Result<Order, Kind>
    ensures { result ≡ orders.run_from session steps.now }
{
    match session {
        Some(session) if is_within(steps, 1, MOST_STEPS) => Ok(Order::Run {
            session,
            steps: number_up_to(steps, MOST_STEPS),
        }),
        Some(_) => Err(Kind::Number),
        None => Err(Kind::Unknown),
    }
}

/// `kill SESSION`.
fn kill(sessions: &NamedSessions, line: &[Token]) -> Result<Order, Kind>
    ensures { result ≡ orders.kill_of sessions.now line.now }
{
    match line {
        [_, name] if is_word(name) => killed(session_number(sessions, word_bytes(name))),
        _ => Err(Kind::Words),
    }
}

fn killed(session: Option<SessionNo>) -> Result<Order, Kind>
    ensures { result ≡ orders.kill_from session }
{
    match session {
        Some(session) => Ok(Order::Kill { session }),
        None => Err(Kind::Unknown),
    }
}

/// `evict ENTITY ID`.
fn evict(mapping: &[EntityDef], line: &[Token]) -> Result<Order, Kind>
    ensures { result ≡ orders.evict_of mapping.now line.now }
{
    match line {
        [_, name, id] if is_key(name, id) => evict_parts(mapping, name, id),
        _ => Err(Kind::Words),
    }
}

fn evict_parts(mapping: &[EntityDef], name: &Token, id: &Token) -> Result<Order, Kind>
    ensures { result ≡ orders.evict_parts mapping.now name.now id.now }
{
    match entity_number(mapping, word_bytes(name)) {
        Some(entity) if is_cached(mapping, entity) => evicted(key(mapping, name, id)),
        _ => Err(Kind::Unknown),
    }
}

fn evicted(key: Result<Key, Kind>) -> Result<Order, Kind>
    ensures { result ≡ orders.evicted key }
{
    match key {
        Ok(key) => Ok(Order::Evict { key }),
        Err(kind) => Err(kind),
    }
}

/// `restart`.
fn restart(line: &[Token]) -> Result<Order, Kind>
    ensures { result ≡ orders.restart_of line.now }
{
    match line {
        [_] => Ok(Order::Restart),
        _ => Err(Kind::Words),
    }
}

/// The session of this name, if there is one.
fn session_number(sessions: &NamedSessions, name: &[u8]) -> Option<SessionNo>
    ensures { result ≡ orders.session_at sessions.now name.now }
{
    session_no(sessions.place(name)?)
}

fn session_no(place: usize) -> Option<SessionNo>
    ensures { result ≡ orders.small32 place }
{
    if place < 1 << 32 {
        Some(SessionNo(place as u32))
    } else {
        None
    }
}
