// The section of places, line by line: the node of each session, which is its place, and then the schedule of both
// nodes.
ghost use Rattle.std.specs.Prelude.{◌≡◌, Ok, IfOk, IfErr, OnOk};
ghost use Rattle.hib_sections.specs.Places as section;
ghost use Rattle.hib_sections.specs.Places.{AreFit, read_of};
ghost use Rattle.hib_script.specs.Script.{IsWhere};
ghost use Rattle.hib_sections.specs.Collections.{IsFault};
ghost use Rattle.hib_sections.specs.Sections.{alone, at_line, names as names_of};

use crate::before::fault_before;
use crate::bulks::Place;
use crate::errors::LineError;
use crate::named::{names, session};
use crate::placed::Placed;
use hib_base::{Kind, Mapping, Order, Refused, Seq, SessionNo, Sessions};
use hib_lex::{Line, Lines, Token, begins};
use hib_mapping::{is_number, is_within, is_word, word_bytes};
use hib_nodes_law::{NodeOrder, NodeOrders, Places};
use hib_script::ScriptError;
use hib_statements::{NamedSessions, order};
use std::alloc::Global;

/// The most orders.
const MOST_ORDERS: usize = 20_000;

/// What was read of the section.
#[derive(Drop)]
pub struct Reading {
    /// The nodes of sessions.
    pub nodes: Placed,
    /// The orders.
    pub orders: NodeOrders,
    /// Where the next line stands.
    pub place: Place,
}

/// Nothing is read yet.
fn start(alloc: Global) -> Reading
    ensures { read_of result ≡ section.start }
{
    Reading {
        nodes: Placed::new(alloc),
        orders: Seq::new(alloc),
        place: Place::Lines,
    }
}

/// The node that a token is.
fn node(token: &Token) -> Result<u8, Kind>
    ensures { result ≡ section.node_of token.now }
{
    if is_within(token, 1, 1) {
        Ok(1)
    } else if is_within(token, 2, 2) {
        Ok(2)
    } else {
        Err(Kind::Number)
    }
}

/// The place of a session, or the first thing that is wrong with it.
fn place_at(
    placed: &Placed,
    session: Option<SessionNo>,
    token: &Token,
) -> Result<(SessionNo, u8), Kind>
    ensures { result ≡ section.if_known placed.now session token.now }
{
    let session = session.ok_or(Kind::Unknown)?;
    if placed.has(session) {
        return Err(Kind::Taken);
    }
    Ok((session, node(token)?))
}

/// `place SESSION N`.
fn place(placed: &Placed, named: &NamedSessions, line: &[Token]) -> Result<(SessionNo, u8), Kind>
    ensures { result ≡ section.place_of placed.now named.now line.now }
{
    match line {
        [_, name, node] if is_word(name) && is_number(node) => place_at(
            placed,
            session(named, word_bytes(name)),
            node,
        ),
        _ => Err(Kind::Words),
    }
}

/// One place more.
fn with_place(reading: &mut Reading, place: Result<(SessionNo, u8), Kind>) -> Result<(), LineError>
    ensures line { OnOk result (section.with_place (read_of reading.old) place
        ≡ Ok (read_of reading.new)) }
    ensures fault { IfErr result (IsFault (section.with_place (read_of reading.old) place)) }
{
    match place {
        Ok(place) => {
            reading.nodes.push(place)?;
            Ok(())
        }
        Err(kind) => Err(LineError::Fault(kind)),
    }
}

/// Goes on at a place with the next line, if this one has one token alone.
fn move_to(place: Place, reading: &mut Reading, tokens: &[Token]) -> Result<(), LineError>
    ensures line { OnOk result (alone tokens.now (record (read_of reading.old) { place = place })
        ≡ Ok (read_of reading.new)) }
    ensures fault { IfErr result
        (IsFault (alone tokens.now (record (read_of reading.old) { place = place }))) }
{
    match tokens {
        [_] => {
            reading.place = place;
            Ok(())
        }
        _ => Err(LineError::Fault(Kind::Words)),
    }
}

/// A line among the places.
fn take_place(
    named: &NamedSessions,
    reading: &mut Reading,
    tokens: &[Token],
) -> Result<(), LineError>
    ensures line { OnOk result (section.after_places named.now (read_of reading.old) tokens.now
        ≡ Ok (read_of reading.new)) }
    ensures fault { IfErr result
        (IsFault (section.after_places named.now (read_of reading.old) tokens.now)) }
{
    if begins(tokens, b"place") {
        let place = place(&reading.nodes, named, tokens);
        with_place(reading, place)
    } else if begins(tokens, b"schedule") {
        move_to(Place::Schedule, reading, tokens)
    } else {
        Err(LineError::Fault(Kind::Line))
    }
}

/// An order of a script's schedule, if it is a run.
fn run_alone(order: Result<Order, Kind>) -> Result<NodeOrder, Kind>
    ensures { result ≡ section.run_alone order }
{
    match order? {
        Order::Run { session, steps } => Ok(NodeOrder::Run { session, steps }),
        _ => Err(Kind::Line),
    }
}

/// `deliver N`.
fn deliver(line: &[Token]) -> Result<NodeOrder, Kind>
    ensures { result ≡ section.deliver_of line.now }
{
    match line {
        [_, token] if is_number(token) => Ok(NodeOrder::Deliver { node: node(token)? }),
        _ => Err(Kind::Words),
    }
}

/// One order more, unless there are too many.
fn with_order(reading: &mut Reading, order: Result<NodeOrder, Kind>) -> Result<(), LineError>
    ensures line { OnOk result (section.with_order (read_of reading.old) order
        ≡ Ok (read_of reading.new)) }
    ensures fault { IfErr result (IsFault (section.with_order (read_of reading.old) order)) }
{
    let order = match order {
        Ok(order) => order,
        Err(kind) => return Err(LineError::Fault(kind)),
    };
    if reading.orders.len() >= MOST_ORDERS {
        return Err(LineError::Fault(Kind::Many));
    }
    reading.orders.push(order)?;
    Ok(())
}

/// A line within the schedule.
fn take_order(
    mapping: &Mapping,
    named: &NamedSessions,
    reading: &mut Reading,
    tokens: &[Token],
) -> Result<(), LineError>
    ensures line { OnOk result
        (section.in_schedule mapping.now named.now (read_of reading.old) tokens.now
        ≡ Ok (read_of reading.new)) }
    ensures fault { IfErr result
        (IsFault (section.in_schedule mapping.now named.now (read_of reading.old) tokens.now)) }
{
    if begins(tokens, b"end") {
        move_to(Place::Over, reading, tokens)
    } else if begins(tokens, b"run") {
        with_order(reading, run_alone(order(mapping, named, tokens)))
    } else if begins(tokens, b"deliver") {
        with_order(reading, deliver(tokens))
    } else {
        Err(LineError::Fault(Kind::Line))
    }
}

/// One line more, wherever it stands.
fn take(
    mapping: &Mapping,
    named: &NamedSessions,
    reading: &mut Reading,
    tokens: &[Token],
) -> Result<(), LineError>
    ensures line { OnOk result (section.after mapping.now named.now (read_of reading.old) tokens.now
        ≡ Ok (read_of reading.new)) }
    ensures fault { IfErr result
        (IsFault (section.after mapping.now named.now (read_of reading.old) tokens.now)) }
{
    match reading.place {
        Place::Lines => take_place(named, reading, tokens),
        Place::Schedule => take_order(mapping, named, reading, tokens),
        Place::Over => Err(LineError::Fault(Kind::Line)),
    }
}

/// One line more, with its number if it is refused.
fn take_at(
    mapping: &Mapping,
    named: &NamedSessions,
    reading: &mut Reading,
    line: &Line,
) -> Result<(), ScriptError>
    ensures line { OnOk result (at_line line.now.line
        (section.after mapping.now named.now (read_of reading.old) line.now.tokens)
        ≡ Ok (read_of reading.new)) }
    ensures refused { IfErr result (IsWhere (at_line line.now.line
        (section.after mapping.now named.now (read_of reading.old) line.now.tokens))) }
{
    match take(mapping, named, reading, line.tokens.as_slice()) {
        Ok(()) => Ok(()),
        Err(LineError::Fault(kind)) => Err(ScriptError::Refused(Refused {
            line: line.line,
            kind,
        })),
        Err(LineError::NoMemory) => Err(ScriptError::NoMemory),
    }
}

/// All lines of the section.
#[tactic(auto, using(crate::proofs::PlacesRead::reading_next, crate::proofs::PlacesRead::reading_done, crate::proofs::PlacesRead::where_on))]
fn read(
    alloc: Global,
    mapping: &Mapping,
    named: &NamedSessions,
    lines: &[Line],
) -> Result<Reading, ScriptError>
    ensures read { IfOk result (λ r. section.reading mapping.now named.now (Ok section.start)
        lines.now ≡ Ok (read_of r)) }
    ensures refused { IfErr result (IsWhere
        (section.reading mapping.now named.now (Ok section.start) lines.now)) }
{
    let mut reading = start(alloc);
    for line in lines {
        take_at(mapping, named, &mut reading, line)?;
    }
    Ok(reading)
}

/// What was read, if the text may end there, which has `count` lines.
fn ended(count: u32, reading: Reading) -> Result<Places, ScriptError>
    ensures places { IfOk result (λ p. section.ended_at count (read_of reading) reading.place
        ≡ Ok (p.nodes, p.orders)) }
    ensures refused { IfErr result
        (IsWhere (section.ended_at count (read_of reading) reading.place)) }
{
    match reading.place {
        Place::Schedule => Err(ScriptError::Refused(Refused {
            line: count,
            kind: Kind::NoEnd,
        })),
        _ => Ok(Places {
            nodes: reading.nodes.into_nodes(),
            orders: reading.orders,
        }),
    }
}

/// The places of sessions and the schedule of a section, over a script's mapping and sessions; the lines of the script
/// stand before them.
///
/// Each place is of a session of the script, no session has two, and each node is 1 or 2. There are at most 20,000
/// orders. Entities that are cached are read-write.
///
/// Errors: `Refused` exactly if the lines are no such section, with the first bad line of both and the first kind that
/// it has of order, strategy, cached, line, words, taken, unknown, number, many and no-end. A schedule, an entity of
/// another strategy than `none` and `read-write` and a cached query stand in the script's own lines. `NoMemory` if
/// there is none left. Nothing is changed.
pub fn read_nodes(
    alloc: Global,
    mapping: &Mapping,
    sessions: &Sessions,
    before: &[Line],
    behind: &Lines,
) -> Result<Places, ScriptError>
    ensures places { IfOk result (λ p. section.places_of mapping.now sessions.now before.now behind.now
        ≡ Ok (p.nodes, p.orders)) }
    ensures fit { IfOk result (λ p. AreFit mapping.now sessions.now p.nodes p.orders) }
    ensures refused { IfErr result
        (IsWhere (section.places_of mapping.now sessions.now before.now behind.now)) }
{
    places_said(alloc, mapping, sessions, before, behind)
}

/// The places and the schedule that the lines say.
fn places_said(
    alloc: Global,
    mapping: &Mapping,
    sessions: &Sessions,
    before: &[Line],
    behind: &Lines,
) -> Result<Places, ScriptError>
    ensures places { IfOk result (λ p. section.places_of mapping.now sessions.now before.now behind.now
        ≡ Ok (p.nodes, p.orders)) }
    ensures refused { IfErr result
        (IsWhere (section.places_of mapping.now sessions.now before.now behind.now)) }
{
    if let Some(refused) = fault_before(mapping.as_slice(), before) {
        return Err(ScriptError::Refused(refused));
    }
    let named = names(alloc, sessions)?;
    let reading = read(alloc, mapping, &named, behind.lines.as_slice())?;
    ended(behind.count, reading)
}
