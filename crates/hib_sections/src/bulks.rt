// The section of bulk changes, line by line: bulk lines, and then their schedule with the sessions.
ghost use Rattle.std.specs.Prelude.{◌≡◌, ◌≤◌, Ok, IfOk, IfErr, OnOk, map, length};
ghost use Rattle.hib_sections.specs.BulkLines.{said_of};
ghost use Rattle.hib_sections.specs.Bulks as section;
ghost use Rattle.hib_sections.specs.Bulks.{AreFit, read_of};
ghost use Rattle.hib_script.specs.Script.{IsWhere};
ghost use Rattle.hib_sections.specs.Collections.{IsFault};
ghost use Rattle.hib_sections.specs.Sections.{alone, at_line};

use crate::before::fault_before;
use crate::bulk_lines::bulk_line;
use crate::errors::LineError;
use crate::named::{actor, names};
use hib_base::{Kind, Mapping, Order, Orders, Refused, Seq, Sessions};
use hib_bulk_law::{BulkDefs, Bulks};
use hib_lex::{Line, Lines, Token, begins};
use hib_script::ScriptError;
use hib_statements::{NamedSessions, order};
use std::alloc::{AllocError, Global};

/// The most orders.
const MOST_ORDERS: usize = 20_000;

/// Where the next line of the section stands.
#[derive(Clone, Copy)]
pub enum Place {
    /// Among the lines before a schedule.
    Lines,
    /// Within the schedule.
    Schedule,
    /// Behind it.
    Over,
}

/// What was read of the section.
#[derive(Drop)]
pub struct Reading {
    /// The bulk lines.
    pub lines: BulkDefs,
    /// The orders.
    pub orders: Orders,
    /// Who can be named in an order: the sessions of the script and then the bulk lines, without their statements.
    pub named: NamedSessions,
    /// Where the next line stands.
    pub place: Place,
}

/// Nothing is read yet.
fn start(alloc: Global, sessions: &Sessions) -> Result<Reading, AllocError>
    ensures { IfOk result (λ r. read_of r ≡ section.start sessions.now) }
{
    Ok(Reading {
        lines: Seq::new(alloc),
        orders: Seq::new(alloc),
        named: names(alloc, sessions)?,
        place: Place::Lines,
    })
}

/// One bulk line more, of a line that begins with `update` or else `delete`.
fn take_bulk(
    alloc: Global,
    sets: bool,
    mapping: &Mapping,
    reading: &mut Reading,
    tokens: &[Token],
) -> Result<(), LineError>
    ensures line { OnOk result (section.with_line (read_of reading.old)
        (section.bulk_line_of sets mapping.now (read_of reading.old) tokens.now)
        ≡ Ok (read_of reading.new)) }
    ensures fault { IfErr result (IsFault (section.with_line (read_of reading.old)
        (section.bulk_line_of sets mapping.now (read_of reading.old) tokens.now))) }
{
    let count = reading.lines.len();
    let line = bulk_line(alloc, sets, mapping, &reading.named, count, tokens)?;
    let named = actor(alloc, &line.name)?;
    reading.named.push(alloc, named)?;
    reading.lines.push(line)?;
    Ok(())
}

/// Goes on at a place with the next line, if this one has one token alone.
fn move_to(place: Place, reading: &mut Reading, tokens: &[Token]) -> Result<(), LineError>
    ensures line { OnOk result (alone tokens.now
        (record (read_of reading.old) { place = place }) ≡ Ok (read_of reading.new)) }
    ensures fault { IfErr result (IsFault (alone tokens.now
        (record (read_of reading.old) { place = place }))) }
{
    match tokens {
        [_] => {
            reading.place = place;
            Ok(())
        }
        _ => Err(LineError::Fault(Kind::Words)),
    }
}

/// A line among the bulk lines.
fn take_line(
    alloc: Global,
    mapping: &Mapping,
    reading: &mut Reading,
    tokens: &[Token],
) -> Result<(), LineError>
    ensures line { OnOk result (section.after_lines mapping.now (read_of reading.old) tokens.now
        ≡ Ok (read_of reading.new)) }
    ensures fault { IfErr result
        (IsFault (section.after_lines mapping.now (read_of reading.old) tokens.now)) }
{
    if begins(tokens, b"update") {
        take_bulk(alloc, true, mapping, reading, tokens)
    } else if begins(tokens, b"delete") {
        take_bulk(alloc, false, mapping, reading, tokens)
    } else if begins(tokens, b"schedule") {
        move_to(Place::Schedule, reading, tokens)
    } else {
        Err(LineError::Fault(Kind::Line))
    }
}

/// One order more, unless there are too many.
fn with_order(reading: &mut Reading, order: Result<Order, Kind>) -> Result<(), LineError>
    ensures line { OnOk result (section.with_order (read_of reading.old) order
        ≡ Ok (read_of reading.new)) }
    ensures fault { IfErr result (IsFault (section.with_order (read_of reading.old) order)) }
{
    let order = match order {
        Ok(order) => order,
        Err(kind) => return Err(LineError::Fault(kind)),
    };
    if reading.orders.len() >= MOST_ORDERS {
        return Err(LineError::Fault(Kind::Many));
    }
    reading.orders.push(order)?;
    Ok(())
}

/// A line within the schedule.
fn take_order(mapping: &Mapping, reading: &mut Reading, tokens: &[Token]) -> Result<(), LineError>
    ensures line { OnOk result (section.in_schedule mapping.now (read_of reading.old) tokens.now
        ≡ Ok (read_of reading.new)) }
    ensures fault { IfErr result
        (IsFault (section.in_schedule mapping.now (read_of reading.old) tokens.now)) }
{
    if begins(tokens, b"end") {
        return move_to(Place::Over, reading, tokens);
    }
    if !begins(tokens, b"run") {
        return Err(LineError::Fault(Kind::Line));
    }
    let order = order(mapping, &reading.named, tokens);
    with_order(reading, order)
}

/// One line more, wherever it stands.
fn take(
    alloc: Global,
    mapping: &Mapping,
    reading: &mut Reading,
    tokens: &[Token],
) -> Result<(), LineError>
    ensures line { OnOk result (section.after mapping.now (read_of reading.old) tokens.now
        ≡ Ok (read_of reading.new)) }
    ensures fault { IfErr result
        (IsFault (section.after mapping.now (read_of reading.old) tokens.now)) }
{
    match reading.place {
        Place::Lines => take_line(alloc, mapping, reading, tokens),
        Place::Schedule => take_order(mapping, reading, tokens),
        Place::Over => Err(LineError::Fault(Kind::Line)),
    }
}

/// One line more, with its number if it is refused.
fn take_at(
    alloc: Global,
    mapping: &Mapping,
    reading: &mut Reading,
    line: &Line,
) -> Result<(), ScriptError>
    ensures line { OnOk result (at_line line.now.line
        (section.after mapping.now (read_of reading.old) line.now.tokens)
        ≡ Ok (read_of reading.new)) }
    ensures refused { IfErr result (IsWhere (at_line line.now.line
        (section.after mapping.now (read_of reading.old) line.now.tokens))) }
{
    match take(alloc, mapping, reading, line.tokens.as_slice()) {
        Ok(()) => Ok(()),
        Err(LineError::Fault(kind)) => Err(ScriptError::Refused(Refused {
            line: line.line,
            kind,
        })),
        Err(LineError::NoMemory) => Err(ScriptError::NoMemory),
    }
}

/// All lines of the section.
#[tactic(auto, using(crate::proofs::BulksRead::reading_next, crate::proofs::BulksRead::reading_done, crate::proofs::BulksRead::where_on))]
fn read(
    alloc: Global,
    mapping: &Mapping,
    sessions: &Sessions,
    lines: &[Line],
) -> Result<Reading, ScriptError>
    ensures read { IfOk result (λ r. section.reading mapping.now (Ok (section.start sessions.now))
        lines.now ≡ Ok (read_of r)) }
    ensures refused { IfErr result (IsWhere
        (section.reading mapping.now (Ok (section.start sessions.now)) lines.now)) }
{
    let mut reading = start(alloc, sessions)?;
    for line in lines {
        take_at(alloc, mapping, &mut reading, line)?;
    }
    Ok(reading)
}

/// What was read, if the text may end there, which has `count` lines.
fn ended(count: u32, reading: Reading) -> Result<Bulks, ScriptError>
    ensures bulks { IfOk result (λ b. section.ended_at count (read_of reading) reading.place
        ≡ Ok (map said_of b.lines, b.orders)) }
    ensures refused { IfErr result
        (IsWhere (section.ended_at count (read_of reading) reading.place)) }
{
    match reading.place {
        Place::Schedule => Err(ScriptError::Refused(Refused {
            line: count,
            kind: Kind::NoEnd,
        })),
        _ => Ok(Bulks {
            lines: reading.lines,
            orders: reading.orders,
        }),
    }
}

/// The bulk lines and the schedule of a section, over a script's mapping and sessions; the lines of the script stand
/// before them.
///
/// There are at most 100 lines. Each changes rows of an entity of the mapping, and steps to entities of it alone.
/// Entities that are cached are read-write.
///
/// Errors: `Refused` exactly if the lines are no such section, with the first bad line of both and the first kind that
/// it has of order, strategy, cached, line, words, taken, unknown, number, type, depth, many and no-end. A schedule, an
/// entity of another strategy than `none` and `read-write` and a cached query stand in the script's own lines.
/// `NoMemory` if there is none left. Nothing is changed.
pub fn read_bulks(
    alloc: Global,
    mapping: &Mapping,
    sessions: &Sessions,
    before: &[Line],
    behind: &Lines,
) -> Result<Bulks, ScriptError>
    ensures bulks { IfOk result (λ b. section.bulks_of mapping.now sessions.now before.now behind.now
        ≡ Ok (map said_of b.lines, b.orders)) }
    ensures fit { IfOk result (λ b. AreFit mapping.now b.lines) }
    ensures refused { IfErr result
        (IsWhere (section.bulks_of mapping.now sessions.now before.now behind.now)) }
{
    bulks_said(alloc, mapping, sessions, before, behind)
}

/// The bulk lines and the schedule that the lines say.
fn bulks_said(
    alloc: Global,
    mapping: &Mapping,
    sessions: &Sessions,
    before: &[Line],
    behind: &Lines,
) -> Result<Bulks, ScriptError>
    ensures bulks { IfOk result (λ b. section.bulks_of mapping.now sessions.now before.now behind.now
        ≡ Ok (map said_of b.lines, b.orders)) }
    ensures refused { IfErr result
        (IsWhere (section.bulks_of mapping.now sessions.now before.now behind.now)) }
{
    if let Some(refused) = fault_before(mapping.as_slice(), before) {
        return Err(ScriptError::Refused(refused));
    }
    let reading = read(alloc, mapping, sessions, behind.lines.as_slice())?;
    ended(behind.count, reading)
}
