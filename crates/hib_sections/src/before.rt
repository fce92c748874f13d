// What a script may not have before a section of bulk lines or of places.
ghost use Rattle.std.specs.Prelude.{◌≡◌};
ghost use Rattle.hib_sections.specs.Before as before;

use hib_base::{EntityDef, Kind, Refused, Strategy};
use hib_lex::{Line, Token, begins, is_the_word};

/// Whether rows are cached by a strategy without soft locks.
fn is_other(strategy: Strategy) -> bool
    ensures { result ≡ before.is_other strategy }
{
    matches!(strategy, Strategy::ReadOnly | Strategy::Nonstrict)
}

/// Whether a line declares the entity of this name.
fn declares(name: &[u8], tokens: &[Token]) -> bool
    ensures { result ≡ before.declares name.now tokens.now }
{
    match tokens {
        [first, second, ..] => is_the_word(first, b"entity") && is_the_word(second, name),
        _ => false,
    }
}

/// The number of the line that declares the entity of this name, if there is one.
fn declaring_line(name: &[u8], lines: &[Line]) -> Option<u32>
    ensures { result ≡ before.declaring_line name.now lines.now }
{
    let found = lines
        .iter()
        .find(|line| declares(name, line.tokens.as_slice()))?;
    Some(found.line)
}

/// The same; 0 if there is none.
fn entity_line(name: &[u8], lines: &[Line]) -> u32
    ensures { result ≡ before.entity_line name.now lines.now }
{
    declaring_line(name, lines).unwrap_or(0)
}

/// The number of the line of the first entity that is cached without soft locks, if there is one.
fn other_strategy(mapping: &[EntityDef], lines: &[Line]) -> Option<u32>
    ensures { result ≡ before.other_strategy mapping.now lines.now }
{
    let other = mapping.iter().find(|entity| is_other(entity.strategy))?;
    Some(entity_line(other.name.as_slice(), lines))
}

/// Whether a line declares a query whose results are kept.
fn is_cached_query(tokens: &[Token]) -> bool
    ensures { result ≡ before.is_cached_query tokens.now }
{
    match tokens {
        [first, _, third, ..] => is_the_word(first, b"query") && is_the_word(third, b"cached"),
        _ => false,
    }
}

/// The number of the line of the first query whose results are kept, if there is one.
fn cached_query(lines: &[Line]) -> Option<u32>
    ensures { result ≡ before.cached_query lines.now }
{
    let found = lines
        .iter()
        .find(|line| is_cached_query(line.tokens.as_slice()))?;
    Some(found.line)
}

/// The number of the line with which a schedule begins, if there is one.
fn schedule_line(lines: &[Line]) -> Option<u32>
    ensures { result ≡ before.schedule_line lines.now }
{
    let found = lines
        .iter()
        .find(|line| begins(line.tokens.as_slice(), b"schedule"))?;
    Some(found.line)
}

/// What may not stand in a script before a section of `bulk` or `nodes`, with the first line of its kind: an entity
/// that is cached without soft locks; else a query whose results are kept; else a schedule. The lines are the script's,
/// the mapping is its own.
pub fn fault_before(mapping: &[EntityDef], lines: &[Line]) -> Option<Refused>
    ensures { result ≡ before.fault_before mapping.now lines.now }
{
    if let Some(line) = other_strategy(mapping, lines) {
        return Some(refused(line, Kind::Strategy));
    }
    if let Some(line) = cached_query(lines) {
        return Some(refused(line, Kind::Cached));
    }
    let line = schedule_line(lines)?;
    Some(refused(line, Kind::Order))
}

fn refused(line: u32, kind: Kind) -> Refused
    ensures { result ≡ record { line = line; kind = kind } }
{
    Refused { line, kind }
}
