// Where a reader of a script stands. A part is here a part of a script's text, and parts come in a fixed order.
ghost use Rattle.hib_script.specs.Places as places;
ghost use Rattle.std.specs.Prelude.{◌≡◌};

use hib_base::SessionDef;
use hib_lex::{Token, begins};

/// A part of a script.
#[derive(Clone, Copy)]
pub enum Part {
    /// The line `hib 1`.
    Header,
    /// The line of the timeout.
    Timeout,
    /// The line of the number of results.
    Results,
    /// Entities with their columns.
    Entities,
    /// Rows.
    Rows,
    /// Queries.
    Queries,
    /// Sessions.
    Sessions,
    /// The schedule.
    Schedule,
}

/// Where a reader stands, with what isn't finished there.
#[derive(Drop)]
pub enum Place {
    /// Before the first line.
    Start,
    /// After a line of this part, or after the `end` of one.
    Behind(Part),
    /// Within a session, of which this was read.
    Session(SessionDef),
    /// Within the schedule.
    Schedule,
}

/// Where a part stands in the order of parts, from 0.
fn rank(part: Part) -> u8
    ensures { result ≡ places.rank part }
{
    match part {
        Part::Header => 0,
        Part::Timeout => 1,
        Part::Results => 2,
        Part::Entities => 3,
        Part::Rows => 4,
        Part::Queries => 5,
        Part::Sessions => 6,
        Part::Schedule => 7,
    }
}

/// Whether a part may come more than once in a row.
fn repeats(part: Part) -> bool
    ensures { result ≡ places.repeats part }
{
    matches!(
        part,
        Part::Entities | Part::Rows | Part::Queries | Part::Sessions
    )
}

/// Whether a line of a part may come after a line of another.
pub fn may_follow(last: Part, next: Part) -> bool
    ensures { result ≡ places.may_follow last next }
{
    rank(last) < rank(next) || (repeats(next) && rank(last) == rank(next))
}

/// The part to which a line belongs by its first word.
pub fn part_of(tokens: &[Token]) -> Option<Part>
    ensures { result ≡ places.part_of tokens.now }
{
    if begins(tokens, b"timeout") {
        Some(Part::Timeout)
    } else if begins(tokens, b"results") {
        Some(Part::Results)
    } else if begins(tokens, b"entity") {
        Some(Part::Entities)
    } else if begins(tokens, b"row") {
        Some(Part::Rows)
    } else if begins(tokens, b"query") {
        Some(Part::Queries)
    } else if begins(tokens, b"session") {
        Some(Part::Sessions)
    } else if begins(tokens, b"schedule") {
        Some(Part::Schedule)
    } else {
        None
    }
}
