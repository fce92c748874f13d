// What one line adds to a draft of a script, by where the reader stands.
ghost use Rattle.hib_script.specs.Drafts.{reader_of};
ghost use Rattle.hib_script.specs.Lines as lines;
ghost use Rattle.std.specs.Prelude.{◌≡◌, IfErr, OnOk, Ok};

use crate::declarations::{
    column_line, entity_line, header_line, query_line, results_line, row_line, timeout_line,
};
use crate::drafts::{Draft, at, close};
use crate::errors::LineError;
use crate::places::{Part, Place, may_follow, part_of};
use crate::sessions::{in_schedule, in_session, schedule_line, session_line};
use hib_base::Kind;
use hib_lex::{Token, begins};
use std::alloc::Global;
use std::mem;

/// Takes one more line into the draft, or says what is wrong with it; `followed` says whether the line after it is a
/// column's.
pub fn after_line(
    alloc: Global,
    draft: &mut Draft,
    followed: bool,
    tokens: &[Token],
) -> Result<(), LineError>
    ensures step { OnOk result (lines.after_line (reader_of draft.old) followed tokens.now
        ≡ Ok (reader_of draft.new)) }
    ensures fault { IfErr result (lines.IsFault
        (lines.after_line (reader_of draft.old) followed tokens.now)) }
{
    let place = mem::replace(&mut draft.place, Place::Start);
    match place {
        Place::Start => header_line(draft, tokens),
        Place::Behind(last) => {
            at(Place::Behind(last), draft);
            behind_part(alloc, draft, last, followed, tokens)
        }
        Place::Session(session) => in_session(alloc, draft, session, tokens),
        Place::Schedule => {
            at(Place::Schedule, draft);
            in_schedule(draft, tokens)
        }
    }
}

/// Takes a line after the line of a part: of the same part, of a later one, or of a column.
fn behind_part(
    alloc: Global,
    draft: &mut Draft,
    last: Part,
    followed: bool,
    tokens: &[Token],
) -> Result<(), LineError>
    ensures step { OnOk result (lines.behind_part (reader_of draft.old) last followed tokens.now
        ≡ Ok (reader_of draft.new)) }
    ensures fault { IfErr result (lines.IsFault
        (lines.behind_part (reader_of draft.old) last followed tokens.now)) }
{
    if begins(tokens, b"column") {
        return column_line(alloc, draft, tokens);
    }
    match part_of(tokens) {
        Some(part) if may_follow(last, part) => {
            close(draft)?;
            part_line(alloc, draft, part, followed, tokens)
        }
        _ => Err(LineError::Fault(Kind::Line)),
    }
}

/// Takes the line of a part.
fn part_line(
    alloc: Global,
    draft: &mut Draft,
    part: Part,
    followed: bool,
    tokens: &[Token],
) -> Result<(), LineError>
    ensures step { OnOk result (lines.part_line (reader_of draft.old) part followed tokens.now
        ≡ Ok (reader_of draft.new)) }
    ensures fault { IfErr result (lines.IsFault
        (lines.part_line (reader_of draft.old) part followed tokens.now)) }
{
    match part {
        Part::Header => Err(LineError::Fault(Kind::Line)),
        Part::Timeout => timeout_line(draft, tokens),
        Part::Results => results_line(draft, tokens),
        Part::Entities => entity_line(alloc, draft, followed, tokens),
        Part::Rows => row_line(alloc, draft, tokens),
        Part::Queries => query_line(alloc, draft, tokens),
        Part::Sessions => session_line(alloc, draft, tokens),
        Part::Schedule => schedule_line(draft, tokens),
    }
}
