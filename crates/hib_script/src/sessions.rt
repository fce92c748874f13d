// The lines of sessions and of the schedule. `..._line` takes one line into the draft; `with_...` and `new_...` put in
// what it says, or say what is wrong.
ghost use Rattle.hib_base.specs.Scripts.{ends, are_over};
ghost use Rattle.hib_base.specs.declared.refusals.Kind.{Kind};
ghost use Rattle.hib_mapping.specs.Parts.{is_a_word, word_of};
ghost use Rattle.hib_script.specs.Drafts.{reader_of};
ghost use Rattle.hib_script.specs.Lines as lines;
ghost use Rattle.std.specs.Prelude.{◌≡◌, IfErr, OnOk, Ok, Err, if◌then◌else◌};

use crate::drafts::{Draft, at, behind, has_room};
use crate::errors::LineError;
use crate::forms::is_alone;
use crate::places::{Part, Place};
use hib_base::{Kind, Order, Seq, SessionDef, Statement};
use hib_lex::{Token, begins};
use hib_mapping::{is_reserved, is_word, word, word_bytes};
use hib_statements::{StatementError, order, statement};
use std::alloc::{AllocError, Global};

/// The most sessions of a script.
const MOST_SESSIONS: usize = 1_000;

/// The most statements of all sessions of a script.
const MOST_STATEMENTS: u32 = 5_000;

/// The most orders of a schedule.
const MOST_ORDERS: usize = 20_000;

/// `session NAME`.
pub fn session_line(alloc: Global, draft: &mut Draft, tokens: &[Token]) -> Result<(), LineError>
    ensures step { OnOk result (lines.session_line (reader_of draft.old) tokens.now
        ≡ Ok (reader_of draft.new)) }
    ensures fault { IfErr result (lines.IsFault
        (lines.session_line (reader_of draft.old) tokens.now)) }
{
    match tokens {
        [_, name] => named_session(alloc, draft, name),
        _ => Err(LineError::Fault(Kind::Words)),
    }
}

fn named_session(alloc: Global, draft: &mut Draft, name: &Token) -> Result<(), LineError>
    ensures step { OnOk result ((if is_a_word name.now
        then lines.new_session (reader_of draft.old) (word_of name.now) else Err Kind.Words)
        ≡ Ok (reader_of draft.new)) }
    ensures fault { IfErr result (lines.IsFault
        (if is_a_word name.now then lines.new_session (reader_of draft.old) (word_of name.now)
        else Err Kind.Words)) }
{
    if is_word(name) {
        new_session(alloc, draft, name)
    } else {
        Err(LineError::Fault(Kind::Words))
    }
}

fn new_session(alloc: Global, draft: &mut Draft, name: &Token) -> Result<(), LineError>
    ensures step { OnOk result (lines.new_session (reader_of draft.old) (word_of name.now)
        ≡ Ok (reader_of draft.new)) }
    ensures fault { IfErr result (lines.IsFault
        (lines.new_session (reader_of draft.old) (word_of name.now))) }
{
    let bytes = word_bytes(name);
    if is_reserved(bytes) {
        return Err(LineError::Fault(Kind::Reserved));
    }
    if draft.sessions.has(bytes) {
        return Err(LineError::Fault(Kind::Taken));
    }
    if !has_room(draft.sessions.len(), MOST_SESSIONS) {
        return Err(LineError::Fault(Kind::Many));
    }
    let session = SessionDef {
        name: word(alloc, name)?,
        statements: Seq::new(alloc),
    };
    at(Place::Session(session), draft);
    Ok(())
}

/// Takes a line within a session: a statement or `end`.
pub fn in_session(
    alloc: Global,
    draft: &mut Draft,
    session: SessionDef,
    tokens: &[Token],
) -> Result<(), LineError>
    ensures step { OnOk result (lines.in_session (reader_of draft.old) session tokens.now
        ≡ Ok (reader_of draft.new)) }
    ensures fault { IfErr result (lines.IsFault
        (lines.in_session (reader_of draft.old) session tokens.now)) }
{
    if begins(tokens, b"end") {
        end_line(alloc, draft, session, tokens)
    } else {
        statement_line(alloc, draft, session, tokens)
    }
}

#[tactic(auto, using(crate::proofs::Queries::names_of_said))]
fn statement_line(
    alloc: Global,
    draft: &mut Draft,
    session: SessionDef,
    tokens: &[Token],
) -> Result<(), LineError>
    ensures step { OnOk result (lines.statement_line (reader_of draft.old) session tokens.now
        ≡ Ok (reader_of draft.new)) }
    ensures fault { IfErr result (lines.IsFault
        (lines.statement_line (reader_of draft.old) session tokens.now)) }
{
    match statement(alloc, &draft.script.mapping, &draft.script.queries, tokens) {
        Ok(statement) => with_statement(draft, session, statement),
        Err(StatementError::Fault(kind)) => Err(LineError::Fault(kind)),
        Err(StatementError::NoMemory) => Err(LineError::NoMemory),
    }
}

fn with_statement(
    draft: &mut Draft,
    mut session: SessionDef,
    statement: Statement,
) -> Result<(), LineError>
    ensures step { OnOk result (lines.with_statement (reader_of draft.old) session (Ok statement)
        ≡ Ok (reader_of draft.new)) }
    ensures fault { IfErr result (lines.IsFault
        (lines.with_statement (reader_of draft.old) session (Ok statement))) }
{
    if draft.statements >= MOST_STATEMENTS {
        return Err(LineError::Fault(Kind::Many));
    }
    session.statements.push(statement)?;
    draft.statements += 1;
    at(Place::Session(session), draft);
    Ok(())
}

/// Whether a statement ends its transaction.
fn ends_one(statement: &Statement) -> bool
    ensures { result ≡ ends statement.now }
{
    matches!(statement, Statement::Commit | Statement::Rollback)
}

/// Whether the last statement ends a transaction. A session's must.
#[tactic(auto, using(crate::proofs::Statements::over_last))]
fn are_over(statements: &[Statement]) -> bool
    ensures { result ≡ are_over statements.now }
{
    match statements.last() {
        Some(last) => ends_one(last),
        None => false,
    }
}

/// Takes the `end` of a session.
fn end_line(
    alloc: Global,
    draft: &mut Draft,
    session: SessionDef,
    tokens: &[Token],
) -> Result<(), LineError>
    ensures step { OnOk result (lines.end_line (reader_of draft.old) session tokens.now
        ≡ Ok (reader_of draft.new)) }
    ensures fault { IfErr result (lines.IsFault
        (lines.end_line (reader_of draft.old) session tokens.now)) }
{
    if !is_alone(tokens) {
        return Err(LineError::Fault(Kind::Words));
    }
    if are_over(session.statements.as_slice()) {
        Ok(with_session(alloc, draft, session)?)
    } else {
        Err(LineError::Fault(Kind::Last))
    }
}

fn with_session(alloc: Global, draft: &mut Draft, session: SessionDef) -> Result<(), AllocError>
    ensures { OnOk result (reader_of draft.new ≡ lines.with_session (reader_of draft.old) session) }
{
    let SessionDef { name, statements } = session;
    let mut statements = statements.into_vec();
    statements.shrink_to_fit();
    let statements = Seq::from_vec(statements);
    draft.sessions.push(alloc, SessionDef { name, statements })?;
    behind(Part::Sessions, draft);
    Ok(())
}

/// `schedule`.
pub fn schedule_line(draft: &mut Draft, tokens: &[Token]) -> Result<(), LineError>
    ensures step { OnOk result (lines.schedule_line (reader_of draft.old) tokens.now
        ≡ Ok (reader_of draft.new)) }
    ensures fault { IfErr result (lines.IsFault
        (lines.schedule_line (reader_of draft.old) tokens.now)) }
{
    if is_alone(tokens) {
        at(Place::Schedule, draft);
        Ok(())
    } else {
        Err(LineError::Fault(Kind::Words))
    }
}

/// Takes a line within the schedule: an order or `end`.
pub fn in_schedule(draft: &mut Draft, tokens: &[Token]) -> Result<(), LineError>
    ensures step { OnOk result (lines.in_schedule (reader_of draft.old) tokens.now
        ≡ Ok (reader_of draft.new)) }
    ensures fault { IfErr result (lines.IsFault
        (lines.in_schedule (reader_of draft.old) tokens.now)) }
{
    if begins(tokens, b"end") {
        return schedule_end(draft, tokens);
    }
    let order = order(&draft.script.mapping, &draft.sessions, tokens);
    with_order(draft, order)
}

fn schedule_end(draft: &mut Draft, tokens: &[Token]) -> Result<(), LineError>
    ensures step { OnOk result (lines.schedule_end (reader_of draft.old) tokens.now
        ≡ Ok (reader_of draft.new)) }
    ensures fault { IfErr result (lines.IsFault
        (lines.schedule_end (reader_of draft.old) tokens.now)) }
{
    if is_alone(tokens) {
        behind(Part::Schedule, draft);
        Ok(())
    } else {
        Err(LineError::Fault(Kind::Words))
    }
}

fn with_order(draft: &mut Draft, order: Result<Order, Kind>) -> Result<(), LineError>
    ensures step { OnOk result (lines.with_order (reader_of draft.old) order
        ≡ Ok (reader_of draft.new)) }
    ensures fault { IfErr result (lines.IsFault (lines.with_order (reader_of draft.old) order)) }
{
    let order = match order {
        Ok(order) => order,
        Err(kind) => return Err(LineError::Fault(kind)),
    };
    if !has_room(draft.script.schedule.len(), MOST_ORDERS) {
        return Err(LineError::Fault(Kind::Many));
    }
    draft.script.schedule.push(order)?;
    Ok(())
}
