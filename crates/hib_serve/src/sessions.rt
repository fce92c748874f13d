// What sessions do for a request.
ghost use Rattle.hib_journal.specs.Kept.{past};
ghost use Rattle.hib_journal.specs.Played.{has_next};
ghost use Rattle.hib_live.specs.Asked.{with_statement};
ghost use Rattle.hib_serve.specs.Names.{HasNamed, NamesRefused};
ghost use Rattle.hib_serve.specs.Sessions.{HasGoneOn, HasRun, HasSaid, IsRefused, IsWhyNot, IsWhyUnsaid, refusal_of};
ghost use Rattle.hib_serve_answers.specs.declared.refusals.Refusal.{Refusal};
ghost use Rattle.hib_serve_requests.specs.Requests.{says};
ghost use Rattle.hib_statements.specs.Places.{place_of};
ghost use Rattle.std.specs.Prelude.{◌≡◌, IfErr, IfOk, None, OnErr, OnOk, false, is_ok};

use crate::names::{Names, number_of, session_of};
use crate::statements::statement_in;
use hib_base::{SessionNo, Statement};
use hib_live::{LiveCore, Name, Refusal as Unasked, Stepped};
use hib_outside::Keeper;
use hib_serve_answers::Refusal;
use std::alloc::{AllocError, Global};

/// Makes the steps that a session's statement has left, if there is such a session. Fails for want of memory alone, so
/// that some may be left.
pub fn make_steps<K: Keeper, N: Name>(
    alloc: Global,
    core: &mut LiveCore<K, N>,
    number: SessionNo,
) -> Result<(), AllocError>
    ensures asked { core.new.script ≡ core.old.script }
    ensures ran { HasRun number core.old.journal core.new.journal }
    ensures over { OnOk result (has_next core.new.script (past core.new.journal) number ≡ false) }
{
    'steps: loop {
        match core.step(alloc, number) {
            Ok(Stepped::Did) => {}
            Ok(Stepped::Done) => return Ok(()),
            Err(Unasked::NoSession) => return Ok(()),
            Err(_) => return Err(AllocError),
        }
    }
}

/// Why a statement isn't taken, as an answer says it.
fn refusal_of(unasked: Unasked) -> Refusal
    ensures { result ≡ refusal_of unasked }
{
    match unasked {
        Unasked::NoSession => Refusal::Session,
        Unasked::Killed => Refusal::Killed,
        Unasked::Busy => Refusal::Busy,
        Unasked::Unfit => Refusal::Unfit,
        Unasked::NoMemory | Unasked::Deaf => Refusal::Memory,
    }
}

// Has a session take a statement, and make its steps.
fn take<K: Keeper, N: Name>(
    alloc: Global,
    core: &mut LiveCore<K, N>,
    number: SessionNo,
    statement: Statement,
) -> Result<Result<(), AllocError>, Refusal>
    ensures asked { OnOk result (core.new.script
        ≡ with_statement core.old.script number statement) }
    ensures idle { OnOk result (has_next core.old.script (past core.old.journal) number ≡ false) }
    ensures ran { OnOk result (HasRun number core.old.journal core.new.journal) }
    ensures over { IfOk result (λ made. OnOk made
        (has_next core.new.script (past core.new.journal) number ≡ false)) }
    ensures why { IfErr result (IsWhyNot core.old.script core.old.journal number statement) }
    ensures err { OnErr result (core.new ≡ core.old) }
{
    match core.ask(alloc, number, statement) {
        Ok(()) => Ok(make_steps(alloc, core, number)),
        Err(unasked) => Err(refusal_of(unasked)),
    }
}

/// Has the session of a name say a text as its next statement, and make the statement's steps. The name begins a session
/// if it has none. What its steps came to is the value: an error if memory ran out in them, so that some may be left.
///
/// Errors: the text is no statement, or is of something that isn't declared; the session was killed, or has steps left;
/// or there is no memory. No entry is added then; at most the session has begun.
pub fn say<K: Keeper, N: Name>(
    alloc: Global,
    core: &mut LiveCore<K, N>,
    names: &mut Names,
    session: &[u8],
    text: &[u8],
) -> Result<Result<(), AllocError>, Refusal>
    ensures said { IfOk result (λ made. HasSaid (place_of session.now names.old.entries) text.now
        core.old core.new (is_ok made)) }
    ensures named { OnOk result (HasNamed session.now core.old.script names.old.entries
        names.new.entries) }
    ensures why { IfErr result (IsWhyUnsaid (place_of session.now names.old.entries) text.now
        core.old) }
    ensures err { OnErr result (IsRefused core.old core.new) }
    ensures unnamed { OnErr result (NamesRefused (says session.now text.now) core.old.script
        core.new.script names.old.entries names.new.entries) }
{
    let statement = statement_in(alloc, core.script(), text)?;
    let Ok(number) = session_of(alloc, core, names, session) else {
        return Err(Refusal::Memory);
    };
    take(alloc, core, number, statement)
}

/// Has the session of a name make the steps that its statement has left. What they came to is the value: an error if
/// memory ran out in them.
///
/// Errors: `Session` if the name has no session. Nothing has changed then.
pub fn go_on<K: Keeper, N: Name>(
    alloc: Global,
    core: &mut LiveCore<K, N>,
    names: &Names,
    session: &[u8],
) -> Result<Result<(), AllocError>, Refusal>
    ensures ran { IfOk result (λ made. HasGoneOn (place_of session.now names.now.entries)
        core.old core.new (is_ok made)) }
    ensures why { IfErr result (λ r. r ≡ Refusal.Session) }
    ensures unknown { OnErr result (place_of session.now names.now.entries ≡ None) }
    ensures err { OnErr result (core.new ≡ core.old) }
{
    match number_of(names, session) {
        Some(number) => Ok(make_steps(alloc, core, number)),
        None => Err(Refusal::Session),
    }
}
