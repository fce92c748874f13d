// What a request comes to.
ghost use Rattle.hib_serve.specs.Names.{NamesBehind, NamesDone, NamesRefused};
ghost use Rattle.hib_serve.specs.Served.{CameTo, HasDone, IsWhy, refusal_for};
ghost use Rattle.hib_serve.specs.Sessions.{IsRefused};
ghost use Rattle.hib_serve_requests.specs.Requests.{asked_text};
ghost use Rattle.std.specs.Prelude.{◌≡◌, IfErr, IfOk, None, OnErr, OnOk, Some, is_ok, not};

use crate::names::Names;
use crate::orders::{evict, kill, kill_all, restart};
use crate::sessions::{go_on, say};
use hib_live::{LiveCore, Name};
use hib_outside::Keeper;
use hib_serve_answers::Refusal;
use hib_serve_requests::{Asked, Fault};
use std::alloc::{AllocError, Global};

/// What was done for a request.
#[derive(Drop)]
pub struct Done {
    /// The name of the session that it is about, if it is about one.
    pub session: Option<String>,
    /// Whether steps are left, since memory ran out in them.
    pub stopped: bool,
    /// Whether it was the last request.
    pub over: bool,
}

// What was done for a session, whose steps came to this.
fn of_session(session: String, made: Result<(), AllocError>) -> Done
    ensures session { result.session ≡ Some session }
    ensures stopped { result.stopped ≡ not (is_ok made) }
{
    Done {
        session: Some(session),
        stopped: made.is_err(),
        over: false,
    }
}

fn of_none(made: Result<(), AllocError>, over: bool) -> Done
    ensures session { result.session ≡ None }
    ensures stopped { result.stopped ≡ not (is_ok made) }
{
    Done {
        session: None,
        stopped: made.is_err(),
        over,
    }
}

/// Does what is asked, or says why not.
pub fn perform<K: Keeper, N: Name>(
    alloc: Global,
    core: &mut LiveCore<K, N>,
    names: &mut Names,
    asked: Asked,
) -> Result<Done, Refusal>
    ensures done { IfOk result (HasDone (asked_text asked) names.old.entries core.old core.new) }
    ensures why { IfErr result (IsWhy (asked_text asked) names.old.entries core.old) }
    ensures err { OnErr result (IsRefused core.old core.new) }
    ensures named { OnOk result (NamesDone (asked_text asked) core.old.script names.old.entries
        names.new.entries) }
    ensures unnamed { OnErr result (NamesRefused (asked_text asked) core.old.script core.new.script
        names.old.entries names.new.entries) }
{
    match asked {
        Asked::Say { session, statement } => {
            let made = say(alloc, core, names, session.as_bytes(), statement.as_bytes())?;
            Ok(of_session(session, made))
        }
        Asked::GoOn { session } => {
            let made = go_on(alloc, core, names, session.as_bytes())?;
            Ok(of_session(session, made))
        }
        Asked::Kill { session } => {
            kill(core, names, session.as_bytes())?;
            Ok(of_session(session, Ok(())))
        }
        Asked::Evict { entity, id } => {
            evict(alloc, core, entity.as_bytes(), id)?;
            Ok(of_none(Ok(()), false))
        }
        Asked::Restart => {
            restart(core)?;
            Ok(of_none(Ok(()), false))
        }
        Asked::End => Ok(of_none(kill_all(core), true)),
    }
}

fn refusal_for(fault: Fault) -> Refusal
    ensures { result ≡ refusal_for fault }
{
    match fault {
        Fault::Long => Refusal::Long,
        Fault::NotAnObject => Refusal::Line,
        Fault::Unknown(name) => Refusal::Unknown(name),
        Fault::Members => Refusal::Members,
    }
}

/// Does what a line asks for, or says why it is refused.
pub fn come_to<K: Keeper, N: Name>(
    alloc: Global,
    core: &mut LiveCore<K, N>,
    names: &mut Names,
    asked: Result<Asked, Fault>,
) -> Result<Done, Refusal>
    ensures came { CameTo asked names.old.entries core.old core.new result }
    ensures named { NamesBehind asked result core.old core.new names.old.entries names.new.entries }
{
    match asked {
        Ok(asked) => perform(alloc, core, names, asked),
        Err(fault) => Err(refusal_for(fault)),
    }
}
