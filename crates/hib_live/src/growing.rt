// The script of what was asked so far, which grows.
ghost use Rattle.hib_live.specs.Asked.{name_of, with_session, with_statement};
ghost use Rattle.std.specs.Prelude.{◌≡◌, ◌<◌, length, IfOk, OnOk, OnErr};

use hib_base::{Script, Seq, SessionDef, SessionNo, Statement, Text};
use std::alloc::{AllocError, Global};
use std::mem;

/// The name of a session of this number: `s1` of the first one. Fails for want of memory alone.
pub fn name_of(alloc: Global, number: u32) -> Result<Text, AllocError>
    ensures { IfOk result (λ t. t ≡ name_of number) }
{
    let mut name = b"s".to_vec(alloc)?;
    let digits = (u64::from(number) + 1).to_string(alloc)?;
    name.extend_from_slice(digits.as_bytes())?;
    Ok(Seq::from_vec(name))
}

/// Adds a session without statements behind the others. At an error nothing has changed.
pub fn add_session(alloc: Global, script: &mut Script, name: Text) -> Result<(), AllocError>
    ensures ok { OnOk result (script.new ≡ with_session script.old name) }
    ensures err { OnErr result (script.new ≡ script.old) }
{
    script.sessions.push(SessionDef {
        name,
        statements: Seq::new(alloc),
    })
}

/// Adds a statement behind those of a session, which must be there. At an error nothing has changed.
pub fn add_statement(
    alloc: Global,
    script: &mut Script,
    number: SessionNo,
    statement: Statement,
) -> Result<(), AllocError>
    requires there { number < length script.old.sessions }
    ensures ok { OnOk result (script.new ≡ with_statement script.old number statement) }
    ensures err { OnErr result (script.new ≡ script.old) }
{
    let mut sessions = mem::replace(&mut script.sessions, Seq::new(alloc)).into_vec();
    let added = sessions[number.0 as usize].statements.push(statement);
    script.sessions = Seq::from_vec(sessions);
    added
}
