// How the sessions ended.

ghost use Rattle.std.specs.Prelude.{◌≡◌, ◌++◌, OnOk, codes, reverse};
ghost use Rattle.hib_report.specs.Report.{end_text, fates_text, sessions_text};

use crate::fates::Fates;
use crate::replies::put_outcome;
use hib_base::{Entry, Outcome, Script, SessionDef};
use hib_texts::put_labelled;
use std::alloc::{AllocError, Global};

fn put_fate(out: &mut Vec<u8>, killed: bool, outcome: Outcome) -> Result<(), AllocError>
    ensures { OnOk result (out.new.items ≡ out.old.items ++ end_text killed outcome) }
{
    if killed {
        out.extend_from_slice(b"killed")
    } else {
        put_outcome(out, outcome)
    }
}

// The line of a session.
fn put_session(
    out: &mut Vec<u8>,
    def: &SessionDef,
    killed: bool,
    outcome: Outcome,
) -> Result<(), AllocError>
    ensures { OnOk result (out.new.items
        ≡ out.old.items ++ (def.now.name ++ codes " " ++ end_text killed outcome ++ codes
        "\n")) }
{
    out.extend_from_slice(def.name.as_slice())?;
    out.extend_from_slice(b" ")?;
    put_fate(out, killed, outcome)?;
    out.extend_from_slice(b"\n")
}

fn put_fates(
    alloc: Global,
    out: &mut Vec<u8>,
    sessions: &[SessionDef],
    entries: &[Entry],
) -> Result<(), AllocError>
    ensures { OnOk result (out.new.items
        ≡ out.old.items ++ fates_text (reverse entries.now) 0 sessions.now) }
{
    let ended = Fates::of(alloc, sessions.len(), entries)?;
    for (session, def) in sessions.iter().enumerate() {
        let fate = ended.fates[session];
        put_session(out, def, fate.is_killed(ended.restart), fate.outcome)?;
    }
    Ok(())
}

/// The number of sessions, and how each ended.
pub fn put_sessions(
    alloc: Global,
    out: &mut Vec<u8>,
    script: &Script,
    entries: &[Entry],
) -> Result<(), AllocError>
    ensures { OnOk result (out.new.items
        ≡ out.old.items ++ sessions_text script.now (reverse entries.now)) }
{
    put_labelled(alloc, out, b"sessions ", script.sessions.len() as u64)?;
    out.extend_from_slice(b"\n")?;
    put_fates(alloc, out, script.sessions.as_slice(), entries)
}
