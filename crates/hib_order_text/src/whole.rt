// The whole text of a search of orders, which `hib tools orders` prints. A level is a number of switches.
ghost use Rattle.hib_order_text.specs.Texts.{comma, ending_text, endings_text, findings_text, kills_text, level_text, levels_text, never_text, nevers_text, outcome_text_of, outcomes_text, said_text, text, tried_text};
ghost use Rattle.hib_order_tries.specs.declared.endings.Ending.{Ending};
ghost use Rattle.std.specs.Prelude.{◌≡◌, ◌++◌, IfOk, OnOk, flat_map, slice_get};

use crate::findings::{Finding, put_finding};
use hib_base::{EntityDef, Outcome, Reply, Script, SessionDef, Strategy};
use hib_order_tries::{Ending, Endings, Findings, Told};
use hib_report::put_reply;
use hib_texts::{put_labelled, put_number};
use std::alloc::{AllocError, Global};

/// Adds how many kills an order may have, if it may have some.
fn put_kills(alloc: Global, out: &mut Vec<u8>, most_kills: u32) -> Result<(), AllocError>
    ensures { OnOk result (out.new.items ≡ out.old.items ++ kills_text most_kills) }
{
    if most_kills == 0 {
        return Ok(());
    }
    put_labelled(alloc, out, b" kills ", u64::from(most_kills))
}

/// Adds how many orders were tried, within which numbers of switches and of kills, and whether these are all.
fn put_tried(
    alloc: Global,
    out: &mut Vec<u8>,
    most_kills: u32,
    most: u32,
    told: &Told,
) -> Result<(), AllocError>
    ensures { OnOk result (out.new.items ≡ out.old.items ++ tried_text most_kills most told.now) }
{
    put_labelled(alloc, out, b"orders ", told.findings.tried)?;
    put_labelled(alloc, out, b" switches ", u64::from(most))?;
    put_kills(alloc, out, most_kills)?;
    if told.whole {
        return out.extend_from_slice(b" all\n");
    }
    put_labelled(alloc, out, b" cut ", told.level as u64)?;
    out.extend_from_slice(b"\n")
}

/// Adds how many orders make this number of switches.
fn put_level(
    alloc: Global,
    out: &mut Vec<u8>,
    switches: usize,
    orders: u64,
) -> Result<(), AllocError>
    ensures { OnOk result (out.new.items ≡ out.old.items ++ level_text switches orders) }
{
    put_labelled(alloc, out, b"switches ", switches as u64)?;
    put_labelled(alloc, out, b" ", orders)?;
    out.extend_from_slice(b"\n")
}

/// Adds a line for each number of switches: how many orders make as many.
fn put_levels(alloc: Global, out: &mut Vec<u8>, levels: &[u64]) -> Result<(), AllocError>
    ensures { OnOk result (out.new.items ≡ out.old.items ++ levels_text 0 levels.now) }
{
    for (switches, orders) in levels.iter().enumerate() {
        put_level(alloc, out, switches, *orders)?;
    }
    Ok(())
}

/// The outcome of a session, if there is one.
fn outcome_at(outcomes: &[Outcome], session: usize) -> Option<Outcome>
    ensures { result ≡ slice_get outcomes.now session }
{
    outcomes.get(session).copied()
}

/// Adds an outcome, if there is one.
fn put_said(
    alloc: Global,
    out: &mut Vec<u8>,
    script: &Script,
    outcome: Option<Outcome>,
) -> Result<(), AllocError>
    ensures { OnOk result (out.new.items ≡ out.old.items ++ said_text outcome) }
{
    match outcome {
        None => Ok(()),
        Some(outcome) => put_reply(alloc, out, script, &Reply::Ended { outcome }),
    }
}

/// Adds a comma before each session but the first one.
fn put_comma(out: &mut Vec<u8>, session: usize) -> Result<(), AllocError>
    ensures { OnOk result (out.new.items ≡ out.old.items ++ comma session) }
{
    if session == 0 {
        return Ok(());
    }
    out.extend_from_slice(b",")
}

/// Adds how a session has ended, by its name.
fn put_outcome(
    alloc: Global,
    out: &mut Vec<u8>,
    script: &Script,
    session: usize,
    def: &SessionDef,
    outcome: Option<Outcome>,
) -> Result<(), AllocError>
    ensures { OnOk result (out.new.items
        ≡ out.old.items ++ outcome_text_of session def.now outcome) }
{
    put_comma(out, session)?;
    out.extend_from_slice(b" ")?;
    out.extend_from_slice(def.name.as_slice())?;
    out.extend_from_slice(b" ")?;
    put_said(alloc, out, script, outcome)
}

/// Adds how each session has ended, by its name.
fn put_outcomes(
    alloc: Global,
    out: &mut Vec<u8>,
    script: &Script,
    sessions: &[SessionDef],
    outcomes: &[Outcome],
) -> Result<(), AllocError>
    ensures { OnOk result (out.new.items
        ≡ out.old.items ++ outcomes_text outcomes.now 0 sessions.now) }
{
    for (session, def) in sessions.iter().enumerate() {
        let outcome = outcome_at(outcomes, session);
        put_outcome(alloc, out, script, session, def, outcome)?;
    }
    Ok(())
}

/// Adds in how many orders the sessions end so, and how each has ended.
fn put_ending(
    alloc: Global,
    out: &mut Vec<u8>,
    script: &Script,
    ending: &Ending,
) -> Result<(), AllocError>
    ensures { OnOk result (out.new.items ≡ out.old.items ++ ending_text script.now ending.now) }
{
    put_number(alloc, out, ending.count)?;
    put_outcomes(
        alloc,
        out,
        script,
        script.sessions.as_slice(),
        ending.outcomes.as_slice(),
    )?;
    out.extend_from_slice(b"\n")
}

/// Adds a line for each ending.
fn put_each_ending(
    alloc: Global,
    out: &mut Vec<u8>,
    script: &Script,
    endings: &Endings,
) -> Result<(), AllocError>
    ensures { OnOk result (out.new.items
        ≡ out.old.items ++ flat_map (λ e. ending_text script.now e) endings.now) }
{
    for place in 0..endings.len() {
        if let Some(ending) = endings.at(place) {
            put_ending(alloc, out, script, ending)?;
        }
    }
    Ok(())
}

fn put_endings(
    alloc: Global,
    out: &mut Vec<u8>,
    script: &Script,
    endings: &Endings,
) -> Result<(), AllocError>
    ensures { OnOk result (out.new.items ≡ out.old.items ++ endings_text script.now endings.now) }
{
    put_labelled(alloc, out, b"endings ", endings.len() as u64)?;
    out.extend_from_slice(b"\n")?;
    put_each_ending(alloc, out, script, endings)
}

fn put_findings(
    alloc: Global,
    out: &mut Vec<u8>,
    script: &Script,
    findings: &Findings,
) -> Result<(), AllocError>
    ensures { OnOk result (out.new.items ≡ out.old.items ++ findings_text script.now findings.now) }
{
    put_finding(alloc, out, script, findings, Finding::StaleHit)?;
    put_finding(alloc, out, script, findings, Finding::OldList)?;
    put_finding(alloc, out, script, findings, Finding::LostUpdate)?;
    put_finding(alloc, out, script, findings, Finding::UnsoundKey)?;
    put_finding(alloc, out, script, findings, Finding::RefusedCommit)
}

/// Adds that no sound key of an entity has a stale hit, if it is a read-write one.
fn put_never(out: &mut Vec<u8>, entity: &EntityDef) -> Result<(), AllocError>
    ensures { OnOk result (out.new.items ≡ out.old.items ++ never_text entity.now) }
{
    if entity.strategy != Strategy::ReadWrite {
        return Ok(());
    }
    out.extend_from_slice(b"never-stale ")?;
    out.extend_from_slice(entity.name.as_slice())?;
    out.extend_from_slice(b"\n")
}

/// Adds a line for each entity of which no sound key has a stale hit in any order: those are the read-write ones, by
/// the law.
fn put_nevers(out: &mut Vec<u8>, mapping: &[EntityDef]) -> Result<(), AllocError>
    ensures { OnOk result (out.new.items ≡ out.old.items ++ nevers_text mapping.now) }
{
    for entity in mapping {
        put_never(out, entity)?;
    }
    Ok(())
}

/// What a search of a script's orders with at most this many kills and switches has come to: how many orders there are,
/// how they end, and of each finding in how many it is, with the schedule of one that has the fewest switches. Fails
/// for want of memory alone; an order of 2^32 steps or more is answered as that.
pub fn text(
    alloc: Global,
    script: &Script,
    most_kills: u32,
    most: u32,
    told: &Told,
) -> Result<Vec<u8>, AllocError>
    ensures { IfOk result (λ v. v.items ≡ text script.now most_kills most told.now) }
{
    let mut out = Vec::new(alloc);
    put_tried(alloc, &mut out, most_kills, most, told)?;
    put_levels(alloc, &mut out, told.findings.levels.as_slice())?;
    put_endings(alloc, &mut out, script, &told.findings.endings)?;
    put_findings(alloc, &mut out, script, &told.findings)?;
    put_nevers(&mut out, script.mapping.as_slice())?;
    out.extend_from_slice(b"end\n")?;
    Ok(out)
}
