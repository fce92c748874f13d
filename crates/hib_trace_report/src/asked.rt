// The judgements that are asked for.
ghost use Rattle.hib_trace_report.specs.Asked as asked;
ghost use Rattle.hib_trace_report.specs.Asked.{is_found, masked};
ghost use Rattle.std.specs.List.{list_any};
ghost use Rattle.std.specs.Prelude.{◌≡◌, IfOk, length, option_map, string_bytes};

use hib_trace_findings::Judgement;
use hib_trace_lines::Event;
use std::alloc::{AllocError, Global};

// Whether an event is about the key that is asked for, if one is.
fn is_asked(event: &Event, key: &Option<String>) -> bool
    ensures { result ≡ asked.is_asked (option_map string_bytes key.now) event.now.key }
{
    match key {
        None => true,
        Some(key) => match &event.key {
            None => false,
            Some(name) => name.as_str() == key.as_str(),
        },
    }
}

// The judgement of an event, if it is about the key that is asked for.
fn asked_one(event: &Event, judgement: Option<Judgement>, key: &Option<String>) -> Option<Judgement>
    ensures { result ≡ asked.asked_one (option_map string_bytes key.now) event.now judgement }
{
    if is_asked(event, key) {
        judgement
    } else {
        None
    }
}

/// The judgements of events, without those of other keys than the one that is asked for, if one is.
pub fn asked_of(
    alloc: Global,
    events: &[Event],
    judgements: &[Option<Judgement>],
    key: &Option<String>,
) -> Result<Vec<Option<Judgement>>, AllocError>
    requires { length judgements.now ≡ length events.now }
    ensures { IfOk result (λ v. v.items ≡ masked (option_map string_bytes key.now) events.now judgements.now) }
{
    let mut asked = Vec::new(alloc);
    for at in 0..events.len() {
        asked.push(asked_one(&events[at], judgements[at], key))?;
    }
    Ok(asked)
}

// Whether a judgement says nothing for certain.
fn is_open(judgement: Judgement) -> bool
    ensures { result ≡ asked.is_open judgement }
{
    matches!(
        judgement,
        Judgement::Unknown | Judgement::Possible | Judgement::OpenList
    )
}

/// Whether a judgement is a finding.
pub fn is_found(judgement: &Option<Judgement>) -> bool
    ensures { result ≡ is_found judgement.now }
{
    match judgement {
        None => false,
        Some(judgement) => !is_open(*judgement),
    }
}

/// Whether there is a finding.
pub fn any_found(judgements: &[Option<Judgement>]) -> bool
    ensures { result ≡ list_any is_found judgements.now }
{
    for judgement in judgements {
        if is_found(judgement) {
            return true;
        }
    }
    false
}
