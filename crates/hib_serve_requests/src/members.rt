// What a value's members ask for.
ghost use Rattle.hib_serve_requests.specs.Lines as lines;
ghost use Rattle.hib_serve_requests.specs.Members as members;
ghost use Rattle.hib_serve_requests.specs.Requests.{id_text, asked_text};
ghost use Rattle.serde_json.specs.Data.{object};
ghost use Rattle.serde_json.specs.View.{members_view, view};
ghost use Rattle.std.specs.List.{find};
ghost use Rattle.std.specs.Option.{option_map};
ghost use Rattle.std.specs.BTreeMap.{keys};
ghost use Rattle.std.specs.Prelude.{◌≡◌, IfOk, not, string_bytes};

use crate::requests::{Asked, Id};
use serde_json::{Map, Value};
use std::alloc::{AllocError, Global};

// The text of a member, owned, if it is one.
fn text_in(alloc: Global, value: &Value, key: &str) -> Result<Option<String>, AllocError>
    ensures { IfOk result (λ o. option_map string_bytes o
        ≡ members.text_at key.now (view value.now)) }
{
    match value.get(key).and_then(Value::as_str) {
        Some(text) => Ok(Some(String::from_str(alloc, text)?)),
        None => Ok(None),
    }
}

// The id that a value is, if it is one.
fn id_of(alloc: Global, value: &Value) -> Result<Option<Id>, AllocError>
    ensures { IfOk result (λ o. option_map id_text o ≡ members.id_of (view value.now)) }
{
    if let Some(text) = value.as_str() {
        return Ok(Some(Id::Text(String::from_str(alloc, text)?)));
    }
    match value.as_u64() {
        Some(number) => Ok(Some(Id::Number(number))),
        None => Ok(None),
    }
}

/// What tells a value's answer apart, if it has that.
pub fn id_in(alloc: Global, value: &Value) -> Result<Option<Id>, AllocError>
    ensures { IfOk result (λ o. option_map id_text o ≡ members.id_in (view value.now)) }
{
    match value.get("id") {
        Some(id) => id_of(alloc, id),
        None => Ok(None),
    }
}

fn says_in(alloc: Global, value: &Value) -> Result<Option<Asked>, AllocError>
    ensures { IfOk result (λ o. option_map asked_text o ≡ members.says_in (view value.now)) }
{
    let session = text_in(alloc, value, "session")?;
    let statement = text_in(alloc, value, "say")?;
    match (session, statement) {
        (Some(session), Some(statement)) => Ok(Some(Asked::Say { session, statement })),
        _ => Ok(None),
    }
}

fn goes_on_in(alloc: Global, value: &Value) -> Result<Option<Asked>, AllocError>
    ensures { IfOk result (λ o. option_map asked_text o ≡ members.goes_on_in (view value.now)) }
{
    match text_in(alloc, value, "go")? {
        Some(session) => Ok(Some(Asked::GoOn { session })),
        None => Ok(None),
    }
}

fn kills_in(alloc: Global, value: &Value) -> Result<Option<Asked>, AllocError>
    ensures { IfOk result (λ o. option_map asked_text o ≡ members.kills_in (view value.now)) }
{
    match text_in(alloc, value, "kill")? {
        Some(session) => Ok(Some(Asked::Kill { session })),
        None => Ok(None),
    }
}

// The eviction that a pair of an entity's name and an identifier asks for.
fn evicts_of(alloc: Global, pair: &Value) -> Result<Option<Asked>, AllocError>
    ensures { IfOk result (λ o. option_map asked_text o ≡ members.evicts_of (view pair.now)) }
{
    let entity = pair.get(0usize).and_then(Value::as_str);
    let id = pair.get(1usize).and_then(Value::as_u64);
    match (entity, id) {
        (Some(entity), Some(id)) => Ok(Some(Asked::Evict {
            entity: String::from_str(alloc, entity)?,
            id,
        })),
        _ => Ok(None),
    }
}

fn evicts_in(alloc: Global, value: &Value) -> Result<Option<Asked>, AllocError>
    ensures { IfOk result (λ o. option_map asked_text o ≡ members.evicts_in (view value.now)) }
{
    match value.get("evict") {
        Some(pair) => evicts_of(alloc, pair),
        None => Ok(None),
    }
}

fn is_true(found: Option<&Value>) -> bool
    ensures { result ≡ members.is_true (option_map (λ v. view v.now) found.entry) }
{
    match found {
        Some(Value::Bool(true)) => true,
        _ => false,
    }
}

fn alone_in(value: &Value) -> Option<Asked>
    ensures { option_map asked_text result ≡ members.alone_in (view value.now) }
{
    if is_true(value.get("restart")) {
        Some(Asked::Restart)
    } else if is_true(value.get("end")) {
        Some(Asked::End)
    } else {
        None
    }
}

/// What a value's members ask for, whatever others it has.
pub fn asked_in(alloc: Global, value: &Value) -> Result<Option<Asked>, AllocError>
    ensures { IfOk result (λ o. option_map asked_text o ≡ members.asked_in (view value.now)) }
{
    if let Some(asked) = says_in(alloc, value)? {
        return Ok(Some(asked));
    }
    if let Some(asked) = goes_on_in(alloc, value)? {
        return Ok(Some(asked));
    }
    if let Some(asked) = kills_in(alloc, value)? {
        return Ok(Some(asked));
    }
    if let Some(asked) = evicts_in(alloc, value)? {
        return Ok(Some(asked));
    }
    Ok(alone_in(value))
}

fn is_known(name: &str) -> bool
    ensures { result ≡ lines.is_known name.now }
{
    name == "id"
        || name == "session"
        || name == "say"
        || name == "go"
        || name == "kill"
        || name == "evict"
        || name == "restart"
        || name == "end"
}

fn unknown_name(alloc: Global, map: &Map<String, Value>) -> Result<Option<String>, AllocError>
    ensures { IfOk result (λ o. option_map string_bytes o
        ≡ option_map string_bytes (find (λ s. not (lines.is_known (string_bytes s)))
        (keys map.now))) }
{
    match map.keys().find(|name| !is_known(name.as_str())) {
        Some(name) => Ok(Some(String::from_str(alloc, name.as_str())?)),
        None => Ok(None),
    }
}

/// The first name that no request has.
#[tactic(auto, using(crate::proofs::Unknown::unknown_names))]
pub fn first_unknown(alloc: Global, map: &Map<String, Value>) -> Result<Option<String>, AllocError>
    ensures { IfOk result (λ o. option_map string_bytes o
        ≡ lines.first_unknown (members_view map.now.entries)) }
{
    unknown_name(alloc, map)
}
