// The object of a request, made to be compared with what a line is.
ghost use Rattle.hib_serve_requests.specs.Requests.{id_text, asked_text, id_data, members_of, with_id, object_of};
ghost use Rattle.serde_json.specs.Data.{depth, string};
ghost use Rattle.serde_json.specs.Read.{max_depth};
ghost use Rattle.serde_json.specs.View.{members_view, view};
ghost use Rattle.std.specs.Option.{option_map};
ghost use Rattle.std.specs.Prelude.{◌≡◌, ◌≤◌, ◌↔◌, IfOk, IsTrue, string_bytes};

use crate::requests::{Asked, Id};
use serde_json::{Map, Value, json, put};
use std::alloc::{AllocError, Global};

fn id_value(alloc: Global, id: &Id) -> Result<Value, AllocError>
    ensures { IfOk result (λ v. view v ≡ id_data (id_text id.now)) }
{
    match id {
        Id::Text(text) => Value::try_from_str(alloc, text.as_str()),
        Id::Number(number) => json!(in alloc; *number),
    }
}

fn text_value(alloc: Global, text: &String) -> Result<Value, AllocError>
    ensures { IfOk result (λ v. view v ≡ string (string_bytes text.now)) }
{
    Value::try_from_str(alloc, text.as_str())
}

// The member of a request, or both.
fn members(alloc: Global, asked: &Asked) -> Result<Map<String, Value>, AllocError>
    ensures { IfOk result (λ m. members_view m.entries ≡ members_of (asked_text asked.now)) }
{
    let mut map = Map::new(alloc);
    match asked {
        Asked::Say { session, statement } => {
            put(&mut map, alloc, "say", text_value(alloc, statement)?)?;
            put(&mut map, alloc, "session", text_value(alloc, session)?)?;
        }
        Asked::GoOn { session } => put(&mut map, alloc, "go", text_value(alloc, session)?)?,
        Asked::Kill { session } => put(&mut map, alloc, "kill", text_value(alloc, session)?)?,
        Asked::Evict { entity, id } => {
            let name = text_value(alloc, entity)?;
            let pair = json!(in alloc; [name, *id])?;
            put(&mut map, alloc, "evict", pair)?;
        }
        Asked::Restart => put(&mut map, alloc, "restart", Value::Bool(true))?,
        Asked::End => put(&mut map, alloc, "end", Value::Bool(true))?,
    }
    Ok(map)
}

fn with_id(
    alloc: Global,
    map: Map<String, Value>,
    id: &Option<Id>,
) -> Result<Map<String, Value>, AllocError>
    ensures { IfOk result (λ m. members_view m.entries
        ≡ with_id (option_map id_text id.now) (members_view map.entries)) }
{
    match id {
        None => Ok(map),
        Some(id) => {
            let mut map = map;
            put(&mut map, alloc, "id", id_value(alloc, id)?)?;
            Ok(map)
        }
    }
}

fn object(alloc: Global, id: &Option<Id>, asked: &Asked) -> Result<Value, AllocError>
    ensures { IfOk result (λ v. view v
        ≡ object_of (option_map id_text id.now) (asked_text asked.now)) }
{
    let members = members(alloc, asked)?;
    Ok(Value::Object(with_id(alloc, members, id)?))
}

/// Whether a value is the object of a request, and has no other member.
pub fn is_object_of(
    alloc: Global,
    value: &Value,
    id: &Option<Id>,
    asked: &Asked,
) -> Result<bool, AllocError>
    requires { depth (view value.now) ≤ max_depth }
    ensures { IfOk result (λ b. IsTrue b
        ↔ (view value.now ≡ object_of (option_map id_text id.now) (asked_text asked.now))) }
{
    let expected = object(alloc, id, asked)?.to_string(alloc)?;
    let found = value.to_string(alloc)?;
    Ok(found.as_str() == expected.as_str())
}
