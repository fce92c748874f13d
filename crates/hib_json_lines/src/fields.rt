// The five members of an entry's object, read from a text.
ghost use Rattle.hib_json_lines.specs.Line.{object_of, session_data, LineText};
ghost use Rattle.hib_json_lines.specs.Members.{fields_of, text_at, session_at, tick_at};
ghost use Rattle.serde_json.specs.Data.{depth};
ghost use Rattle.serde_json.specs.Read.{read, max_depth};
ghost use Rattle.serde_json.specs.View.{view};
ghost use Rattle.std.specs.Option.{option_map};
ghost use Rattle.std.specs.Prelude.{◌≡◌, Some, None, IfOk, string_bytes, IfSome, IfNone, ◌≤◌, ◌↔◌, IsTrue};

use crate::straight::straight;
use serde_json::{Value, json};
use std::alloc::{AllocError, Global};
use std::marker::Model;

/// The five members of an entry's object. Contracts see the bytes of the texts.
#[derive(Drop)]
pub struct Line {
    /// The text of the act.
    pub act: String,
    /// The word of the part.
    pub part: String,
    /// The text of the reply.
    pub reply: String,
    /// The name of the session; none if the member is null.
    pub session: Option<String>,
    /// The number of the tick.
    pub tick: u64,
}

impl Model for Line {
    ghost use Rattle.std.specs.Prelude.{string_bytes};
    ghost use Rattle.std.specs.Option.{option_map};
    ghost use Rattle.hib_json_lines.specs.Line.{LineText};

    ghost Value = { LineText };

    ghost view = { λ l. record {
      act = string_bytes l.act;
      part = string_bytes l.part;
      reply = string_bytes l.reply;
      session = option_map string_bytes l.session;
      tick = l.tick;
    } };
}

// The value of the session's member: null if there is no session.
fn session_value(alloc: Global, session: &Option<String>) -> Result<Value, AllocError>
    ensures { IfOk result (λ v. view v ≡ session_data (option_map string_bytes session.now)) }
{
    match session {
        None => Ok(Value::Null),
        Some(name) => Value::try_from_str(alloc, name.as_str()),
    }
}

// The object of an entry.
fn object(alloc: Global, line: &Line) -> Result<Value, AllocError>
    ensures { IfOk result (λ v. view v ≡ object_of line.now) }
{
    let session = session_value(alloc, &line.session)?;
    let act = line.act.as_str();
    let part = line.part.as_str();
    let reply = line.reply.as_str();
    json!(in alloc; {"act": act, "part": part, "reply": reply, "session": session, "tick": line.tick})
}

/// The five members of the object that a text is, or none if it is no object with exactly these, of their forms. They
/// may stand in any order and with any spacing; of one that stands twice the later counts. Fails for want of memory
/// alone.
#[tactic(auto, using(crate::proofs::ReadsBack::reads_back))]
pub fn read_line(alloc: Global, text: &str) -> Result<Option<Line>, AllocError>
    ensures found { IfOk result (λ o. IfSome o (λ l. read text.now ≡ Some (object_of l))) }
    ensures none { IfOk result (λ o. IfNone o ((l : LineText) → read text.now ≡ Some (object_of l)
        → ⊥)) }
{
    if let Some(line) = straight(alloc, text.as_bytes())? {
        return Ok(Some(line));
    }
    read_any(alloc, text)
}

// The same by the value that the text is, whatever its form.
fn read_any(alloc: Global, text: &str) -> Result<Option<Line>, AllocError>
    ensures found { IfOk result (λ o. IfSome o (λ l. read text.now ≡ Some (object_of l))) }
    ensures none { IfOk result (λ o. IfNone o ((l : LineText) → read text.now ≡ Some (object_of l)
        → ⊥)) }
{
    let value = match Value::from_str(alloc, text) {
        Ok(value) => value,
        Err(error) => {
            if error.is_memory() {
                return Err(AllocError);
            }
            return Ok(None);
        }
    };
    let Some(line) = fields(alloc, &value)? else {
        return Ok(None);
    };
    if is_object_of(alloc, &value, &line)? {
        Ok(Some(line))
    } else {
        Ok(None)
    }
}

// Whether the value is the line's object and has no other member.
fn is_object_of(alloc: Global, value: &Value, line: &Line) -> Result<bool, AllocError>
    requires { depth (view value.now) ≤ max_depth }
    ensures { IfOk result (λ b. IsTrue b ↔ (view value.now ≡ object_of line.now)) }
{
    let expected = object(alloc, line)?.to_string(alloc)?;
    let found = value.to_string(alloc)?;
    Ok(found.as_str() == expected.as_str())
}

fn fields(alloc: Global, value: &Value) -> Result<Option<Line>, AllocError>
    ensures { IfOk result (λ o. o ≡ fields_of (view value.now)) }
{
    let act = text_in(alloc, value, "act")?;
    let part = text_in(alloc, value, "part")?;
    let reply = text_in(alloc, value, "reply")?;
    let session = session_in(alloc, value)?;
    let tick = tick_in(value);
    match (act, part, reply, session, tick) {
        (Some(act), Some(part), Some(reply), Some(session), Some(tick)) => Ok(Some(Line {
            act,
            part,
            reply,
            session,
            tick,
        })),
        _ => Ok(None),
    }
}

fn text_in(alloc: Global, value: &Value, key: &str) -> Result<Option<String>, AllocError>
    ensures { IfOk result (λ o. option_map string_bytes o ≡ text_at key.now (view value.now)) }
{
    match value.get(key).and_then(Value::as_str) {
        Some(text) => Ok(Some(String::from_str(alloc, text)?)),
        None => Ok(None),
    }
}

// The name of the session, or that there is none if the member is null; nothing if the member is no such one.
fn session_in(alloc: Global, value: &Value) -> Result<Option<Option<String>>, AllocError>
    ensures { IfOk result (λ o. option_map (λ s. option_map string_bytes s) o
        ≡ session_at (view value.now)) }
{
    match value.get("session") {
        Some(Value::Null) => Ok(Some(None)),
        Some(Value::String(name)) => Ok(Some(Some(String::from_str(alloc, name.as_str())?))),
        _ => Ok(None),
    }
}

fn tick_in(value: &Value) -> Option<u64>
    ensures { result ≡ tick_at (view value.now) }
{
    value.get("tick").and_then(Value::as_u64)
}
