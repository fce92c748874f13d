// A line, read as a request.
ghost use Rattle.hib_serve_requests.specs.Lines.{Asks, IsFault, IsWrong};
ghost use Rattle.hib_serve_requests.specs.Members.{id_in};
ghost use Rattle.hib_serve_requests.specs.Requests.{id_text, asked_text, object_of};
ghost use Rattle.serde_json.specs.Data.{depth, object};
ghost use Rattle.serde_json.specs.Read.{max_depth, read};
ghost use Rattle.serde_json.specs.View.{members_view, view};
ghost use Rattle.std.specs.Option.{option_map};
ghost use Rattle.std.specs.Prelude.{◌≡◌, ◌≤◌, IfNone, IfOk, IfSome, IsUtf8, MatchResult, None, Some};

use crate::members::{asked_in, first_unknown, id_in};
use crate::objects::is_object_of;
use crate::requests::{Asked, Fault, Id, Request};
use serde_json::{Map, Value};
use std::alloc::{AllocError, Global};
use std::str;

// How many bytes a line may have.
const MOST_BYTES: usize = 64 * 1024;

// The JSON value that a line is.
fn value_of(alloc: Global, line: &[u8]) -> Result<Option<Value>, AllocError>
    ensures text { IfOk result (λ o. IfSome o (λ v. IsUtf8 line.now)) }
    ensures found { IfOk result (λ o. IfSome o (λ v. read line.now ≡ Some (view v))) }
    ensures nests { IfOk result (λ o. IfSome o (λ v. depth (view v) ≤ max_depth)) }
    ensures none { IfOk result (λ o. IfNone o (IsUtf8 line.now → read line.now ≡ None)) }
{
    let Ok(text) = str::from_utf8(line) else {
        return Ok(None);
    };
    match Value::from_str(alloc, text) {
        Ok(value) => Ok(Some(value)),
        Err(error) => {
            if error.is_memory() {
                return Err(AllocError);
            }
            Ok(None)
        }
    }
}

// What an object asks for, or what is wrong with its members.
#[tactic(auto, using(crate::proofs::Again::nothing_asked, crate::proofs::Again::other_asked))]
fn asked_of(
    alloc: Global,
    value: &Value,
    map: &Map<String, Value>,
    id: &Option<Id>,
) -> Result<Result<Asked, Fault>, AllocError>
    requires nests { depth (view value.now) ≤ max_depth }
    requires members { view value.now ≡ object (members_view map.now.entries) }
    requires id { option_map id_text id.now ≡ id_in (view value.now) }
    ensures { IfOk result (λ r. MatchResult r
        (λ a. view value.now ≡ object_of (option_map id_text id.now) (asked_text a))
        (IsWrong (members_view map.now.entries))) }
{
    if let Some(name) = first_unknown(alloc, map)? {
        return Ok(Err(Fault::Unknown(name)));
    }
    let Some(asked) = asked_in(alloc, value)? else {
        return Ok(Err(Fault::Members));
    };
    if is_object_of(alloc, value, id, &asked)? {
        Ok(Ok(asked))
    } else {
        Ok(Err(Fault::Members))
    }
}

// A line without an id, which is refused.
fn refused(fault: Fault) -> Request
    ensures id { result.id ≡ None }
    ensures fault { MatchResult result.asked (λ _. ⊥) (λ f. f ≡ fault) }
{
    Request {
        id: None,
        asked: Err(fault),
    }
}

/// What a line asks for, with what tells its answer apart. A line is given without its line feed. Its members may stand
/// in any order and with any spacing; of one that stands twice the later counts. If it is no request, the fault says
/// why, and the id is there if the line is an object with an id of its form.
///
/// Fails for want of memory alone.
pub fn read_request(alloc: Global, line: &[u8]) -> Result<Request, AllocError>
    ensures { IfOk result (λ r. MatchResult r.asked (Asks line.now r.id) (IsFault line.now r.id)) }
{
    if line.len() > MOST_BYTES {
        return Ok(refused(Fault::Long));
    }
    let Some(value) = value_of(alloc, line)? else {
        return Ok(refused(Fault::NotAnObject));
    };
    let Some(map) = value.as_object() else {
        return Ok(refused(Fault::NotAnObject));
    };
    let id = id_in(alloc, &value)?;
    let asked = asked_of(alloc, &value, map, &id)?;
    Ok(Request { id, asked })
}
