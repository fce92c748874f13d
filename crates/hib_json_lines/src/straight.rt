// The five members of an entry's line, read straight from its bytes as `put_line` writes them: in their order, without
// a space, and with no escapes but those of a quotation mark and of a backslash. Lines of other forms are read by
// `fields`.
ghost use Rattle.hib_json_lines.specs.Line.{object_of, session_data};
ghost use Rattle.json.specs.Print.{escape, escape_byte};
ghost use Rattle.serde_json.specs.Written.{compact_text};
ghost use Rattle.std.specs.Option.{option_map};
ghost use Rattle.std.specs.Prelude.{◌≡◌, ◌++◌, ◌∷◌, [], ◌≤◌, ◌<◌, ◌^◌, IfOk, IfSome, IsTrue, string_bytes, take, length, codes, decimal};

use crate::fields::Line;
use hib_lex::{is_natural, size_of_digits};
use std::alloc::{AllocError, Global};

/// The five members of a line that is written as `put_line` writes it. None if it isn't, or if it has other escapes
/// than those of a quotation mark and of a backslash. Fails for want of memory alone.
pub fn straight(alloc: Global, bytes: &[u8]) -> Result<Option<Line>, AllocError>
    ensures { IfOk result (λ o. IfSome o (λ l. (bytes.now ≡ compact_text (object_of l))
        × (l.tick < 2 ^ 64))) }
{
    let Some((act, rest)) = member(alloc, bytes, b"{\"act\":\"")? else {
        return Ok(None);
    };
    let Some((part, rest)) = member(alloc, rest, b",\"part\":\"")? else {
        return Ok(None);
    };
    let Some((reply, rest)) = member(alloc, rest, b",\"reply\":\"")? else {
        return Ok(None);
    };
    let Some((session, rest)) = session_member(alloc, rest)? else {
        return Ok(None);
    };
    let Some(tick) = tick_member(rest) else {
        return Ok(None);
    };
    Ok(Some(Line {
        act,
        part,
        reply,
        session,
        tick,
    }))
}

/// What follows these bytes, if a line goes on with them.
fn behind<'a>(bytes: &'a [u8], front: &[u8]) -> Option<&'a [u8]>
    ensures { IfSome result (λ rest. bytes.entry.now ≡ front.now ++ rest.now) }
{
    bytes.strip_prefix(front)
}

/// What stands before these bytes, if a line ends with them.
fn before<'a>(bytes: &'a [u8], end: &[u8]) -> Option<&'a [u8]>
    ensures { IfSome result (λ rest. bytes.entry.now ≡ rest.now ++ end.now) }
{
    bytes.strip_suffix(end)
}

/// The text of a member and what follows its closing mark, if a line goes on with this front and such a text.
fn member<'a>(
    alloc: Global,
    bytes: &'a [u8],
    front: &[u8],
) -> Result<Option<(String, &'a [u8])>, AllocError>
    ensures { IfOk result (λ o. IfSome o (λ x. bytes.entry.now
        ≡ front.now ++ (escape (string_bytes x.0) ++ 34 ∷ x.1.now))) }
{
    match behind(bytes, front) {
        Some(rest) => text(alloc, rest),
        None => Ok(None),
    }
}

/// The session's name, if there is one, and what follows it, if a line goes on with this member.
fn session_member(
    alloc: Global,
    bytes: &[u8],
) -> Result<Option<(Option<String>, &[u8])>, AllocError>
    ensures { IfOk result (λ o. IfSome o (λ x. bytes.now ≡ codes ",\"session\":"
        ++ (compact_text (session_data (option_map string_bytes x.0)) ++ x.1.now))) }
{
    if let Some(rest) = behind(bytes, b",\"session\":null") {
        return Ok(Some((None, rest)));
    }
    match member(alloc, bytes, b",\"session\":\"")? {
        Some((name, rest)) => Ok(Some((Some(name), rest))),
        None => Ok(None),
    }
}

/// The number of the tick, if a line ends with this member.
fn tick_member(bytes: &[u8]) -> Option<u64>
    ensures { IfSome result (λ n. (bytes.now ≡ codes ",\"tick\":" ++ (decimal n ++ codes "}"))
        × (n < 2 ^ 64)) }
{
    let digits = before(behind(bytes, b",\"tick\":")?, b"}")?;
    if is_natural(digits) {
        size_of_digits(digits)
    } else {
        None
    }
}

/// The text up to its closing mark, and what follows that.
#[tactic(auto, using(crate::proofs::AsWritten::escape_put))]
fn text(alloc: Global, bytes: &[u8]) -> Result<Option<(String, &[u8])>, AllocError>
    ensures { IfOk result (λ o. IfSome o (λ x. bytes.now
        ≡ escape (string_bytes x.0) ++ 34 ∷ x.1.now)) }
{
    let mut found = Vec::new(alloc);
    let mut rest = put_plain(&mut found, bytes)?;
    while let Some((byte, others)) = escaped(rest) {
        found.push(byte)?;
        rest = put_plain(&mut found, others)?;
    }
    match rest {
        [b'"', others @ ..] => Ok(as_text(found, others)),
        _ => Ok(None),
    }
}

/// The quotation mark or backslash whose escape stands at the front, and what follows it.
#[tactic(auto, unfolding(json::specs::Print::escape_byte))]
fn escaped(bytes: &[u8]) -> Option<(u8, &[u8])>
    ensures escape { IfSome result (λ x. bytes.now ≡ escape_byte x.0 ++ x.1.now) }
    ensures shorter { IfSome result (λ x. length x.1.now < length bytes.now) }
{
    match bytes {
        [b'\\', b'"', others @ ..] => Some((b'"', others)),
        [b'\\', b'\\', others @ ..] => Some((b'\\', others)),
        _ => None,
    }
}

/// These bytes as a text, if they are one, with what follows it.
fn as_text(found: Vec<u8>, rest: &[u8]) -> Option<(String, &[u8])>
    ensures { IfSome result (λ x. (string_bytes x.0 ≡ found.items) × (x.1.now ≡ rest.now)) }
{
    match String::from_utf8(found) {
        Ok(text) => Some((text, rest)),
        Err(_) => None,
    }
}

/// Appends the bytes at the front that stand for themselves, and gives the others.
#[tactic(auto, using(crate::proofs::AsWritten::plain_put))]
fn put_plain<'a>(found: &mut Vec<u8>, bytes: &'a [u8]) -> Result<&'a [u8], AllocError>
    ensures put { IfOk result (λ rest. escape found.old.items ++ bytes.entry.now
        ≡ escape found.new.items ++ rest.now) }
    ensures shorter { IfOk result (λ rest. length rest.now ≤ length bytes.entry.now) }
{
    let size = plain_length(bytes);
    found.extend_from_slice(&bytes[..size])?;
    Ok(&bytes[size..])
}

/// How many bytes stand for themselves before the first that doesn't.
#[tactic(auto, using(crate::proofs::AsWritten::plain_more))]
fn plain_length(bytes: &[u8]) -> usize
    ensures within { result ≤ length bytes.now }
    ensures plain { escape (take result bytes.now) ≡ take result bytes.now }
{
    for i in 0..bytes.len() {
        if !is_plain(bytes[i]) {
            return i;
        }
    }
    bytes.len()
}

/// Whether a byte is no control character, quotation mark or backslash: it stands for itself in a text.
#[tactic(auto, using(crate::proofs::AsWritten::plain_byte))]
fn is_plain(byte: u8) -> bool
    ensures { IsTrue result → escape_byte byte ≡ byte ∷ [] }
{
    byte >= 32 && byte != b'"' && byte != b'\\'
}
