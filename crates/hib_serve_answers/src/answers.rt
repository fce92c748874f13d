// Answers, appended to bytes.
ghost use Rattle.hib_serve_answers.specs.Answers.{done_text, refused_text};
ghost use Rattle.hib_serve_requests.specs.Requests.{id_text};
ghost use Rattle.std.specs.Option.{option_map};
ghost use Rattle.std.specs.Prelude.{◌≡◌, ◌++◌, string_bytes, OnOk};

use crate::pieces::{put_entries, put_id_before, put_id_behind, put_session, put_stop, put_why};
use crate::refusals::Refusal;
use hib_base::{Entry, Script};
use hib_json_lines::put_quoted;
use hib_serve_requests::Id;
use std::alloc::{AllocError, Global};

/// The answer to a request that added these entries, each of which is an object with the members of its line of JSON.
/// `session` is the application's own name of the session, if the request is about one, and `stopped` says that steps
/// are left since memory ran out. There is no line feed behind it. A number that the script doesn't know prints as
/// nothing. Fails for want of memory alone.
pub fn put_done(
    alloc: Global,
    out: &mut Vec<u8>,
    script: &Script,
    id: &Option<Id>,
    session: &Option<String>,
    entries: &[Entry],
    stopped: bool,
) -> Result<(), AllocError>
    ensures { OnOk result (out.new.items ≡ out.old.items
        ++ done_text script.now (option_map id_text id.now)
        (option_map string_bytes session.now) entries.now stopped) }
{
    out.extend_from_slice(b"{\"answers\":[")?;
    put_entries(alloc, out, script, entries)?;
    out.extend_from_slice(b"]")?;
    put_id_behind(alloc, out, id)?;
    put_session(out, session)?;
    put_stop(out, stopped)?;
    out.extend_from_slice(b"}")?;
    Ok(())
}

/// The answer to a request that is refused, with no line feed behind it. Fails for want of memory alone.
pub fn put_refused(
    alloc: Global,
    out: &mut Vec<u8>,
    id: &Option<Id>,
    refusal: &Refusal,
) -> Result<(), AllocError>
    ensures { OnOk result (out.new.items ≡ out.old.items
        ++ refused_text (option_map id_text id.now) refusal.now) }
{
    out.extend_from_slice(b"{")?;
    put_id_before(alloc, out, id)?;
    out.extend_from_slice(b"\"refused\":")?;
    put_quoted(out, refusal.word())?;
    put_why(out, refusal)?;
    out.extend_from_slice(b"}")?;
    Ok(())
}
