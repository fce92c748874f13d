// What both traces say: acts, replies, parts, locks and tracks, appended to bytes.
ghost use Rattle.hib_report.specs.Lines.{act_text, part_text, reply_text};
ghost use Rattle.hib_spans.specs.Events.{track_name, track_of};
ghost use Rattle.hib_texts.specs.Texts.{key_text};
ghost use Rattle.json.specs.Print.{quoted};
ghost use Rattle.std.specs.Prelude.{◌≡◌, ◌++◌, OnOk, codes};

use hib_base::{Act, Key, Part, Reply, Script, SessionNo};
use hib_json_lines::put_quoted;
use hib_report::{put_act, put_part, put_reply};
use hib_texts::{put_keyed, session_name};
use std::alloc::{AllocError, Global};

/// The text of an act, in quotation marks.
pub fn put_quoted_act(
    alloc: Global,
    out: &mut Vec<u8>,
    script: &Script,
    act: &Act,
) -> Result<(), AllocError>
    ensures { OnOk result (out.new.items
        ≡ out.old.items ++ quoted (act_text script.now act.now)) }
{
    let mut text = Vec::new(alloc);
    put_act(alloc, &mut text, script, act)?;
    put_quoted(out, text.as_slice())
}

/// The text of a reply, in quotation marks.
pub fn put_quoted_reply(
    alloc: Global,
    out: &mut Vec<u8>,
    script: &Script,
    reply: &Reply,
) -> Result<(), AllocError>
    ensures { OnOk result (out.new.items
        ≡ out.old.items ++ quoted (reply_text script.now reply.now)) }
{
    let mut text = Vec::new(alloc);
    put_reply(alloc, &mut text, script, reply)?;
    put_quoted(out, text.as_slice())
}

/// The word of a part, in quotation marks.
pub fn put_quoted_part(alloc: Global, out: &mut Vec<u8>, part: Part) -> Result<(), AllocError>
    ensures { OnOk result (out.new.items ≡ out.old.items ++ quoted (part_text part)) }
{
    let mut text = Vec::new(alloc);
    put_part(&mut text, part)?;
    put_quoted(out, text.as_slice())
}

/// What a lock is called, in quotation marks.
pub fn put_quoted_lock(
    alloc: Global,
    out: &mut Vec<u8>,
    script: &Script,
    key: Key,
) -> Result<(), AllocError>
    ensures { OnOk result (out.new.items
        ≡ out.old.items ++ quoted (codes "lock " ++ key_text script.now key)) }
{
    let mut text = Vec::new(alloc);
    put_keyed(alloc, &mut text, script, b"lock ", key)?;
    put_quoted(out, text.as_slice())
}

/// The name of a track: that of a session, or `schedule` for what comes from outside.
pub fn track_name(script: &Script, session: Option<SessionNo>) -> &[u8]
    ensures { result.now ≡ track_name script.now session }
{
    match session {
        None => b"schedule",
        Some(session) => session_name(script, session),
    }
}

/// The number of a track: 0 for what comes from outside, and then each session's.
pub fn track_of(session: Option<SessionNo>) -> u64
    ensures { result ≡ track_of session }
{
    match session {
        None => 0,
        Some(session) => u64::from(session.0) + 1,
    }
}
