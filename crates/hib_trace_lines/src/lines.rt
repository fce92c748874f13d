// A trace is read from its lines, one event for each.
ghost use Rattle.hib_lex.specs.Lines.{lines_of};
ghost use Rattle.hib_trace_lines.specs.Events.{EventText};
ghost use Rattle.hib_trace_lines.specs.Faults.{fault_of};
ghost use Rattle.hib_trace_lines.specs.Lines.{AreLines, IsBad, IsFirstBad, IsLine, IsRefused, IsRefusedAs, most_bytes};
ghost use Rattle.hib_trace_lines.specs.Members.{event_of};
ghost use Rattle.hib_trace_lines.specs.declared.faults.Fault.{Fault};
ghost use Rattle.hib_trace_lines.specs.declared.faults.TraceError.TheVariants.{NoMemory, TooLong};
ghost use Rattle.serde_json.specs.Read.{read};
ghost use Rattle.serde_json.specs.View.{view};
ghost use Rattle.std.specs.Prelude.{◌≡◌, ◌<◌, ◌≤◌, ◌++◌, ◌∷◌, ℕ, [], Err, List, IfErr, IfNone, IfOk, IfSome, IsUtf8, MatchResult, None, OnOk, Some, length};

use crate::checks::fault_of;
use crate::events::Event;
use crate::faults::{Fault, RefusedLine, TraceError};
use crate::members::event_of;
use hib_lex::line_length;
use serde_json::Value;
use std::alloc::{AllocError, Global};
use std::str;

// How many bytes a text may have.
const MOST_BYTES: usize = 64 * 1024 * 1024;

// The JSON value that a line is.
fn value_of(alloc: Global, line: &[u8]) -> Result<Option<Value>, AllocError>
    ensures found { IfOk result (λ o. IfSome o (λ v. IsUtf8 line.now × (read line.now ≡ Some (view v)))) }
    ensures none { IfOk result (λ o. IfNone o (IsUtf8 line.now → read line.now ≡ None)) }
{
    let Ok(text) = str::from_utf8(line) else {
        return Ok(None);
    };
    match Value::from_str(alloc, text) {
        Ok(value) => Ok(Some(value)),
        Err(error) => {
            if error.is_memory() {
                return Err(AllocError);
            }
            Ok(None)
        }
    }
}

// The event that an object in which nothing is wrong says.
fn right_event(alloc: Global, value: &Value) -> Result<Event, AllocError>
    requires { fault_of (view value.now) ≡ None }
    ensures { IfOk result (λ e. event_of (view value.now) ≡ Some e) }
{
    match event_of(alloc, value)? {
        Some(event) => Ok(event),
        None => unreachable!(),
    }
}

// The event that a line is, or why it is none.
fn line_event(alloc: Global, line: &[u8]) -> Result<Result<Event, Fault>, AllocError>
    ensures { IfOk result (λ r. MatchResult r (IsLine line.now) (IsBad line.now)) }
{
    let Some(value) = value_of(alloc, line)? else {
        return Ok(Err(Fault::NotJson));
    };
    match fault_of(alloc, &value)? {
        Some(fault) => Ok(Err(fault)),
        None => Ok(Ok(right_event(alloc, &value)?)),
    }
}

fn keep(events: &mut Vec<Event>, event: Event) -> Result<(), AllocError>
    ensures { OnOk result (events.new.items ≡ events.old.items ++ event ∷ []) }
{
    events.push(event)?;
    Ok(())
}

// The events of a text that isn't too long.
#[tactic(auto, using(hib_lex::proofs::Texts::length_fits, crate::proofs::SoFar::at_start, crate::proofs::SoFar::at_end))]
fn read_lines(alloc: Global, text: &[u8]) -> Result<Vec<Event>, TraceError>
    requires { length text.now ≤ most_bytes }
    ensures lines { IfOk result (λ v. AreLines (lines_of text.now) v.items) }
    ensures refused { IfErr result (IsRefused text.now) }
{
    let mut events = Vec::new(alloc);
    let mut start = 0;
    while start < text.len() {
        let end = start + line_length(&text[start..]);
        match line_event(alloc, &text[start..end])? {
            Ok(event) => keep(&mut events, event)?,
            Err(fault) => {
                return Err(TraceError::Refused(RefusedLine {
                    line: events.len() as u64 + 1,
                    fault,
                }));
            }
        }
        start = end + 1;
    }
    Ok(events)
}

/// The events that the lines of a trace say, one for each line to the end of the text. The line feed of the last line
/// may be missing; no line is skipped, and an empty one is refused.
///
/// Errors: `TooLong` exactly if the text has more than 64 MiB; else `Refused` exactly if a line is no event, with the
/// number of the first such line, from 1, and the first thing that is wrong with it; `NoMemory` if there is none left.
pub fn read_trace(alloc: Global, text: &[u8]) -> Result<Vec<Event>, TraceError>
    // Each line is the event at its place.
    ensures lines { IfOk result (λ v. AreLines (lines_of text.now) v.items) }
    // Each line before the refused one is an event, and that one is bad as it is told.
    ensures refused { IfErr result (IsRefused text.now) }
    // Whichever events the lines are are read.
    ensures only { (es : List EventText) → length text.now ≤ most_bytes → AreLines (lines_of text.now) es
        → MatchResult result (λ v. v.items ≡ es) (λ f. f ≡ NoMemory) }
    // Whichever line is the first bad one is refused.
    ensures first_bad { (n : ℕ) (f : Fault) → length text.now ≤ most_bytes → IsFirstBad (lines_of text.now) n f
        → MatchResult result (λ _. ⊥) (IsRefusedAs n f) }
    ensures long { most_bytes < length text.now → result ≡ Err TooLong }
{
    if text.len() > MOST_BYTES {
        return Err(TraceError::TooLong);
    }
    read_lines(alloc, text)
}
