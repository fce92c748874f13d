// A trace, judged from its text.
ghost use Rattle.hib_lex.specs.Lines.{lines_of};
ghost use Rattle.hib_trace_judge.specs.Traces.{IsJudgedTrace};
ghost use Rattle.hib_trace_lines.specs.Lines.{AreLines, IsRefused};
ghost use Rattle.std.specs.Prelude.{IfErr, IfOk};

use crate::answers::{Counts, judge_calls};
use hib_trace_calls::numbered;
use hib_trace_filed::Limits;
use hib_trace_findings::Judgement;
use hib_trace_lines::{Event, TraceError, read_trace};
use std::alloc::{AllocError, Global};

/// A trace whose answers are judged.
#[derive(Drop)]
pub struct Judged {
    /// The events of its lines.
    pub events: Vec<Event>,
    /// For each line the judgement, if it is an answer of the cache, a list, or a write of which something is
    /// certain.
    pub judgements: Vec<Option<Judgement>>,
}

// The judgements of events.
fn judge_events(
    alloc: Global,
    events: &[Event],
    limits: &Limits,
) -> Result<Vec<Option<Judgement>>, AllocError>
    ensures { IfOk result (λ v. IsJudgedTrace limits.now events.now v.items) }
{
    let trace = numbered(alloc, events)?;
    let counts = Counts {
        keys: trace.texts.keys.len(),
        tables: trace.texts.tables.len(),
        transactions: trace.texts.transactions.len(),
        none: trace.none,
    };
    let judgements = judge_calls(alloc, &trace.calls, &counts, limits)?;
    Ok(judgements)
}

/// The judgements of the answers, lists and writes that the lines of a trace tell.
///
/// Errors: those of `read_trace`, for a text that is too long or has a line that is no event, and `NoMemory`.
pub fn judge_trace(alloc: Global, text: &[u8], limits: &Limits) -> Result<Judged, TraceError>
    ensures lines { IfOk result (λ r. AreLines (lines_of text.now) r.events.items) }
    ensures judged { IfOk result (λ r. IsJudgedTrace limits.now r.events.items r.judgements.items) }
    ensures refused { IfErr result (IsRefused text.now) }
{
    let events = read_trace(alloc, text)?;
    let judgements = judge_events(alloc, &events, limits)?;
    Ok(Judged { events, judgements })
}
