// The whole report.
ghost use Rattle.hib_trace_lines.specs.Lines.{IsRefused};
ghost use Rattle.hib_trace_report.specs.Asked.{is_found, masked};
ghost use Rattle.hib_trace_report.specs.Lines.{report_text};
ghost use Rattle.hib_trace_report.specs.Reports.{IsReport};
ghost use Rattle.std.specs.List.{list_any};
ghost use Rattle.std.specs.Prelude.{◌≡◌, ◌++◌, IfErr, IfOk, OnOk, length, option_map, string_bytes};

use crate::asked::{any_found, asked_of};
use crate::counts::{put_counts, put_premises};
use crate::lines::{put_findings, put_more};
use hib_trace_filed::Limits;
use hib_trace_findings::Judgement;
use hib_trace_judge::{Judged, judge_trace};
use hib_trace_lines::{Event, TraceError};
use std::alloc::{AllocError, Global};

/// What is told of a trace.
#[derive(Drop)]
pub struct Report {
    /// The text of the report.
    pub text: Vec<u8>,
    /// Whether something is certain.
    pub certain: bool,
}

// Adds the report of judgements.
fn put_report(
    alloc: Global,
    out: &mut Vec<u8>,
    events: &[Event],
    judgements: &[Option<Judgement>],
    limits: &Limits,
    most: u64,
) -> Result<(), AllocError>
    requires { length judgements.now ≡ length events.now }
    ensures { OnOk result (out.new.items ≡ out.old.items ++ report_text limits.now most events.now judgements.now) }
{
    put_findings(alloc, out, most, events, judgements)?;
    put_more(alloc, out, most, judgements)?;
    put_counts(alloc, out, judgements)?;
    put_premises(alloc, out, limits)
}

// The report of a judged trace, of its answers about one key, if that is given.
#[tactic(auto, using(crate::proofs::Told::masked_count))]
fn report_judged(
    alloc: Global,
    judged: &Judged,
    limits: &Limits,
    most: u64,
    key: &Option<String>,
) -> Result<Report, AllocError>
    requires { length judged.now.judgements.items ≡ length judged.now.events.items }
    ensures told { IfOk result (λ r. r.text.items ≡ report_text limits.now most judged.now.events.items
        (masked (option_map string_bytes key.now) judged.now.events.items judged.now.judgements.items)) }
    ensures certain { IfOk result (λ r. r.certain ≡ list_any is_found
        (masked (option_map string_bytes key.now) judged.now.events.items judged.now.judgements.items)) }
{
    let asked = asked_of(alloc, &judged.events, &judged.judgements, key)?;
    let mut text = Vec::new(alloc);
    put_report(alloc, &mut text, &judged.events, &asked, limits, most)?;
    let certain = any_found(&asked);
    Ok(Report { text, certain })
}

/// The report of a trace, of its lines about one key, if that is given. So many findings are told at most, the first
/// ones.
///
/// Errors: those of `read_trace`, for a text that is too long or has a line that is no event, and `NoMemory`.
pub fn report_trace(
    alloc: Global,
    text: &[u8],
    limits: &Limits,
    most: u64,
    key: &Option<String>,
) -> Result<Report, TraceError>
    ensures report { IfOk result (IsReport text.now limits.now most (option_map string_bytes key.now)) }
    ensures refused { IfErr result (IsRefused text.now) }
{
    let judged = judge_trace(alloc, text, limits)?;
    let report = report_judged(alloc, &judged, limits, most, key)?;
    Ok(report)
}
