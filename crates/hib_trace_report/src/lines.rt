// A line for each finding.
ghost use Rattle.hib_trace_calls.specs.Rows.{row_told};
ghost use Rattle.hib_trace_report.specs.Asked as asked;
ghost use Rattle.hib_trace_report.specs.Lines.{aged, by_text, finding_text, findings_text, line_with, more_text, one_if, plain, plain_byte, row_text, subject_text};
ghost use Rattle.std.specs.Prelude.{◌≡◌, ◌==◌, ◌-◌, ◌++◌, [], OnOk, count_by, if◌then◌else◌, length, option_map, string_bytes};

use crate::asked::is_found;
use hib_texts::put_labelled;
use hib_trace_calls::row_text;
use hib_trace_findings::Judgement;
use hib_trace_lines::Event;
use std::alloc::{AllocError, Global};

// A byte of a text on one line.
fn plain_byte(byte: u8) -> u8
    ensures { result ≡ plain_byte byte }
{
    if byte < 32 { 32 } else { byte }
}

// Adds a text on one line.
fn put_plain(out: &mut Vec<u8>, text: &[u8]) -> Result<(), AllocError>
    ensures { OnOk result (out.new.items ≡ out.old.items ++ plain text.now) }
{
    for byte in text {
        out.push(plain_byte(*byte))?;
    }
    Ok(())
}

// Adds a key and its row, or that it is a commit.
fn put_row(alloc: Global, out: &mut Vec<u8>, event: &Event) -> Result<(), AllocError>
    ensures { OnOk result (out.new.items ≡ out.old.items ++ row_text event.now.key (row_told event.now)) }
{
    match &event.key {
        None => out.extend_from_slice(b"a commit"),
        Some(key) => {
            put_plain(out, key.as_bytes())?;
            out.extend_from_slice(b" ")?;
            let row = row_text(alloc, event)?;
            put_plain(out, row.as_bytes())
        }
    }
}

// Adds who made a call, if that is told.
fn put_by(out: &mut Vec<u8>, session: &Option<String>) -> Result<(), AllocError>
    ensures { OnOk result (out.new.items ≡ out.old.items ++ by_text (option_map string_bytes session.now)) }
{
    match session {
        None => Ok(()),
        Some(session) => {
            out.extend_from_slice(b" by ")?;
            put_plain(out, session.as_bytes())
        }
    }
}

// Adds the row, and who was answered or wrote it.
fn put_subject(alloc: Global, out: &mut Vec<u8>, event: &Event) -> Result<(), AllocError>
    ensures { OnOk result (out.new.items ≡ out.old.items ++ subject_text event.now) }
{
    put_row(alloc, out, event)?;
    put_by(out, &event.session)
}

// Adds the line of a finding.
fn put_line(
    alloc: Global,
    out: &mut Vec<u8>,
    number: u64,
    name: &[u8],
    event: &Event,
    more: &[u8],
) -> Result<(), AllocError>
    ensures { OnOk result (out.new.items ≡ out.old.items ++ line_with number name.now event.now more.now) }
{
    put_labelled(alloc, out, b"line ", number)?;
    out.extend_from_slice(name)?;
    put_subject(alloc, out, event)?;
    out.extend_from_slice(more)
}

// Adds the line of a finding, with how old the answer was at least.
fn put_aged(
    alloc: Global,
    out: &mut Vec<u8>,
    number: u64,
    name: &[u8],
    event: &Event,
    gone_by: u64,
) -> Result<(), AllocError>
    ensures { OnOk result (out.new.items ≡ out.old.items ++ aged number name.now event.now gone_by) }
{
    put_line(alloc, out, number, name, event, b", at least ")?;
    put_labelled(alloc, out, b"", event.begin.saturating_sub(gone_by))?;
    out.extend_from_slice(b" old\n")
}

// Adds the line of a finding, if the judgement is one.
fn put_finding(
    alloc: Global,
    out: &mut Vec<u8>,
    number: u64,
    event: &Event,
    judgement: Option<Judgement>,
) -> Result<(), AllocError>
    ensures { OnOk result (out.new.items ≡ out.old.items ++ finding_text number event.now judgement) }
{
    match judgement {
        Some(Judgement::Stale(by)) => put_aged(alloc, out, number, b": stale-hit ", event, by),
        Some(Judgement::Resurrected(by)) => put_aged(
            alloc,
            out,
            number,
            b": resurrected-hit ",
            event,
            by,
        ),
        Some(Judgement::OldList(by)) => put_aged(alloc, out, number, b": old-list ", event, by),
        Some(Judgement::Dirty) => put_line(alloc, out, number, b": dirty-hit ", event, b"\n"),
        Some(Judgement::RolledBack) => {
            put_line(alloc, out, number, b": rolled-back-hit ", event, b"\n")
        }
        Some(Judgement::LostUpdate) => put_line(
            alloc,
            out,
            number,
            b": lost-update ",
            event,
            b"\n",
        ),
        Some(Judgement::Contradicted) => put_line(
            alloc,
            out,
            number,
            b": contradicted ",
            event,
            b"\n",
        ),
        Some(Judgement::Unknown) => Ok(()),
        Some(Judgement::Possible) => Ok(()),
        Some(Judgement::OpenList) => Ok(()),
        None => Ok(()),
    }
}

// Adds the line of a finding, if the judgement is one and more may be told.
fn put_finding_within(
    alloc: Global,
    out: &mut Vec<u8>,
    most: u64,
    number: u64,
    event: &Event,
    judgement: Option<Judgement>,
) -> Result<(), AllocError>
    ensures { OnOk result (out.new.items ≡ out.old.items ++ (if most == 0 then [] else finding_text number event.now judgement)) }
{
    if most == 0 {
        return Ok(());
    }
    put_finding(alloc, out, number, event, judgement)
}

// How many more findings may be told after a judgement.
fn left_of(most: u64, judgement: &Option<Judgement>) -> u64
    ensures { result ≡ most - one_if (asked.is_found judgement.now) }
{
    if is_found(judgement) {
        most.saturating_sub(1)
    } else {
        most
    }
}

/// Adds a line for each finding, with the number of its line, from 1, and of so many at most.
pub fn put_findings(
    alloc: Global,
    out: &mut Vec<u8>,
    most: u64,
    events: &[Event],
    judgements: &[Option<Judgement>],
) -> Result<(), AllocError>
    requires { length judgements.now ≡ length events.now }
    ensures { OnOk result (out.new.items ≡ out.old.items ++ findings_text most 1 events.now judgements.now) }
{
    let mut left = most;
    for at in 0..events.len() {
        put_finding_within(alloc, out, left, at as u64 + 1, &events[at], judgements[at])?;
        left = left_of(left, &judgements[at]);
    }
    Ok(())
}

// How many judgements are findings.
fn count_found(judgements: &[Option<Judgement>]) -> u64
    ensures { result ≡ count_by asked.is_found judgements.now }
{
    let mut count: u64 = 0;
    for judgement in judgements {
        if is_found(judgement) {
            count += 1;
        }
    }
    count
}

/// Adds how many findings aren't told, if so many are at most.
pub fn put_more(
    alloc: Global,
    out: &mut Vec<u8>,
    most: u64,
    judgements: &[Option<Judgement>],
) -> Result<(), AllocError>
    ensures { OnOk result (out.new.items ≡ out.old.items ++ more_text most judgements.now) }
{
    let count = count_found(judgements);
    if count <= most {
        return Ok(());
    }
    put_labelled(alloc, out, b"and ", count - most)?;
    out.extend_from_slice(b" more\n")
}
