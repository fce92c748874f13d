//! The program that judges a recorded trace of another cache: which of its answers were certainly wrong,
//! which updates were lost, and which lists are old. It reads JSON lines from standard input and prints the report. `./hib judge` runs it.
#![tactic(auto)]

mod asked;
mod ends;

use asked::{Asked, is_help, read_words};
use ends::{End, exit};
use hib_trace_lines::TraceError;
use hib_trace_report::{Report, report_trace};
use std::alloc::Global;
use std::io::{Read, Write};
use std::process::ExitCode;
use std::{env, io};

/// The most bytes that are read: one more than a trace may have, so that a longer one is told from one that fits.
const MOST_BYTES: u64 = 67108865;

const HELP: &str =
    "Judges a trace of another cache, which comes by standard input as JSON lines (docs/TRACES.md)

Usage: hib judge [--order WORD] [--clock N] [--allow N] [--key KEY] [--at-most N]

  --order WORD  What tells the order of commits, beside calls that don't overlap: commit, which is nothing, and is
                taken if it isn't given; version, the versions of the rows; write, when the rows were written
  --clock N     Clocks may differ by N, in units of the trace's clock; 0 if it isn't given
  --allow N     An answer may be N old; 0 if it isn't given
  --key KEY     Judges the lines about this key alone
  --at-most N   Tells the first N findings

The status is 1 if something is found, 0 if nothing is, 2 if the words have no form, 3 if a line is no event,
6 if the trace has more than 67,108,864 bytes, 4 or 5 if reading or writing failed, and 8 if memory ran out.
";

/// Writes a report on standard output, and says how that ended.
fn write_report(rt: &HostRuntime, report: &Report) -> End {
    let mut out = io::writer(rt);
    if out.write_all(report.text.as_slice()).is_err() || out.flush().is_err() {
        return End::Write;
    }
    if report.certain {
        End::Certain
    } else {
        End::Done
    }
}

/// Reads the trace, judges it and writes the report.
fn judge(rt: &HostRuntime, alloc: Global, asked: &Asked) -> End {
    let mut text = Vec::new(alloc);
    if rt.reader().take(MOST_BYTES).read_to_end(&mut text).is_err() {
        return End::Read;
    }
    match report_trace(
        alloc,
        text.as_slice(),
        &asked.limits,
        asked.most,
        &asked.key,
    ) {
        Ok(report) => write_report(rt, &report),
        Err(TraceError::NoMemory) => End::NoMemory,
        Err(TraceError::TooLong) => End::Long,
        Err(TraceError::Refused(refused)) => End::Refused(refused),
    }
}

fn main(rt: HostRuntime) -> io::Result<ExitCode> {
    let alloc = rt.alloc();
    let mut words = Vec::new(alloc);
    for word in env::args(&rt)?.skip(1) {
        words.push(word)?;
    }
    if is_help(&words) {
        rt.print(HELP)?;
        return Ok(exit(&rt, End::Done));
    }
    match read_words(alloc, &words) {
        Ok(Some(asked)) => Ok(exit(&rt, judge(&rt, alloc, &asked))),
        Ok(None) => Ok(exit(&rt, End::Usage)),
        Err(_) => Ok(exit(&rt, End::NoMemory)),
    }
}
