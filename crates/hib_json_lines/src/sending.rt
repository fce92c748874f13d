// JSON lines on their way to a sink, piece by piece.
ghost use Rattle.std.specs.Prelude.{◌≡◌, ◌++◌, codes, OnOk, OnErr};
ghost use Rattle.std.specs.Io.KnownBytes.{Appends};
ghost use Rattle.hib_outside.specs.Causes.{Rose};
ghost use Rattle.hib_outside.specs.Fronts.{TakesFront};
ghost use Rattle.hib_report.specs.declared.sending.WriteStop.{WriteStop};
ghost use Rattle.hib_json_lines.specs.Line.{json_line, json_lines};

use crate::lines::put_line;
use hib_base::{Entry, Script};
use hib_journal::Journal;
use hib_outside::Sink;
use hib_report::{PutLine, WriteStop, send as send_gathered, send_lines};
use std::alloc::{AllocError, Global};

/// The JSON lines of entries.
#[derive(Drop)]
struct JsonLines<'a> {
    script: &'a Script,
}

impl<'a> PutLine for JsonLines<'a> {
    ghost line = { λ l e. json_line l.script.now e ++ codes "\n" };

    fn put(&self, alloc: Global, out: &mut Vec<u8>, entry: &Entry) -> Result<(), AllocError> {
        put_line(alloc, out, self.script, entry)
    }
}

/// Writes the JSON lines of a journal to a sink, as `write` gives them, piece by piece: no more of them is in memory at
/// a time than a piece and a line. If the sink fails or memory runs out a front of them was taken.
pub fn send<W: Sink>(
    alloc: Global,
    script: &Script,
    journal: &Journal,
    out: &mut W,
) -> Result<(), WriteStop>
    ensures whole { OnOk result (Appends (W.taken out.old) (W.taken out.new)
        (json_lines script.now journal.now.list)) }
    ensures front { OnErr result (TakesFront (W.taken out.old) (W.taken out.new)
        (json_lines script.now journal.now.list)) }
    ensures cause { result ≡ Err WriteStop.Failed → Rose (W.faults out.old) (W.faults out.new) }
{
    let mut gathered = Vec::new(alloc);
    let lines = JsonLines { script };
    send_lines(alloc, out, &mut gathered, &lines, journal.as_slice())?;
    send_gathered(out, &mut gathered)?;
    Ok(())
}
