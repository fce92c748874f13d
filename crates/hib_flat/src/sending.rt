// Flat data on its way to a sink, piece by piece.
ghost use Rattle.std.specs.Prelude.{◌≡◌, ◌++◌, codes, OnOk, OnErr};
ghost use Rattle.std.specs.Io.KnownBytes.{Appends};
ghost use Rattle.hib_outside.specs.Causes.{Rose};
ghost use Rattle.hib_outside.specs.Fronts.{TakesFront};
ghost use Rattle.hib_report.specs.declared.sending.WriteStop.{WriteStop};
ghost use Rattle.hib_flat.specs.Forms.{line_as, needed};
ghost use Rattle.hib_flat.specs.Lines.{flat, flat_csv};

use crate::columns::column_names;
use crate::form::Form;
use crate::lines::{put_header, put_line};
use hib_base::{Entry, Script, Text};
use hib_outside::Sink;
use hib_report::{PutLine, WriteStop, send as send_gathered, send_lines};
use std::alloc::{AllocError, Global};

/// The lines of entries in a form.
#[derive(Drop)]
struct FlatLines<'a> {
    form: Form,
    script: &'a Script,
    names: &'a [Text],
    ghost named: { names.now ≡ needed form script.now },
}

impl<'a> PutLine for FlatLines<'a> {
    ghost line = { λ l e. line_as l.form l.script.now e ++ codes "\n" };

    fn put(&self, alloc: Global, out: &mut Vec<u8>, entry: &Entry) -> Result<(), AllocError> {
        put_line(alloc, out, self.form, self.script, self.names, entry)
    }
}

/// Writes an object for each entry to a sink, each on a line, piece by piece: no more of them is in memory at a time
/// than a piece and a line. What a member is called and when it is there is said in docs/DATA.md. A number that the
/// script doesn't know is written as an empty name. If the sink fails or memory runs out a front of the lines was
/// taken.
pub fn write<W: Sink>(
    alloc: Global,
    script: &Script,
    entries: &[Entry],
    out: &mut W,
) -> Result<(), WriteStop>
    ensures whole { OnOk result (Appends (W.taken out.old) (W.taken out.new)
        (flat script.now entries.now)) }
    ensures front { OnErr result (TakesFront (W.taken out.old) (W.taken out.new)
        (flat script.now entries.now)) }
    ensures cause { result ≡ Err WriteStop.Failed → Rose (W.faults out.old) (W.faults out.new) }
{
    let mut gathered = Vec::new(alloc);
    let lines = FlatLines {
        form: Form::Json,
        script,
        names: &[],
    };
    send_lines(alloc, out, &mut gathered, &lines, entries)?;
    send_gathered(out, &mut gathered)?;
    Ok(())
}

/// Writes the same as comma-separated values: a line of names, then one for each entry, in which a value that an object
/// hasn't is empty. It stops as `write` does.
pub fn write_csv<W: Sink>(
    alloc: Global,
    script: &Script,
    entries: &[Entry],
    out: &mut W,
) -> Result<(), WriteStop>
    ensures whole { OnOk result (Appends (W.taken out.old) (W.taken out.new)
        (flat_csv script.now entries.now)) }
    ensures front { OnErr result (TakesFront (W.taken out.old) (W.taken out.new)
        (flat_csv script.now entries.now)) }
    ensures cause { result ≡ Err WriteStop.Failed → Rose (W.faults out.old) (W.faults out.new) }
{
    let names = column_names(alloc, script)?;
    let mut gathered = Vec::new(alloc);
    put_header(&mut gathered, script, names.as_slice())?;
    let lines = FlatLines {
        form: Form::Csv,
        script,
        names: names.as_slice(),
    };
    send_lines(alloc, out, &mut gathered, &lines, entries)?;
    send_gathered(out, &mut gathered)?;
    Ok(())
}
