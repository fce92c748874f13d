// How bytes are written whole to a sink.
ghost use Rattle.std.specs.Prelude.{OnOk, OnErr};
ghost use Rattle.std.specs.Io.KnownBytes.{Appends};
ghost use Rattle.hib_outside.specs.Causes.{HasCause};
ghost use Rattle.hib_outside.specs.Fronts.{TakesFront};

use crate::streams::{Failed, Sink};

/// Writes all the bytes. If the sink fails, it has taken a first part of them.
pub fn write_all<W: Sink>(sink: &mut W, bytes: &[u8]) -> Result<(), Failed>
    ensures whole { OnOk result (Appends (W.taken sink.old) (W.taken sink.new) bytes.now) }
    ensures front { OnErr result (TakesFront (W.taken sink.old) (W.taken sink.new) bytes.now) }
    ensures cause { HasCause (W.faults sink.old) (W.faults sink.new) result }
{
    let mut at = 0;
    while at < bytes.len() {
        at += sink.write(&bytes[at..])?;
    }
    Ok(())
}
