// How a call of the program ends, the number of it, and the line on standard error.
ghost use Rattle.hib_call.specs.Exits.{exit_number};
ghost use Rattle.hib_call.specs.StatusLine.{status_text, refused_text, illegal_text, kind_text};
ghost use Rattle.std.specs.Prelude.{◌≡◌, ◌↔◌, ◌++◌, IsTrue, IfOk, OnOk};

use hib_audit::AuditKind;
use hib_base::{Bytes, Refused, Seq};
use hib_merge::Torn;
use std::alloc::{AllocError, Global};

/// How a call of the program ends.
#[derive(Drop)]
pub enum Status {
    /// All was done, and the text was written whole.
    Done,
    /// The journal that was audited isn't legal.
    Illegal {
        /// Its first entry that isn't legal, numbered from 1.
        entry: u32,
        /// The first point that the entry breaks.
        kind: AuditKind,
    },
    /// The words have no form.
    Usage,
    /// The input is no script: its first line that can't stand at its place.
    Refused(Refused),
    /// The source failed.
    ReadFault,
    /// The sink failed; what it took is a front of the text.
    WriteFault,
    /// The input is longer than 1,048,576 bytes.
    TooLong,
    /// A run over parts under locks of their own: a lock gave another region than the one that was asked for, or lists
    /// or ticks don't fit together.
    Torn(Torn),
    /// Memory ran out.
    NoMemory,
    /// The keeper didn't take the script's rows.
    StoreFault,
}

impl Status {
    /// Whether all was done.
    pub fn is_done(&self) -> bool
        ensures { IsTrue result ↔ (self.now ≡ Status.Done) }
    {
        matches!(self, Status::Done)
    }

    /// The number that a program ends with.
    pub fn number(&self) -> u8
        ensures { result ≡ exit_number self.now }
    {
        match self {
            Status::Done => 0,
            Status::Illegal { .. } => 1,
            Status::Usage => 2,
            Status::Refused(_) => 3,
            Status::ReadFault => 4,
            Status::WriteFault => 5,
            Status::TooLong => 6,
            Status::Torn(_) => 7,
            Status::NoMemory => 8,
            Status::StoreFault => 9,
        }
    }
}

/// The line that says how a call ended, as a program prints it, with its line end. Fails for want of memory alone.
pub fn status_line(alloc: Global, status: &Status) -> Result<Bytes, AllocError>
    ensures { IfOk result (λ line. line ≡ status_text status.now) }
{
    let mut line = b"hib: ".to_vec(alloc)?;
    match status {
        Status::Done => line.extend_from_slice(b"done")?,
        Status::Illegal { entry, kind } => put_illegal(alloc, &mut line, *entry, *kind)?,
        Status::Usage => line.extend_from_slice(b"usage")?,
        Status::Refused(refused) => put_refused(alloc, &mut line, refused)?,
        Status::ReadFault => line.extend_from_slice(b"read fault")?,
        Status::WriteFault => line.extend_from_slice(b"write fault")?,
        Status::TooLong => line.extend_from_slice(b"too long")?,
        Status::Torn(_) => line.extend_from_slice(b"torn")?,
        Status::NoMemory => line.extend_from_slice(b"no memory")?,
        Status::StoreFault => line.extend_from_slice(b"store fault")?,
    }
    line.push(b'\n')?;
    Ok(Seq::from_vec(line))
}

/// Adds where an input is refused, and why.
fn put_refused(alloc: Global, line: &mut Vec<u8>, refused: &Refused) -> Result<(), AllocError>
    ensures { OnOk result (line.new.items ≡ line.old.items ++ refused_text refused.now) }
{
    line.extend_from_slice(b"line ")?;
    let number = refused.line.to_string(alloc)?;
    line.extend_from_slice(number.as_bytes())?;
    line.extend_from_slice(b": ")?;
    line.extend_from_slice(refused.kind.word())?;
    Ok(())
}

/// The word of a point that an audited entry breaks.
fn word_of<'a>(kind: AuditKind) -> &'a [u8]
    ensures { result.now ≡ kind_text kind }
{
    match kind {
        AuditKind::Tick => b"tick",
        AuditKind::Session => b"session",
        AuditKind::Part => b"part",
        AuditKind::Act => b"act",
        AuditKind::Reply => b"reply",
    }
}

/// Adds which entry is the first that isn't legal, and the point that it breaks.
pub fn put_illegal(
    alloc: Global,
    line: &mut Vec<u8>,
    entry: u32,
    kind: AuditKind,
) -> Result<(), AllocError>
    ensures { OnOk result (line.new.items ≡ line.old.items ++ illegal_text entry kind) }
{
    line.extend_from_slice(b"illegal ")?;
    let number = entry.to_string(alloc)?;
    line.extend_from_slice(number.as_bytes())?;
    line.extend_from_slice(b" ")?;
    line.extend_from_slice(word_of(kind))?;
    Ok(())
}
