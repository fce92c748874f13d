// Why a text is no trace.
ghost use Rattle.hib_trace_lines.specs.declared.faults.TraceError.TheVariants.{NoMemory};
ghost use Rattle.hib_trace_lines.specs.Members.{member_name};
ghost use Rattle.std.specs.Prelude.{◌≡◌};

use std::alloc::AllocError;
use thiserror::Error;

/// A member of a line's object.
#[derive(Clone, Copy, Debug, PartialEq, Eq)]
pub enum Member {
    Session,
    Transaction,
    Operation,
    Key,
    Value,
    Version,
    Base,
    Outcome,
    Tables,
    Writes,
    Begin,
    End,
}

impl Member {
    /// Its name in a line.
    pub fn name(self) -> &'static str
        ensures { result.now ≡ member_name self }
    {
        match self {
            Member::Session => "session",
            Member::Transaction => "tx",
            Member::Operation => "op",
            Member::Key => "key",
            Member::Value => "value",
            Member::Version => "version",
            Member::Base => "base",
            Member::Outcome => "outcome",
            Member::Tables => "tables",
            Member::Writes => "writes",
            Member::Begin => "begin",
            Member::End => "end",
        }
    }
}

/// Why a line is no event.
#[derive(Clone, Copy, Debug, PartialEq, Eq)]
pub enum Fault {
    /// It is no JSON text in UTF-8.
    NotJson,
    /// It is JSON, and no object.
    NotAnObject,
    /// It has a member that no event has.
    UnknownMember,
    /// A member that it needs isn't there.
    Missing(Member),
    /// A member is no text.
    NotText(Member),
    /// A member is no whole number below 2^64.
    NotWhole(Member),
    /// A member is a word that isn't known there.
    NotAWord(Member),
    /// The rows that a commit made aren't pairs of a key and a version.
    NotRows,
    /// The tables of a list aren't texts.
    NotTables,
    /// It had returned before it began.
    EndBeforeBegin,
}

/// A bad line of a trace.
#[derive(Clone, Copy, Debug, PartialEq, Eq)]
pub struct RefusedLine {
    /// Its number, from 1.
    pub line: u64,
    /// The first reason.
    pub fault: Fault,
}

/// Why a text isn't read as a trace.
#[derive(Clone, Copy, Debug, PartialEq, Eq, Error)]
pub enum TraceError {
    /// There is no memory left.
    #[error("no memory")]
    NoMemory,
    /// The text has more than 64 MiB.
    #[error("too long")]
    TooLong,
    /// A line is no event.
    #[error("line {line} is no event", line = .0.line)]
    Refused(RefusedLine),
}

impl From<AllocError> for TraceError {
    ghost from_gives = { λ _ e. e ≡ NoMemory };

    fn from(_: AllocError) -> Self {
        TraceError::NoMemory
    }
}
