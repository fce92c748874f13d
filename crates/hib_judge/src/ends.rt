// How the program ends.
use hib_trace_lines::{Fault, RefusedLine};
use std::process::ExitCode;

/// How a call ended.
#[derive(Clone, Copy)]
pub enum End {
    /// The report was written, and no answer is wrong for certain.
    Done,
    /// The report was written, and some answer is.
    Certain,
    /// The words have no form.
    Usage,
    /// A line is no event.
    Refused(RefusedLine),
    /// Reading failed.
    Read,
    /// Writing failed.
    Write,
    /// The trace is too long.
    Long,
    /// Memory ran out.
    NoMemory,
}

impl End {
    fn number(self) -> u8 {
        match self {
            End::Done => 0,
            End::Certain => 1,
            End::Usage => 2,
            End::Refused(_) => 3,
            End::Read => 4,
            End::Write => 5,
            End::Long => 6,
            End::NoMemory => 8,
        }
    }
}

/// Says on standard error why a line is no event.
fn say_fault(rt: &HostRuntime, line: u64, fault: Fault) {
    let _ = match fault {
        Fault::NotJson => eprintln!(rt; "hib: line {line}: it is no JSON text"),
        Fault::NotAnObject => eprintln!(rt; "hib: line {line}: it is no JSON object"),
        Fault::UnknownMember => eprintln!(rt; "hib: line {line}: it has a member of another name"),
        Fault::Missing(member) => eprintln!(rt; "hib: line {line}: {} is missing", member.name()),
        Fault::NotText(member) => eprintln!(rt; "hib: line {line}: {} is no text", member.name()),
        Fault::NotWhole(member) => {
            eprintln!(rt; "hib: line {line}: {} is no whole number", member.name())
        }
        Fault::NotAWord(member) => {
            eprintln!(rt;
                "hib: line {line}: {} is a word that isn't known",
                member.name()
            )
        }
        Fault::NotRows => {
            eprintln!(rt; "hib: line {line}: writes are no pairs of a key and a version")
        }
        Fault::NotTables => eprintln!(rt; "hib: line {line}: tables are no texts"),
        Fault::EndBeforeBegin => eprintln!(rt; "hib: line {line}: it ended before it began"),
    };
}

/// Says on standard error how the program ends, if it has something to say, and gives its exit status.
pub fn exit(rt: &HostRuntime, end: End) -> ExitCode {
    match end {
        End::Done | End::Certain => {}
        End::Usage => {
            let _ = rt.eprint("hib: usage\n");
        }
        End::Refused(refused) => say_fault(rt, refused.line, refused.fault),
        End::Read => {
            let _ = rt.eprint("hib: read fault\n");
        }
        End::Write => {
            let _ = rt.eprint("hib: write fault\n");
        }
        End::Long => {
            let _ = rt.eprint("hib: too long\n");
        }
        End::NoMemory => {
            let _ = rt.eprint("hib: no memory\n");
        }
    }
    ExitCode::from(end.number())
}
