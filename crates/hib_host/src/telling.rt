// How a call ended, told to the user and to the system.
ghost use Rattle.std.specs.Prelude.{◌≡◌};
ghost use Rattle.std.specs.Process.{exit_status};
ghost use Rattle.hib_call.specs.Exits.{exit_number};

use hib_call::{Status, status_line};
use std::alloc::Global;
use std::process::ExitCode;

/// Says on standard error how the call ended, if it isn't done, and gives the exit status. If nobody listens there, or
/// there is no memory for the line, nothing changes.
pub fn told(rt: &impl Eprint, alloc: Global, status: Status) -> ExitCode
    ensures { exit_status result ≡ exit_number status }
{
    if !status.is_done() {
        if let Ok(line) = status_line(alloc, &status) {
            if let Ok(text) = String::from_utf8_lossy(alloc, line.as_slice()) {
                let _ = eprint!(rt; "{text}");
            }
        }
    }
    ExitCode::from(status.number())
}
