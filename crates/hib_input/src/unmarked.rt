// What is said of a text in which the line is missing that ends the script.
ghost use Rattle.std.specs.Prelude.{◌≡◌, ◌<◌, ◌≤◌, ◌+◌, ◌^◌, length};
ghost use Rattle.hib_lex.specs.Lines.{lines_of};
ghost use Rattle.hib_input.specs.Cut.{IsFault, script_of_lines, unmarked};

use hib_base::{Kind, Refused};
use hib_script::ScriptError;
use std::alloc::Global;

/// Why a text is refused in which the line after the script is missing: its first bad line as a script, or else this
/// kind at its last line. `lines` is how many lines it has.
pub fn without_mark(alloc: Global, text: &[u8], lines: usize, kind: Kind) -> ScriptError
    requires small { length text.now < 2 ^ 31 }
    requires few { lines ≤ length text.now + 1 }
    requires count { lines ≡ length (lines_of text.now) }
    ensures { IsFault (unmarked kind lines (script_of_lines (lines_of text.now))) result }
{
    match hib_script::read(alloc, text) {
        Ok(_) => ScriptError::Refused(Refused {
            line: lines as u32,
            kind,
        }),
        Err(error) => error,
    }
}
