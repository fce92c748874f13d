// The orders that stand in a script before the section of collections: there may be runs alone.
ghost use Rattle.std.specs.Prelude.{◌≡◌};
ghost use Rattle.hib_sections.specs.Schedules as orders;

use hib_lex::{Line, begins};

/// Whether a line of a schedule is an order other than `run`.
fn is_other(line: &Line) -> bool
    ensures { result ≡ orders.is_other line.now }
{
    let tokens = line.tokens.as_slice();
    !(begins(tokens, b"run") || begins(tokens, b"end"))
}

/// The number of the first line of a script's schedule that is an order other than `run`, if there is one. The lines
/// are the script's.
#[tactic(auto, using(crate::proofs::Scheduled::here, crate::proofs::Scheduled::next, crate::proofs::Scheduled::over))]
pub fn other_order(lines: &[Line]) -> Option<u32>
    ensures { result ≡ orders.other_order lines.now }
{
    let mut is_schedule = false;
    for line in lines {
        if is_schedule && is_other(line) {
            return Some(line.line);
        }
        is_schedule = is_schedule || begins(line.tokens.as_slice(), b"schedule");
    }
    None
}
