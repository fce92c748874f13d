// The text of a script, as `make --text` and the tools print it.
ghost use Rattle.std.specs.Prelude.{◌≡◌, ◌∷◌, [], IfOk, OnOk};
ghost use Rattle.hib_print.specs.Lines.{natural};
ghost use Rattle.hib_print.specs.Printed.{head_lines, printed, printed_rows};
ghost use Rattle.hib_print.specs.Steps.{AddsLines};
ghost use Rattle.hib_lex.specs.declared.lexer.Token.{Token};

use crate::mapping::{print_mapping, print_rows};
use crate::printer::Printer;
use crate::queries::print_queries;
use crate::sessions::{print_schedule, print_sessions};
use hib_base::{Bytes, Script, Seq};
use std::alloc::{AllocError, Global};

// Adds a line of a word and a number.
fn print_counted(
    alloc: Global,
    printer: &mut Printer,
    word: &[u8],
    n: u64,
) -> Result<(), AllocError>
    ensures { OnOk result (AddsLines printer.old printer.new
        ((Token.Word word.now ∷ natural n ∷ []) ∷ [])) }
{
    printer.counted(alloc, word, n)?;
    printer.end_line()
}

fn print_head(alloc: Global, printer: &mut Printer, script: &Script) -> Result<(), AllocError>
    ensures { OnOk result (AddsLines printer.old printer.new (head_lines script.now)) }
{
    print_counted(alloc, printer, b"hib", 1)?;
    print_counted(alloc, printer, b"timeout", u64::from(script.timeout))?;
    print_counted(alloc, printer, b"results", u64::from(script.results))
}

/// The text of a script: each line with single spaces between tokens, none after an opening parenthesis and none before
/// a closing one. `timeout` and `results` are printed always, and `offset` and `limit` of each query but a count; a
/// schedule is if it has orders. A number that the script doesn't know prints as nothing. Fails for want of memory
/// alone.
#[tactic(auto, unfolding(crate::specs::Printed::printed))]
pub fn print(alloc: Global, script: &Script) -> Result<Bytes, AllocError>
    ensures { IfOk result (λ b. b ≡ printed script.now) }
{
    let mut printer = Printer::new(alloc);
    print_head(alloc, &mut printer, script)?;
    print_mapping(alloc, &mut printer, script)?;
    print_rows(alloc, &mut printer, script)?;
    print_queries(alloc, &mut printer, script)?;
    print_sessions(alloc, &mut printer, script)?;
    print_schedule(alloc, &mut printer, script)?;
    Ok(Seq::from_vec(printer.text))
}

/// The lines of a script's rows, as `print` gives them. Fails for want of memory alone.
#[tactic(auto, unfolding(crate::specs::Printed::printed_rows))]
pub fn print_row_lines(alloc: Global, script: &Script) -> Result<Bytes, AllocError>
    ensures { IfOk result (λ b. b ≡ printed_rows script.now) }
{
    let mut printer = Printer::new(alloc);
    print_rows(alloc, &mut printer, script)?;
    Ok(Seq::from_vec(printer.text))
}
