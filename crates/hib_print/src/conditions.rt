// The conditions of queries, in tokens, as `queries` prints them. `print_...` adds to the printer's text.
ghost use Rattle.std.specs.Prelude.{◌≡◌, [], ◌∷◌, OnOk};
ghost use Rattle.hib_lex.specs.declared.lexer.Token.{Token};
ghost use Rattle.hib_print.specs.Lines.{op_text, subject, condition_tokens};
ghost use Rattle.hib_print.specs.Steps.{Adds};

use crate::printer::Printer;
use hib_base::{Cell, Cond, EntityNo, Op, Path, Script};
use hib_texts::column_name;
use std::alloc::{AllocError, Global};

fn op_word(op: Op) -> &'static [u8]
    ensures { result.now ≡ op_text op }
{
    match op {
        Op::Eq => b"eq",
        Op::Ne => b"ne",
        Op::Lt => b"lt",
        Op::Le => b"le",
        Op::Gt => b"gt",
        Op::Ge => b"ge",
    }
}

fn print_subject(
    printer: &mut Printer,
    script: &Script,
    entity: EntityNo,
    path: Path,
) -> Result<(), AllocError>
    ensures { OnOk result (Adds printer.old printer.new (subject script.now entity path ∷ [])) }
{
    let column = column_name(script, entity, path.column);
    match path.target {
        None => printer.word(column),
        Some(target) => printer.path(column, column_name(script, target.entity, target.column)),
    }
}

// Adds what a condition begins with that tests a column, up to the column.
fn print_test(
    printer: &mut Printer,
    script: &Script,
    entity: EntityNo,
    word: &[u8],
    path: Path,
) -> Result<(), AllocError>
    ensures { OnOk result (Adds printer.old printer.new
        (Token.Left ∷ Token.Word word.now ∷ subject script.now entity path ∷ [])) }
{
    printer.left()?;
    printer.word(word)?;
    print_subject(printer, script, entity, path)
}

fn print_compared(
    alloc: Global,
    printer: &mut Printer,
    script: &Script,
    entity: EntityNo,
    op: Op,
    path: Path,
    cell: &Cell,
) -> Result<(), AllocError>
    ensures { OnOk result (Adds printer.old printer.new
        (condition_tokens script.now entity (Cond.Test op path cell.now))) }
{
    print_test(printer, script, entity, op_word(op), path)?;
    printer.cell(alloc, cell)?;
    printer.right()
}

fn print_among(
    alloc: Global,
    printer: &mut Printer,
    script: &Script,
    entity: EntityNo,
    path: Path,
    cells: &[Cell],
) -> Result<(), AllocError>
    ensures { OnOk result (Adds printer.old printer.new
        (condition_tokens script.now entity (Cond.Among path cells.now))) }
{
    print_test(printer, script, entity, b"in", path)?;
    printer.cells(alloc, cells)?;
    printer.right()
}

// Adds what a condition that joins others begins with.
fn print_joint(printer: &mut Printer, word: &[u8]) -> Result<(), AllocError>
    ensures { OnOk result (Adds printer.old printer.new (Token.Left ∷ Token.Word word.now ∷ [])) }
{
    printer.left()?;
    printer.word(word)
}

/// Adds the tokens of a condition. Its query is over this entity.
pub fn print_condition(
    alloc: Global,
    printer: &mut Printer,
    script: &Script,
    entity: EntityNo,
    condition: &Cond,
) -> Result<(), AllocError>
    ensures { OnOk result (Adds printer.old printer.new
        (condition_tokens script.now entity condition.now)) }
{
    match condition {
        Cond::And(first, second) => {
            print_joint(printer, b"and")?;
            print_condition(alloc, printer, script, entity, first)?;
            print_condition(alloc, printer, script, entity, second)?;
            printer.right()
        }
        Cond::Or(first, second) => {
            print_joint(printer, b"or")?;
            print_condition(alloc, printer, script, entity, first)?;
            print_condition(alloc, printer, script, entity, second)?;
            printer.right()
        }
        Cond::Not(only) => {
            print_joint(printer, b"not")?;
            print_condition(alloc, printer, script, entity, only)?;
            printer.right()
        }
        Cond::Test { op, path, cell } => print_compared(
            alloc, printer, script, entity, *op, *path, cell,
        ),
        Cond::Among { path, cells } => print_among(
            alloc,
            printer,
            script,
            entity,
            *path,
            cells.as_slice(),
        ),
    }
}
