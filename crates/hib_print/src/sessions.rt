// The lines of sessions and of the schedule, as `script` prints them. `print_...` adds to the printer's text.
ghost use Rattle.std.specs.Prelude.{◌≡◌, List, map, flat_map, OnOk};
ghost use Rattle.hib_print.specs.Lines.{set_tokens, mode_text, statement_line, end_line, session_lines, order_line, schedule_lines};
ghost use Rattle.hib_print.specs.Steps.{Adds, AddsLines};

use crate::printer::Printer;
use hib_base::{Cell, EntityNo, Key, Mode, Order, Script, SessionDef, Statement};
use hib_texts::{column_name, query_name, session_name};
use std::alloc::{AllocError, Global};

fn print_persist(
    alloc: Global,
    printer: &mut Printer,
    script: &Script,
    key: Key,
    cells: &[Cell],
) -> Result<(), AllocError>
    ensures { OnOk result (Adds printer.old printer.new
        (statement_line script.now (Statement.Persist key cells.now))) }
{
    printer.keyed(alloc, script, b"persist", key)?;
    printer.cells(alloc, cells)
}

fn print_sets(
    alloc: Global,
    printer: &mut Printer,
    script: &Script,
    entity: EntityNo,
    sets: &[(u16, Cell)],
) -> Result<(), AllocError>
    ensures { OnOk result (Adds printer.old printer.new
        (flat_map (λ x. set_tokens script.now entity x) sets.now)) }
{
    for set in sets {
        printer.word(column_name(script, entity, set.0))?;
        printer.cell(alloc, &set.1)?;
    }
    Ok(())
}

fn print_set(
    alloc: Global,
    printer: &mut Printer,
    script: &Script,
    key: Key,
    sets: &[(u16, Cell)],
) -> Result<(), AllocError>
    ensures { OnOk result (Adds printer.old printer.new
        (statement_line script.now (Statement.Set key sets.now))) }
{
    let entity = key.entity;
    printer.keyed(alloc, script, b"set", key)?;
    print_sets(alloc, printer, script, entity, sets)
}

fn mode_word(mode: Mode) -> &'static [u8]
    ensures { result.now ≡ mode_text mode }
{
    match mode {
        Mode::Normal => b"normal",
        Mode::Ignore => b"ignore",
        Mode::Get => b"get",
        Mode::Put => b"put",
    }
}

fn print_tokens(
    alloc: Global,
    printer: &mut Printer,
    script: &Script,
    statement: &Statement,
) -> Result<(), AllocError>
    ensures { OnOk result (Adds printer.old printer.new (statement_line script.now statement.now)) }
{
    match statement {
        Statement::Find { key } => printer.keyed(alloc, script, b"find", *key),
        Statement::Persist { key, cells } => print_persist(
            alloc,
            printer,
            script,
            *key,
            cells.as_slice(),
        ),
        Statement::Set { key, cells } => print_set(alloc, printer, script, *key, cells.as_slice()),
        Statement::Remove { key } => printer.keyed(alloc, script, b"remove", *key),
        Statement::List { query } => printer.words(b"list", query_name(script, *query)),
        Statement::Flush => printer.word(b"flush"),
        Statement::Clear => printer.word(b"clear"),
        Statement::Mode { mode } => printer.words(b"mode", mode_word(*mode)),
        Statement::Commit => printer.word(b"commit"),
        Statement::Rollback => printer.word(b"rollback"),
    }
}

fn print_statements(
    alloc: Global,
    printer: &mut Printer,
    script: &Script,
    statements: &[Statement],
) -> Result<(), AllocError>
    ensures { OnOk result (AddsLines printer.old printer.new
        (map (λ t. statement_line script.now t) statements.now)) }
{
    for statement in statements {
        print_tokens(alloc, printer, script, statement)?;
        printer.end_line()?;
    }
    Ok(())
}

fn print_session(
    alloc: Global,
    printer: &mut Printer,
    script: &Script,
    session: &SessionDef,
) -> Result<(), AllocError>
    ensures { OnOk result (AddsLines printer.old printer.new
        (session_lines script.now session.now)) }
{
    printer.words(b"session", session.name.as_slice())?;
    printer.end_line()?;
    print_statements(alloc, printer, script, session.statements.as_slice())?;
    printer.word_line(b"end")
}

/// Adds the lines of the sessions.
pub fn print_sessions(
    alloc: Global,
    printer: &mut Printer,
    script: &Script,
) -> Result<(), AllocError>
    ensures { OnOk result (AddsLines printer.old printer.new
        (flat_map (λ d. session_lines script.now d) script.now.sessions)) }
{
    for session in script.sessions.as_slice() {
        print_session(alloc, printer, script, session)?;
    }
    Ok(())
}

fn print_order(
    alloc: Global,
    printer: &mut Printer,
    script: &Script,
    order: Order,
) -> Result<(), AllocError>
    ensures { OnOk result (Adds printer.old printer.new (order_line script.now order)) }
{
    match order {
        Order::Run { session, steps } => {
            printer.words(b"run", session_name(script, session))?;
            printer.natural(alloc, u64::from(steps))
        }
        Order::Kill { session } => printer.words(b"kill", session_name(script, session)),
        Order::Evict { key } => printer.keyed(alloc, script, b"evict", key),
        Order::Restart => printer.word(b"restart"),
    }
}

fn print_orders(
    alloc: Global,
    printer: &mut Printer,
    script: &Script,
    orders: &[Order],
) -> Result<(), AllocError>
    ensures { OnOk result (AddsLines printer.old printer.new
        (map (λ x. order_line script.now x) orders.now)) }
{
    for order in orders {
        print_order(alloc, printer, script, *order)?;
        printer.end_line()?;
    }
    Ok(())
}

/// Adds the lines of the schedule, if it has orders.
pub fn print_schedule(
    alloc: Global,
    printer: &mut Printer,
    script: &Script,
) -> Result<(), AllocError>
    ensures { OnOk result (AddsLines printer.old printer.new
        (schedule_lines script.now script.now.schedule)) }
{
    let orders = script.schedule.as_slice();
    if orders.is_empty() {
        return Ok(());
    }
    printer.word_line(b"schedule")?;
    print_orders(alloc, printer, script, orders)?;
    printer.word_line(b"end")
}
