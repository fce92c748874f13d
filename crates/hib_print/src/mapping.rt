// The lines of entities and of first rows, as `script` prints them. `print_...` adds to the printer's text.
ghost use Rattle.std.specs.Prelude.{◌≡◌, [], ◌∷◌, map, flat_map, OnOk};
ghost use Rattle.hib_print.specs.Lines.{strategy_text, versioning_text, type_tokens, default_tokens, column_line, entity_line, entity_lines, version_tokens, row_line};
ghost use Rattle.hib_print.specs.Steps.{Adds, AddsLines};

use crate::printer::Printer;
use hib_base::{Cell, ColumnDef, ColumnType, EntityDef, Key, Row, Script, Strategy};
use hib_texts::entity_name;
use std::alloc::{AllocError, Global};

fn strategy_word(strategy: Strategy) -> &'static [u8]
    ensures { result.now ≡ strategy_text strategy }
{
    match strategy {
        Strategy::Uncached => b"none",
        Strategy::ReadOnly => b"read-only",
        Strategy::Nonstrict => b"nonstrict",
        Strategy::ReadWrite => b"read-write",
    }
}

fn versioning_word(versioned: bool) -> &'static [u8]
    ensures { result.now ≡ versioning_text versioned }
{
    if versioned { b"versioned" } else { b"plain" }
}

fn print_entity(alloc: Global, printer: &mut Printer, entity: &EntityDef) -> Result<(), AllocError>
    ensures { OnOk result (AddsLines printer.old printer.new (entity_line entity.now ∷ [])) }
{
    printer.words(b"entity", entity.name.as_slice())?;
    printer.word(strategy_word(entity.strategy))?;
    printer.counted(
        alloc,
        versioning_word(entity.versioned),
        u64::from(entity.capacity),
    )?;
    printer.end_line()
}

fn print_type(printer: &mut Printer, script: &Script, kind: ColumnType) -> Result<(), AllocError>
    ensures { OnOk result (Adds printer.old printer.new (type_tokens script.now kind)) }
{
    match kind {
        ColumnType::Int => printer.word(b"int"),
        ColumnType::Text => printer.word(b"text"),
        ColumnType::Bool => printer.word(b"bool"),
        ColumnType::Ref(entity) => printer.words(b"ref", entity_name(script, entity)),
    }
}

fn print_default(
    alloc: Global,
    printer: &mut Printer,
    default: &Option<Cell>,
) -> Result<(), AllocError>
    ensures { OnOk result (Adds printer.old printer.new (default_tokens default.now)) }
{
    match default {
        None => Ok(()),
        Some(cell) => {
            printer.word(b"default")?;
            printer.cell(alloc, cell)
        }
    }
}

fn print_column(
    alloc: Global,
    printer: &mut Printer,
    script: &Script,
    column: &ColumnDef,
) -> Result<(), AllocError>
    ensures { OnOk result (AddsLines printer.old printer.new
        (column_line script.now column.now ∷ [])) }
{
    printer.words(b"column", column.name.as_slice())?;
    print_type(printer, script, column.kind)?;
    print_default(alloc, printer, &column.default)?;
    printer.end_line()
}

fn print_columns(
    alloc: Global,
    printer: &mut Printer,
    script: &Script,
    columns: &[ColumnDef],
) -> Result<(), AllocError>
    ensures { OnOk result (AddsLines printer.old printer.new
        (map (λ d. column_line script.now d) columns.now)) }
{
    for column in columns {
        print_column(alloc, printer, script, column)?;
    }
    Ok(())
}

/// Adds the lines of each entity, and of its columns.
pub fn print_mapping(
    alloc: Global,
    printer: &mut Printer,
    script: &Script,
) -> Result<(), AllocError>
    ensures { OnOk result (AddsLines printer.old printer.new
        (flat_map (λ e. entity_lines script.now e) script.now.mapping)) }
{
    for entity in script.mapping.as_slice() {
        print_entity(alloc, printer, entity)?;
        print_columns(alloc, printer, script, entity.columns.as_slice())?;
    }
    Ok(())
}

fn print_version(
    alloc: Global,
    printer: &mut Printer,
    version: Option<u32>,
) -> Result<(), AllocError>
    ensures { OnOk result (Adds printer.old printer.new (version_tokens version)) }
{
    match version {
        None => Ok(()),
        Some(v) => printer.version(alloc, v),
    }
}

fn print_row(
    alloc: Global,
    printer: &mut Printer,
    script: &Script,
    row: &(Key, Row),
) -> Result<(), AllocError>
    ensures { OnOk result (AddsLines printer.old printer.new (row_line script.now row.now ∷ [])) }
{
    printer.keyed(alloc, script, b"row", row.0)?;
    print_version(alloc, printer, row.1.version)?;
    printer.cells(alloc, row.1.cells.as_slice())?;
    printer.end_line()
}

/// Adds the lines of the first rows.
pub fn print_rows(alloc: Global, printer: &mut Printer, script: &Script) -> Result<(), AllocError>
    ensures { OnOk result (AddsLines printer.old printer.new
        (map (λ x. row_line script.now x) script.now.rows)) }
{
    for row in script.rows.as_slice() {
        print_row(alloc, printer, script, row)?;
    }
    Ok(())
}
