// The lines of queries, as `script` prints them. `print_...` adds to the printer's text.
ghost use Rattle.std.specs.Prelude.{◌≡◌, [], ◌∷◌, ◌++◌, map, flat_map, OnOk};
ghost use Rattle.hib_print.specs.Lines.{cached_tokens, from_tokens, where_tokens, sort_tokens, order_tokens, page_tokens, selected, query_line};
ghost use Rattle.hib_print.specs.Steps.{Adds, AddsLines};

use crate::conditions::print_condition;
use crate::printer::Printer;
use hib_base::{Cond, EntityNo, Query, Script, Select, Sort};
use hib_texts::{column_name, entity_name};
use std::alloc::{AllocError, Global};

// Adds which entity a query reads, and whether its results are kept.
fn print_from(
    printer: &mut Printer,
    script: &Script,
    cached: bool,
    entity: EntityNo,
) -> Result<(), AllocError>
    ensures { OnOk result (Adds printer.old printer.new
        (cached_tokens cached ++ from_tokens script.now entity)) }
{
    if cached {
        printer.word(b"cached")?;
    }
    printer.words(b"from", entity_name(script, entity))
}

fn print_where(
    alloc: Global,
    printer: &mut Printer,
    script: &Script,
    entity: EntityNo,
    condition: &Option<Cond>,
) -> Result<(), AllocError>
    ensures { OnOk result (Adds printer.old printer.new
        (where_tokens script.now entity condition.now)) }
{
    match condition {
        None => Ok(()),
        Some(condition) => {
            printer.word(b"where")?;
            print_condition(alloc, printer, script, entity, condition)
        }
    }
}

fn print_sort(
    printer: &mut Printer,
    script: &Script,
    entity: EntityNo,
    sort: Sort,
) -> Result<(), AllocError>
    ensures { OnOk result (Adds printer.old printer.new (sort_tokens script.now entity sort)) }
{
    printer.word(column_name(script, entity, sort.column))?;
    if sort.desc {
        printer.word(b"desc")?;
    }
    Ok(())
}

fn print_sorts(
    printer: &mut Printer,
    script: &Script,
    entity: EntityNo,
    sorts: &[Sort],
) -> Result<(), AllocError>
    ensures { OnOk result (Adds printer.old printer.new
        (flat_map (λ x. sort_tokens script.now entity x) sorts.now)) }
{
    for sort in sorts {
        print_sort(printer, script, entity, *sort)?;
    }
    Ok(())
}

fn print_order(
    printer: &mut Printer,
    script: &Script,
    entity: EntityNo,
    sorts: &[Sort],
) -> Result<(), AllocError>
    ensures { OnOk result (Adds printer.old printer.new
        (order_tokens script.now entity sorts.now)) }
{
    if sorts.is_empty() {
        return Ok(());
    }
    printer.word(b"order")?;
    print_sorts(printer, script, entity, sorts)
}

fn print_pages(
    alloc: Global,
    printer: &mut Printer,
    select: Select,
    offset: u32,
    limit: u32,
) -> Result<(), AllocError>
    ensures { OnOk result (Adds printer.old printer.new (page_tokens select offset limit)) }
{
    match select {
        Select::Count => Ok(()),
        Select::Ids | Select::Column(_) => {
            printer.counted(alloc, b"offset", u64::from(offset))?;
            printer.counted(alloc, b"limit", u64::from(limit))
        }
    }
}

fn selected_word(script: &Script, entity: EntityNo, select: Select) -> &[u8]
    ensures { result.now ≡ selected script.now entity select }
{
    match select {
        Select::Ids => b"ids",
        Select::Count => b"count",
        Select::Column(column) => column_name(script, entity, column),
    }
}

fn print_query(
    alloc: Global,
    printer: &mut Printer,
    script: &Script,
    query: &Query,
) -> Result<(), AllocError>
    ensures { OnOk result (AddsLines printer.old printer.new
        (query_line script.now query.now ∷ [])) }
{
    printer.words(b"query", query.name.as_slice())?;
    print_from(printer, script, query.cached, query.entity)?;
    print_where(alloc, printer, script, query.entity, &query.condition)?;
    print_order(printer, script, query.entity, query.order.as_slice())?;
    print_pages(alloc, printer, query.select, query.offset, query.limit)?;
    printer.words(b"select", selected_word(script, query.entity, query.select))?;
    printer.end_line()
}

/// Adds the lines of the queries.
pub fn print_queries(
    alloc: Global,
    printer: &mut Printer,
    script: &Script,
) -> Result<(), AllocError>
    ensures { OnOk result (AddsLines printer.old printer.new
        (map (λ q. query_line script.now q) script.now.queries)) }
{
    for query in script.queries.as_slice() {
        print_query(alloc, printer, script, query)?;
    }
    Ok(())
}
