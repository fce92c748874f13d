// Lists and cells as values.
ghost use Rattle.std.specs.Prelude.{◌≡◌, ◌++◌, OnOk, codes, flat_map, map, option_map, option_copied};
ghost use Rattle.std.specs.List.{join_by};
ghost use Rattle.hib_flat.specs.Forms.{piece, array_as};
ghost use Rattle.hib_flat.specs.Members.{words, list};
ghost use Rattle.hib_flat.specs.Lines.{in_quotes, words_text, list_text, doubled, csv_quoted, csv_cell};
ghost use Rattle.hib_texts.specs.Texts.{cell_text, entity_text};

use crate::form::Form;
use crate::values::{put_bool, put_label, put_none, put_quoted};
use hib_base::{Cell, EntityNo, Listing, Names, Script};
use hib_texts::{entity_name, put_signed, put_text};
use std::alloc::{AllocError, Global};

/// A cell in JSON.
pub fn put_cell(alloc: Global, out: &mut Vec<u8>, cell: &Cell) -> Result<(), AllocError>
    ensures { OnOk result (out.new.items ≡ out.old.items ++ cell_text cell.now) }
{
    match cell {
        Cell::Int(n) => put_signed(alloc, out, *n),
        Cell::Text(t) => put_text(out, t.as_slice()),
        Cell::Bool(b) => put_bool(out, *b),
    }
}

/// A text between quotation marks, in which each mark stands twice.
fn put_csv_quoted(out: &mut Vec<u8>, bytes: &[u8]) -> Result<(), AllocError>
    ensures { OnOk result (out.new.items ≡ out.old.items ++ csv_quoted bytes.now) }
{
    out.push(b'"')?;
    for b in bytes {
        if *b == b'"' {
            out.push(b'"')?;
        }
        out.push(*b)?;
    }
    out.push(b'"')?;
    Ok(())
}

/// A cell among comma-separated values.
pub fn put_csv_cell(alloc: Global, out: &mut Vec<u8>, cell: &Cell) -> Result<(), AllocError>
    ensures { OnOk result (out.new.items ≡ out.old.items ++ csv_cell cell.now) }
{
    match cell {
        Cell::Int(n) => put_signed(alloc, out, *n),
        Cell::Text(t) => put_csv_quoted(out, t.as_slice()),
        Cell::Bool(b) => put_bool(out, *b),
    }
}

// Each cell after a comma.
fn put_more_cells(alloc: Global, out: &mut Vec<u8>, cells: &[Cell]) -> Result<(), AllocError>
    ensures { OnOk result (out.new.items
        ≡ out.old.items ++ flat_map (λ c. codes "," ++ cell_text c) cells.now) }
{
    for cell in cells {
        out.push(b',')?;
        put_cell(alloc, out, cell)?;
    }
    Ok(())
}

fn put_joined_cells(alloc: Global, out: &mut Vec<u8>, cells: &[Cell]) -> Result<(), AllocError>
    ensures { OnOk result (out.new.items
        ≡ out.old.items ++ join_by cell_text (codes ",") cells.now) }
{
    match cells.split_first() {
        None => Ok(()),
        Some((first, rest)) => {
            put_cell(alloc, out, first)?;
            put_more_cells(alloc, out, rest)
        }
    }
}

fn put_list(alloc: Global, out: &mut Vec<u8>, cells: &[Cell]) -> Result<(), AllocError>
    ensures { OnOk result (out.new.items ≡ out.old.items ++ list_text cells.now) }
{
    out.extend_from_slice(b"[")?;
    put_joined_cells(alloc, out, cells)?;
    out.extend_from_slice(b"]")
}

// Each name after a comma.
fn put_more_names(out: &mut Vec<u8>, script: &Script, names: &[EntityNo]) -> Result<(), AllocError>
    ensures { OnOk result (out.new.items
        ≡ out.old.items ++ flat_map (λ n. codes "," ++ in_quotes (entity_text script.now n))
        names.now) }
{
    for name in names {
        out.push(b',')?;
        put_quoted(out, entity_name(script, *name))?;
    }
    Ok(())
}

fn put_joined_names(
    out: &mut Vec<u8>,
    script: &Script,
    names: &[EntityNo],
) -> Result<(), AllocError>
    ensures { OnOk result (out.new.items
        ≡ out.old.items ++ join_by in_quotes (codes ",") (map (entity_text script.now)
        names.now)) }
{
    match names.split_first() {
        None => Ok(()),
        Some((first, rest)) => {
            put_quoted(out, entity_name(script, *first))?;
            put_more_names(out, script, rest)?;
            Ok(())
        }
    }
}

fn put_names(out: &mut Vec<u8>, script: &Script, names: &[EntityNo]) -> Result<(), AllocError>
    ensures { OnOk result (out.new.items
        ≡ out.old.items ++ words_text (map (entity_text script.now) names.now)) }
{
    out.extend_from_slice(b"[")?;
    put_joined_names(out, script, names)?;
    out.extend_from_slice(b"]")
}

// JSON's array as a value.
fn put_array(out: &mut Vec<u8>, form: Form, text: &[u8]) -> Result<(), AllocError>
    ensures { OnOk result (out.new.items ≡ out.old.items ++ array_as form text.now) }
{
    match form {
        Form::Json => out.extend_from_slice(text),
        Form::Csv => put_csv_quoted(out, text),
    }
}

/// What a query gave.
pub fn put_list_member(
    alloc: Global,
    out: &mut Vec<u8>,
    form: Form,
    name: &[u8],
    value: Option<&Listing>,
) -> Result<(), AllocError>
    ensures { OnOk result (out.new.items ≡ out.old.items ++ piece form
        (name.now, option_map list (option_copied value.entry))) }
{
    match value {
        None => put_none(out, form, name),
        Some(value) => {
            let mut text = Vec::new(alloc);
            put_list(alloc, &mut text, value.as_slice())?;
            put_label(out, form, name)?;
            put_array(out, form, text.as_slice())
        }
    }
}

/// The names of entities.
pub fn put_names_member(
    alloc: Global,
    out: &mut Vec<u8>,
    form: Form,
    script: &Script,
    name: &[u8],
    value: Option<&Names>,
) -> Result<(), AllocError>
    ensures { OnOk result (out.new.items ≡ out.old.items ++ piece form (
      name.now,
      option_map
          (λ ts. words (map (entity_text script.now) ts)) (option_copied value.entry),
    )) }
{
    match value {
        None => put_none(out, form, name),
        Some(value) => {
            let mut text = Vec::new(alloc);
            put_names(&mut text, script, value.as_slice())?;
            put_label(out, form, name)?;
            put_array(out, form, text.as_slice())
        }
    }
}
