// Lines in either form, appended to bytes.
ghost use Rattle.std.specs.Prelude.{◌≡◌, ◌++◌, OnOk, codes, flat_map};
ghost use Rattle.hib_flat.specs.Columns.{columns};
ghost use Rattle.hib_flat.specs.Forms.{needed, line_as};
ghost use Rattle.hib_flat.specs.Lines.{flat_line, csv_line, header};

use crate::cells::{put_cells, put_csv_cells};
use crate::form::Form;
use crate::members::put_members;
use hib_base::{Entry, Script, Text};
use hib_texts::{put_labelled, put_number};
use std::alloc::{AllocError, Global};

/// The first names of a line, which are always there.
const NAMES: &[u8] =
    b"tick,session,part,act,reply,cause,killed,entity,id,version,expected,found,query,dropped,list,tables,table,stamp,time,floor,lock,until,released,stored,holders,evicted,late";

#[tactic(auto, unfolding(crate::specs::Lines::flat_line))]
fn put_flat_line(
    alloc: Global,
    out: &mut Vec<u8>,
    script: &Script,
    entry: &Entry,
) -> Result<(), AllocError>
    ensures { OnOk result (out.new.items ≡ out.old.items ++ flat_line script.now entry.now) }
{
    put_labelled(alloc, out, b"{\"tick\":", entry.tick.0)?;
    put_members(alloc, out, Form::Json, script, entry)?;
    put_cells(alloc, out, script, entry)?;
    out.extend_from_slice(b"}")
}

#[tactic(auto, unfolding(crate::specs::Lines::csv_line))]
fn put_csv_line(
    alloc: Global,
    out: &mut Vec<u8>,
    script: &Script,
    names: &[Text],
    entry: &Entry,
) -> Result<(), AllocError>
    requires { names.now ≡ columns script.now }
    ensures { OnOk result (out.new.items ≡ out.old.items ++ csv_line script.now entry.now) }
{
    put_number(alloc, out, entry.tick.0)?;
    put_members(alloc, out, Form::Csv, script, entry)?;
    put_csv_cells(alloc, out, script, names, entry)
}

/// The line of an entry, with its line feed.
pub fn put_line(
    alloc: Global,
    out: &mut Vec<u8>,
    form: Form,
    script: &Script,
    names: &[Text],
    entry: &Entry,
) -> Result<(), AllocError>
    requires { names.now ≡ needed form script.now }
    ensures { OnOk result (out.new.items
        ≡ out.old.items ++ (line_as form script.now entry.now ++ codes "\n")) }
{
    match form {
        Form::Json => put_flat_line(alloc, out, script, entry)?,
        Form::Csv => put_csv_line(alloc, out, script, names, entry)?,
    }
    out.extend_from_slice(b"\n")
}

fn put_cell_names(out: &mut Vec<u8>, names: &[Text]) -> Result<(), AllocError>
    ensures { OnOk result (out.new.items
        ≡ out.old.items ++ flat_map (λ name. codes ",cell_" ++ name) names.now) }
{
    for name in names {
        out.extend_from_slice(b",cell_")?;
        out.extend_from_slice(name.as_slice())?;
    }
    Ok(())
}

/// The line of names, with its line feed.
pub fn put_header(out: &mut Vec<u8>, script: &Script, names: &[Text]) -> Result<(), AllocError>
    requires { names.now ≡ columns script.now }
    ensures { OnOk result (out.new.items
        ≡ out.old.items ++ (header script.now ++ codes "\n")) }
{
    out.extend_from_slice(NAMES)?;
    put_cell_names(out, names)?;
    out.extend_from_slice(b"\n")?;
    Ok(())
}
