// The names of the columns of all entities, each once: they head the cells among comma-separated values.
ghost use Rattle.std.specs.Prelude.{◌≡◌, OnOk, IfOk};
ghost use Rattle.hib_base.specs.Words as words;
ghost use Rattle.hib_flat.specs.Columns.{with_name, with_columns, columns};

use hib_base::{ColumnDef, Script, Seq, Text};
use std::alloc::{AllocError, Global};

fn has_name(names: &[Text], name: &[u8]) -> bool
    ensures { result ≡ words.has_name names.now name.now }
{
    names.iter().any(|other| other.as_slice() == name)
}

fn add_name(alloc: Global, names: &mut Vec<Text>, name: &[u8]) -> Result<(), AllocError>
    ensures { OnOk result (names.new.items ≡ with_name names.old.items name.now) }
{
    if !has_name(names.as_slice(), name) {
        names.push(Seq::from_vec(name.to_vec(alloc)?))?;
    }
    Ok(())
}

fn add_columns(
    alloc: Global,
    names: &mut Vec<Text>,
    columns: &[ColumnDef],
) -> Result<(), AllocError>
    ensures { OnOk result (names.new.items ≡ with_columns names.old.items columns.now) }
{
    for column in columns {
        add_name(alloc, names, column.name.as_slice())?;
    }
    Ok(())
}

/// The names of the columns of all entities, in the order in which they come first. Fails for want of memory alone.
pub fn column_names(alloc: Global, script: &Script) -> Result<Vec<Text>, AllocError>
    ensures { IfOk result (λ names. names.items ≡ columns script.now) }
{
    let mut names = Vec::new(alloc);
    for entity in script.mapping.as_slice() {
        add_columns(alloc, &mut names, entity.columns.as_slice())?;
    }
    Ok(names)
}
