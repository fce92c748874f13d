// Members, each with its name as a form wants it, appended to bytes. Of one that has no value a form with places keeps
// the place.
ghost use Rattle.std.specs.Prelude.{◌≡◌, ◌++◌, OnOk, Some, option_map, option_copied};
ghost use Rattle.hib_flat.specs.Forms.{piece, label, word_as};
ghost use Rattle.hib_flat.specs.Members.{word, boolean, numbered, named};
ghost use Rattle.hib_flat.specs.Lines.{in_quotes};
ghost use Rattle.hib_texts.specs.Texts.{bool_text, entity_text, query_text, session_text};

use crate::form::Form;
use hib_base::{EntityNo, QueryNo, Script, SessionNo};
use hib_texts::{entity_name, put_number, query_name, session_name};
use std::alloc::{AllocError, Global};

/// What stands before a value.
pub fn put_label(out: &mut Vec<u8>, form: Form, name: &[u8]) -> Result<(), AllocError>
    ensures { OnOk result (out.new.items ≡ out.old.items ++ label form name.now) }
{
    match form {
        Form::Json => {
            out.extend_from_slice(b",\"")?;
            out.extend_from_slice(name)?;
            out.extend_from_slice(b"\":")
        }
        Form::Csv => out.extend_from_slice(b","),
    }
}

/// A member that has no value.
pub fn put_none(out: &mut Vec<u8>, form: Form, name: &[u8]) -> Result<(), AllocError>
    ensures { OnOk result (out.new.items ≡ out.old.items ++ piece form (name.now, None)) }
{
    match form {
        Form::Json => Ok(()),
        Form::Csv => out.extend_from_slice(b","),
    }
}

/// A name between quotation marks.
pub fn put_quoted(out: &mut Vec<u8>, name: &[u8]) -> Result<(), AllocError>
    ensures { OnOk result (out.new.items ≡ out.old.items ++ in_quotes name.now) }
{
    out.extend_from_slice(b"\"")?;
    out.extend_from_slice(name)?;
    out.extend_from_slice(b"\"")
}

/// Adds a word as a value. A word has no byte that a form would have to escape.
fn put_word(out: &mut Vec<u8>, form: Form, text: &[u8]) -> Result<(), AllocError>
    ensures { OnOk result (out.new.items ≡ out.old.items ++ word_as form text.now) }
{
    match form {
        Form::Json => put_quoted(out, text),
        Form::Csv => out.extend_from_slice(text),
    }
}

/// True or false.
pub fn put_bool(out: &mut Vec<u8>, value: bool) -> Result<(), AllocError>
    ensures { OnOk result (out.new.items ≡ out.old.items ++ bool_text value) }
{
    if value {
        out.extend_from_slice(b"true")
    } else {
        out.extend_from_slice(b"false")
    }
}

/// A number.
pub fn put_number_member(
    alloc: Global,
    out: &mut Vec<u8>,
    form: Form,
    name: &[u8],
    value: Option<u64>,
) -> Result<(), AllocError>
    ensures { OnOk result (out.new.items ≡ out.old.items ++ piece form
        (name.now, numbered value)) }
{
    match value {
        None => put_none(out, form, name),
        Some(value) => {
            put_label(out, form, name)?;
            put_number(alloc, out, value)
        }
    }
}

/// A word.
pub fn put_word_member(
    out: &mut Vec<u8>,
    form: Form,
    name: &[u8],
    value: &[u8],
) -> Result<(), AllocError>
    ensures { OnOk result (out.new.items ≡ out.old.items ++ piece form
        (name.now, Some (word value.now))) }
{
    put_label(out, form, name)?;
    put_word(out, form, value)
}

/// A word that need not be there.
pub fn put_word_if(
    out: &mut Vec<u8>,
    form: Form,
    name: &[u8],
    value: Option<&[u8]>,
) -> Result<(), AllocError>
    ensures { OnOk result (out.new.items ≡ out.old.items ++ piece form
        (name.now, option_map word (option_copied value.entry))) }
{
    match value {
        None => put_none(out, form, name),
        Some(value) => put_word_member(out, form, name, value),
    }
}

/// True or false.
pub fn put_bool_member(
    out: &mut Vec<u8>,
    form: Form,
    name: &[u8],
    value: Option<bool>,
) -> Result<(), AllocError>
    ensures { OnOk result (out.new.items ≡ out.old.items ++ piece form
        (name.now, option_map boolean value)) }
{
    match value {
        None => put_none(out, form, name),
        Some(value) => {
            put_label(out, form, name)?;
            put_bool(out, value)
        }
    }
}

/// The name of an entity.
pub fn put_entity_member(
    out: &mut Vec<u8>,
    form: Form,
    script: &Script,
    name: &[u8],
    value: Option<EntityNo>,
) -> Result<(), AllocError>
    ensures { OnOk result (out.new.items ≡ out.old.items ++ piece form
        (name.now, named (entity_text script.now) value)) }
{
    match value {
        None => put_none(out, form, name),
        Some(value) => put_word_member(out, form, name, entity_name(script, value)),
    }
}

/// The name of a query.
pub fn put_query_member(
    out: &mut Vec<u8>,
    form: Form,
    script: &Script,
    name: &[u8],
    value: Option<QueryNo>,
) -> Result<(), AllocError>
    ensures { OnOk result (out.new.items ≡ out.old.items ++ piece form
        (name.now, named (query_text script.now) value)) }
{
    match value {
        None => put_none(out, form, name),
        Some(value) => put_word_member(out, form, name, query_name(script, value)),
    }
}

/// The name of a session.
pub fn put_session_member(
    out: &mut Vec<u8>,
    form: Form,
    script: &Script,
    name: &[u8],
    value: Option<SessionNo>,
) -> Result<(), AllocError>
    ensures { OnOk result (out.new.items ≡ out.old.items ++ piece form
        (name.now, named (session_text script.now) value)) }
{
    match value {
        None => put_none(out, form, name),
        Some(value) => put_word_member(out, form, name, session_name(script, value)),
    }
}
