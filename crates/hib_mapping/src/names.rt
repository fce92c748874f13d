// What names stand for: the number of an entity, the place of a column; and which words may be no names.
ghost use Rattle.hib_mapping.specs.Parts as parts;
ghost use Rattle.std.specs.Prelude.{◌≡◌, bytes_eq, position};

use hib_base::{ColumnDef, EntityDef, EntityNo};

fn is(text: &[u8], word: &[u8]) -> bool
    ensures { result ≡ bytes_eq text.now word.now }
{
    text == word
}

/// Whether a word may not be declared as a name.
pub fn is_reserved(word: &[u8]) -> bool
    ensures { result ≡ parts.is_reserved word.now }
{
    is(word, b"cached")
        || is(word, b"from")
        || is(word, b"where")
        || is(word, b"order")
        || is(word, b"desc")
        || is(word, b"offset")
        || is(word, b"limit")
        || is(word, b"select")
        || is(word, b"ids")
        || is(word, b"count")
        || is(word, b"true")
        || is(word, b"false")
        || is(word, b"none")
        || is(word, b"default")
}

/// The entity of this name, if there is one.
pub fn entity_number(mapping: &[EntityDef], name: &[u8]) -> Option<EntityNo>
    ensures { result ≡ parts.entity_at mapping.now name.now }
{
    entity_no(entity_position(mapping, name)?)
}

/// The entity at a place of the mapping, if the place is small enough.
pub fn entity_no(place: usize) -> Option<EntityNo>
    ensures { result ≡ parts.small place }
{
    Some(EntityNo(small(place)?))
}

fn entity_position(mapping: &[EntityDef], name: &[u8]) -> Option<usize>
    ensures { result ≡ position (λ e. bytes_eq e.name name.now) mapping.now }
{
    mapping
        .iter()
        .position(|entity| entity.name.as_slice() == name)
}

/// The place of the column of this name, if there is one.
pub fn column_place(columns: &[ColumnDef], name: &[u8]) -> Option<u16>
    ensures { result ≡ parts.column_at columns.now name.now }
{
    small(column_position(columns, name)?)
}

fn column_position(columns: &[ColumnDef], name: &[u8]) -> Option<usize>
    ensures { result ≡ position (λ d. bytes_eq d.name name.now) columns.now }
{
    columns
        .iter()
        .position(|column| column.name.as_slice() == name)
}

/// A place as a number of 16 bits, if it is one.
pub fn small(place: usize) -> Option<u16>
    ensures { result ≡ parts.small place }
{
    if place < 65536 {
        Some(place as u16)
    } else {
        None
    }
}
