// The columns that the words of a query or of a statement name, and what they may be compared with.
ghost use Rattle.hib_columns.specs.Columns as named;
ghost use Rattle.std.specs.Prelude.{◌≡◌};

use hib_base::{
    Cell, ColumnDef, ColumnType, EntityDef, EntityNo, Op, Path, Target, entity_columns,
};
use hib_lex::Token;
use hib_mapping::{column_place, has_type};

/// A column of an entity, by its place, with its type.
#[derive(Clone, Copy)]
pub struct Found {
    /// Its place among the columns of its entity, from 0.
    pub place: u16,
    /// The type of its cells.
    pub kind: ColumnType,
}

/// A column that is named, with its type.
#[derive(Clone, Copy)]
pub struct Column {
    /// How a row leads to its cell: in the row itself, or by a reference in a row of another entity.
    pub path: Path,
    /// The type of its cells.
    pub kind: ColumnType,
}

/// The columns of an entity; none if there is no such entity.
pub fn columns_of(mapping: &[EntityDef], entity: Option<EntityNo>) -> &[ColumnDef]
    ensures { result.now ≡ named.columns_of mapping.now entity }
{
    match entity {
        Some(entity) => entity_columns(mapping, entity),
        None => &[],
    }
}

/// The column of this name, if there is one.
pub fn plain_column(columns: &[ColumnDef], name: &[u8]) -> Option<Found>
    ensures { result ≡ named.plain_column columns.now name.now }
{
    match column_place(columns, name) {
        Some(place) => at_place(columns, place),
        None => None,
    }
}

/// The column at a place, with its type.
fn at_place(columns: &[ColumnDef], place: u16) -> Option<Found>
    ensures { result ≡ named.at_place columns.now place }
{
    match columns.get(usize::from(place)) {
        Some(column) => Some(Found {
            place,
            kind: column.kind,
        }),
        None => None,
    }
}

/// The place of a column; 0 if there is none. The line has a fault then, which is told elsewhere.
pub fn place_or_first(found: Option<Found>) -> u16
    ensures { result ≡ named.place_or_first found }
{
    match found {
        Some(found) => found.place,
        None => 0,
    }
}

/// The column that a word or a path names, if there is one: one of these columns, or by a reference one of its target.
pub fn named_column(mapping: &[EntityDef], columns: &[ColumnDef], token: &Token) -> Option<Column>
    ensures { result ≡ named.column_of mapping.now columns.now token.now }
{
    match token {
        Token::Word(name) => own(plain_column(columns, name.as_slice())),
        Token::Path(first, second) => through(
            mapping,
            plain_column(columns, first.as_slice()),
            second.as_slice(),
        ),
        _ => None,
    }
}

/// The path and the type of a column in the row itself.
fn own(found: Option<Found>) -> Option<Column>
    ensures { result ≡ named.own found }
{
    match found {
        Some(found) => Some(Column {
            path: Path {
                column: found.place,
                target: None,
            },
            kind: found.kind,
        }),
        None => None,
    }
}

/// The column of this name in the entity to which a reference leads.
fn through(mapping: &[EntityDef], reference: Option<Found>, name: &[u8]) -> Option<Column>
    ensures { result ≡ named.through mapping.now reference name.now }
{
    match reference {
        Some(reference) => through_type(mapping, reference.place, reference.kind, name),
        None => None,
    }
}

/// The column of this name in the entity to which a column of this type refers; none if it doesn't refer.
fn through_type(mapping: &[EntityDef], place: u16, kind: ColumnType, name: &[u8]) -> Option<Column>
    ensures { result ≡ named.through_type mapping.now place kind name.now }
{
    match kind {
        ColumnType::Ref(entity) => led_to(
            place,
            entity,
            plain_column(entity_columns(mapping, entity), name),
        ),
        _ => None,
    }
}

/// The path and the type of a column that is found by a reference.
fn led_to(place: u16, entity: EntityNo, found: Option<Found>) -> Option<Column>
    ensures { result ≡ named.led_to place entity found }
{
    match found {
        Some(found) => Some(Column {
            path: Path {
                column: place,
                target: Some(Target {
                    entity,
                    column: found.place,
                }),
            },
            kind: found.kind,
        }),
        None => None,
    }
}

/// Whether a token has the form of a path: a word, or two that a dot joins.
pub fn is_path(token: &Token) -> bool
    ensures { result ≡ named.is_path token.now }
{
    matches!(token, Token::Word(_) | Token::Path(_, _))
}

/// The path of a column; that of the first one if there is none. The line has a fault then, which is told elsewhere.
pub fn path_or_first(column: Option<Column>) -> Path
    ensures { result ≡ named.path_or_first column }
{
    match column {
        Some(column) => column.path,
        None => Path {
            column: 0,
            target: None,
        },
    }
}

/// Whether a cell has a column's type. If the column isn't known, any cell will do.
pub fn is_typed(column: &Option<Column>, cell: &Cell) -> bool
    ensures { result ≡ named.is_typed column.now cell.now }
{
    match column {
        Some(column) => has_type(column.kind, cell),
        None => true,
    }
}

/// Whether an operator may compare cells of a column: those of a bool have no order.
pub fn is_comparable(op: Op, column: &Option<Column>) -> bool
    ensures { result ≡ named.is_comparable op column.now }
{
    match column {
        Some(column) => !is_order(op) || !matches!(column.kind, ColumnType::Bool),
        None => true,
    }
}

/// Whether a comparison asks for an order.
fn is_order(op: Op) -> bool
    ensures { result ≡ named.is_order op }
{
    matches!(op, Op::Lt | Op::Le | Op::Gt | Op::Ge)
}
