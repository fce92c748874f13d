// The first rows of a made script. `push_...` adds a row, or a number of rows of a form; `place` is its number, from 1.
ghost use Rattle.std.specs.Prelude.{◌≡◌, ◌++◌, IfOk, OnOk};
ghost use Rattle.hib_make.specs.Draws.{many};
ghost use Rattle.hib_make.specs.Rows.{key, numbered, row, number, truth, author_row, book_row, customer_row, shelf_row, form_row, made_rows};

use crate::draws::Draws;
use crate::entities::{AUTHOR, BOOK, CUSTOMER, SHELF};
use hib_base::{Cell, Cells, EntityNo, Key, Row, Rows, Seq, Text};
use std::alloc::{AllocError, Global};

/// The form of a row: that of its entity.
#[derive(Clone, Copy, Debug, PartialEq, Eq)]
pub enum Form {
    /// A name.
    Author,
    /// A title, an author, a stock and a price.
    Book,
    /// A name and a credit.
    Customer,
    /// A label, and whether it is full.
    Shelf,
}

/// A name of a word and a number.
pub fn numbered(alloc: Global, word: &[u8], number: u32) -> Result<Text, AllocError>
    ensures { IfOk result (λ t. t ≡ numbered word.now number) }
{
    let mut text = word.to_vec(alloc)?;
    let digits = number.to_string(alloc)?;
    text.extend_from_slice(digits.as_bytes())?;
    Ok(Seq::from_vec(text))
}

/// The key of a row of an entity.
pub fn key(entity: EntityNo, id: u32) -> Key
    ensures { result ≡ key entity id }
{
    Key {
        entity,
        id: u64::from(id),
    }
}

/// The cell of a number.
pub fn number(n: u32) -> Cell
    ensures { result ≡ number n }
{
    Cell::Int(i64::from(n))
}

/// The cell for a draw of two numbers: true if it was the second.
pub fn truth(answer: u32) -> Cell
    ensures { result ≡ truth answer }
{
    Cell::Bool(answer == 1)
}

fn row(
    entity: EntityNo,
    id: u32,
    version: Option<u32>,
    cells: Vec<Cell>,
) -> Result<(Key, Row), AllocError>
    ensures { IfOk result (λ r. r ≡ row entity id version cells.items) }
{
    let row = Row {
        version,
        cells: Cells::from_vec(cells)?,
    };
    Ok((key(entity, id), row))
}

fn push_author(
    alloc: Global,
    place: u32,
    draws: &mut Draws,
    rows: &mut Vec<(Key, Row)>,
) -> Result<(), AllocError>
    ensures made { OnOk result (rows.new.items
        ≡ rows.old.items ++ (author_row place draws.old).made) }
    ensures state { OnOk result (draws.new ≡ (author_row place draws.old).state) }
{
    let name = numbered(alloc, b"author ", place)?;
    let cells = vec![in alloc; Cell::Text(name)]?;
    rows.push(row(AUTHOR, place, None, cells)?)?;
    Ok(())
}

fn push_book(
    alloc: Global,
    place: u32,
    draws: &mut Draws,
    rows: &mut Vec<(Key, Row)>,
) -> Result<(), AllocError>
    ensures made { OnOk result (rows.new.items
        ≡ rows.old.items ++ (book_row place draws.old).made) }
    ensures state { OnOk result (draws.new ≡ (book_row place draws.old).state) }
{
    let title = numbered(alloc, b"book ", place)?;
    let author = draws.draw(10);
    let stock = draws.draw(50);
    let price = draws.draw(900);
    let cells = vec![in alloc;
        Cell::Text(title),
        number(1 + author),
        number(stock),
        number(100 + price),
    ]?;
    rows.push(row(BOOK, place, Some(0), cells)?)?;
    Ok(())
}

fn push_customer(
    alloc: Global,
    place: u32,
    draws: &mut Draws,
    rows: &mut Vec<(Key, Row)>,
) -> Result<(), AllocError>
    ensures made { OnOk result (rows.new.items
        ≡ rows.old.items ++ (customer_row place draws.old).made) }
    ensures state { OnOk result (draws.new ≡ (customer_row place draws.old).state) }
{
    let name = numbered(alloc, b"customer ", place)?;
    let credit = draws.draw(1000);
    let cells = vec![in alloc; Cell::Text(name), number(1000 + credit)]?;
    rows.push(row(CUSTOMER, place, Some(0), cells)?)?;
    Ok(())
}

fn push_shelf(
    alloc: Global,
    place: u32,
    draws: &mut Draws,
    rows: &mut Vec<(Key, Row)>,
) -> Result<(), AllocError>
    ensures made { OnOk result (rows.new.items
        ≡ rows.old.items ++ (shelf_row place draws.old).made) }
    ensures state { OnOk result (draws.new ≡ (shelf_row place draws.old).state) }
{
    let label = numbered(alloc, b"shelf ", place)?;
    let full = draws.draw(2);
    let cells = vec![in alloc; Cell::Text(label), truth(full)]?;
    rows.push(row(SHELF, place, None, cells)?)?;
    Ok(())
}

/// Adds a row of a form.
fn push_row(
    alloc: Global,
    form: Form,
    place: u32,
    draws: &mut Draws,
    rows: &mut Vec<(Key, Row)>,
) -> Result<(), AllocError>
    ensures made { OnOk result (rows.new.items
        ≡ rows.old.items ++ (form_row form place draws.old).made) }
    ensures state { OnOk result (draws.new ≡ (form_row form place draws.old).state) }
{
    match form {
        Form::Author => push_author(alloc, place, draws, rows),
        Form::Book => push_book(alloc, place, draws, rows),
        Form::Customer => push_customer(alloc, place, draws, rows),
        Form::Shelf => push_shelf(alloc, place, draws, rows),
    }
}

/// Adds this number of rows of a form.
fn push_rows(
    alloc: Global,
    form: Form,
    count: u32,
    draws: &mut Draws,
    rows: &mut Vec<(Key, Row)>,
) -> Result<(), AllocError>
    ensures made { OnOk result (rows.new.items
        ≡ rows.old.items ++ (many (form_row form) count draws.old).made) }
    ensures state { OnOk result (draws.new ≡ (many (form_row form) count draws.old).state) }
{
    for i in 0..count {
        push_row(alloc, form, i + 1, draws, rows)?;
    }
    Ok(())
}

/// The rows. Their cells are drawn.
#[tactic(auto, unfolding(crate::specs::Rows::made_rows))]
pub fn rows(alloc: Global, draws: &mut Draws) -> Result<Rows, AllocError>
    ensures made { IfOk result (λ r. r ≡ (made_rows draws.old).made) }
    ensures state { OnOk result (draws.new ≡ (made_rows draws.old).state) }
{
    let mut rows = Vec::with_capacity(alloc, 112)?;
    push_rows(alloc, Form::Author, 10, draws, &mut rows)?;
    push_rows(alloc, Form::Book, 60, draws, &mut rows)?;
    push_rows(alloc, Form::Customer, 30, draws, &mut rows)?;
    push_rows(alloc, Form::Shelf, 12, draws, &mut rows)?;
    Ok(Seq::from_vec(rows))
}
