// The entities of a made script: each strategy has one at least.
ghost use Rattle.std.specs.Prelude.{◌≡◌, IfOk};
ghost use Rattle.hib_make.specs.Entities.{author, book, customer, order, shelf, column, entity, author_entity, book_entity, customer_entity, order_entity, shelf_entity, note_entity, made_mapping};

use hib_base::{ColumnDef, ColumnType, EntityDef, EntityNo, Mapping, Seq, Strategy};
use std::alloc::{AllocError, Global};

/// The entity `Author`.
pub const AUTHOR: EntityNo = EntityNo(0);

/// The entity `Book`.
pub const BOOK: EntityNo = EntityNo(1);

/// The entity `Customer`.
pub const CUSTOMER: EntityNo = EntityNo(2);

/// The entity `Order`.
pub const ORDER: EntityNo = EntityNo(3);

/// The entity `Shelf`.
pub const SHELF: EntityNo = EntityNo(4);

fn column(alloc: Global, name: &[u8], kind: ColumnType) -> Result<ColumnDef, AllocError>
    ensures { IfOk result (λ c. c ≡ column name.now kind) }
{
    Ok(ColumnDef {
        name: Seq::from_vec(name.to_vec(alloc)?),
        kind,
        default: None,
    })
}

fn entity(
    alloc: Global,
    name: &[u8],
    strategy: Strategy,
    versioned: bool,
    capacity: u32,
    columns: Vec<ColumnDef>,
) -> Result<EntityDef, AllocError>
    ensures { IfOk result (λ e. e ≡ entity name.now strategy versioned capacity columns.items) }
{
    Ok(EntityDef {
        name: Seq::from_vec(name.to_vec(alloc)?),
        strategy,
        versioned,
        capacity,
        columns: Seq::from_vec(columns),
    })
}

fn author_entity(alloc: Global) -> Result<EntityDef, AllocError>
    ensures { IfOk result (λ e. e ≡ author_entity) }
{
    let columns = vec![in alloc; column(alloc, b"name", ColumnType::Text)?]?;
    entity(alloc, b"Author", Strategy::ReadOnly, false, 50, columns)
}

fn book_entity(alloc: Global) -> Result<EntityDef, AllocError>
    ensures { IfOk result (λ e. e ≡ book_entity) }
{
    let title = column(alloc, b"title", ColumnType::Text)?;
    let author = column(alloc, b"author", ColumnType::Ref(AUTHOR))?;
    let stock = column(alloc, b"stock", ColumnType::Int)?;
    let price = column(alloc, b"price", ColumnType::Int)?;
    let columns = vec![in alloc; title, author, stock, price]?;
    entity(alloc, b"Book", Strategy::ReadWrite, true, 40, columns)
}

fn customer_entity(alloc: Global) -> Result<EntityDef, AllocError>
    ensures { IfOk result (λ e. e ≡ customer_entity) }
{
    let name = column(alloc, b"name", ColumnType::Text)?;
    let credit = column(alloc, b"credit", ColumnType::Int)?;
    let columns = vec![in alloc; name, credit]?;
    entity(alloc, b"Customer", Strategy::ReadWrite, true, 50, columns)
}

fn order_entity(alloc: Global) -> Result<EntityDef, AllocError>
    ensures { IfOk result (λ e. e ≡ order_entity) }
{
    let customer = column(alloc, b"customer", ColumnType::Ref(CUSTOMER))?;
    let book = column(alloc, b"book", ColumnType::Ref(BOOK))?;
    let amount = column(alloc, b"amount", ColumnType::Int)?;
    let columns = vec![in alloc; customer, book, amount]?;
    entity(alloc, b"Order", Strategy::Nonstrict, false, 50, columns)
}

fn shelf_entity(alloc: Global) -> Result<EntityDef, AllocError>
    ensures { IfOk result (λ e. e ≡ shelf_entity) }
{
    let label = column(alloc, b"label", ColumnType::Text)?;
    let full = column(alloc, b"full", ColumnType::Bool)?;
    let columns = vec![in alloc; label, full]?;
    entity(alloc, b"Shelf", Strategy::ReadWrite, false, 10, columns)
}

fn note_entity(alloc: Global) -> Result<EntityDef, AllocError>
    ensures { IfOk result (λ e. e ≡ note_entity) }
{
    let columns = vec![in alloc; column(alloc, b"note", ColumnType::Text)?]?;
    entity(alloc, b"Note", Strategy::Uncached, false, 0, columns)
}

/// The mapping of each made script: its six entities. Fails for want of memory alone.
pub fn mapping(alloc: Global) -> Result<Mapping, AllocError>
    ensures { IfOk result (λ m. m ≡ made_mapping) }
{
    let author = author_entity(alloc)?;
    let book = book_entity(alloc)?;
    let customer = customer_entity(alloc)?;
    let order = order_entity(alloc)?;
    let shelf = shelf_entity(alloc)?;
    let note = note_entity(alloc)?;
    let entities = vec![in alloc; author, book, customer, order, shelf, note]?;
    Ok(Seq::from_vec(entities))
}
