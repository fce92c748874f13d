// Why a text is no script, no section or no journal: what may be wrong with a line, and the first line with a fault.
ghost use Rattle.std.specs.Prelude.{◌≡◌};
ghost use Rattle.hib_base.specs.Kinds.{kind_word};

/// What is wrong with a line.
#[derive(Clone, Copy, Debug, PartialEq, Eq)]
pub enum Kind {
    /// A byte that isn't printable.
    Byte,
    /// More than 4,096 bytes.
    Long,
    /// A part of the line is no token.
    Token,
    /// The first line isn't `hib 1`.
    Header,
    /// The first word can't begin a line at this place.
    Line,
    /// The tokens haven't the form of the line.
    Words,
    /// One more entity than there may be.
    ManyEntities,
    /// One more column than an entity may have.
    ManyColumns,
    /// An entity of this name was declared before.
    EntityTaken,
    /// The entity has a column of this name.
    ColumnTaken,
    /// The strategy is none of the four words.
    Strategy,
    /// The capacity is out of its range.
    Capacity,
    /// The type is none of the four words.
    ColumnType,
    /// The entity that is referred to isn't declared yet.
    RefUnknown,
    /// A default isn't of its column's type, or a column without one stands after a column that has one.
    Default,
    /// An entity without a column.
    NoColumns,
    /// A declared name is a reserved word.
    Reserved,
    /// What is declared is there already.
    Taken,
    /// What is named isn't known.
    Unknown,
    /// A number is out of its range.
    Number,
    /// The number of cells isn't the number of columns.
    Cells,
    /// A cell's type isn't its column's, or an order is asked of a bool.
    CellType,
    /// A condition is nested too deeply, or lists too many cells.
    Depth,
    /// One more than the limit.
    Many,
    /// A session whose last statement doesn't end its transaction.
    Last,
    /// The input ends inside a session or a schedule.
    NoEnd,
    /// No journal follows, or a line of it is no entry.
    Journal,
    /// The line after which a section begins is missing.
    Section,
    /// The schedule has an order that can't be given here, or stands where there can be none.
    Order,
    /// The entity's rows have no versions.
    Plain,
    /// A query whose results are kept.
    Cached,
}

impl Kind {
    /// The word that names the kind, as it is printed.
    pub fn word(self) -> &'static [u8]
        ensures { result.now ≡ kind_word self }
    {
        match self {
            Kind::Byte => b"byte",
            Kind::Long => b"long",
            Kind::Token => b"token",
            Kind::Header => b"header",
            Kind::Line => b"line",
            Kind::Words => b"words",
            Kind::ManyEntities => b"many-entities",
            Kind::ManyColumns => b"many-columns",
            Kind::EntityTaken => b"entity-taken",
            Kind::ColumnTaken => b"column-taken",
            Kind::Strategy => b"strategy",
            Kind::Capacity => b"capacity",
            Kind::ColumnType => b"column-type",
            Kind::RefUnknown => b"ref-unknown",
            Kind::Default => b"default",
            Kind::NoColumns => b"no-columns",
            Kind::Reserved => b"reserved",
            Kind::Taken => b"taken",
            Kind::Unknown => b"unknown",
            Kind::Number => b"number",
            Kind::Cells => b"cells",
            Kind::CellType => b"type",
            Kind::Depth => b"depth",
            Kind::Many => b"many",
            Kind::Last => b"last",
            Kind::NoEnd => b"no-end",
            Kind::Journal => b"journal",
            Kind::Section => b"section",
            Kind::Order => b"order",
            Kind::Plain => b"plain",
            Kind::Cached => b"cached",
        }
    }
}

/// The first line at which a text is no script.
#[derive(Clone, Copy, Debug, PartialEq, Eq)]
pub struct Refused {
    /// The line's number, from 1.
    pub line: u32,
    /// What is wrong with it.
    pub kind: Kind,
}
