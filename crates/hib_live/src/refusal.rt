// Why a statement isn't taken.

/// Why a statement isn't taken. Nothing has changed then.
#[derive(Clone, Copy, Debug, PartialEq, Eq)]
pub enum Refusal {
    /// There is no session of this number.
    NoSession,
    /// The session was killed, by a kill or by a restart.
    Killed,
    /// An earlier statement of the session has steps left.
    Busy,
    /// It is of an entity, a column or a query that isn't declared, or a cell isn't of its column's type.
    Unfit,
    /// Memory ran out.
    NoMemory,
    /// A listener had no memory for the newest entry, which stands: no call adds one more.
    Deaf,
}
