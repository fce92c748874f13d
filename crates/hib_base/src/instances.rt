// What a session holds of a row: an instance.
use crate::rows::Row;

/// What is to become of an instance.
#[derive(Clone, Copy, Debug, PartialEq, Eq)]
pub enum State {
    /// It was made by the session, and isn't written yet.
    New,
    /// It stands for a row that was read or written.
    Managed,
    /// It is marked for deletion.
    Removed,
}

/// An instance of a row in a session's identity map.
#[derive(Drop)]
pub struct Held {
    /// What is to become of it.
    pub state: State,
    /// The row that was read or written last; none for a new instance.
    pub base: Option<Row>,
    /// The row as the session sees it.
    pub row: Row,
}
