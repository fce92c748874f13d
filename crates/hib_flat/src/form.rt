// The two forms in which an entry is written.

/// JSON, or comma-separated values.
#[derive(Clone, Copy, Debug, PartialEq, Eq)]
pub enum Form {
    /// An object, which has a member for each value.
    Json,
    /// A place for each name, empty where there is no value.
    Csv,
}
