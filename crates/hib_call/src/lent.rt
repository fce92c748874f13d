// What a caller lends to a call, and has back after it.

/// What a caller lends to a run, and has back after it.
#[derive(Drop)]
pub struct Lent<K, L> {
    /// A keeper of rows.
    pub keeper: K,
    /// Those that hear of the entries.
    pub listeners: Vec<L>,
}
