// What a step of a session did, in every kind of run: whoever steps one goes on by it.

/// What a step of a session did.
#[derive(Clone, Copy, Debug, PartialEq, Eq)]
pub enum Stepped {
    /// One entry more.
    Did,
    /// The session is at its end.
    Done,
}
