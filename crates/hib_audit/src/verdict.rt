// What an audit says of a journal.
use crate::points::AuditKind;

/// What an audit says of a journal.
#[derive(Clone, Copy, Debug, PartialEq, Eq)]
pub enum Audit {
    /// It is legal.
    Legal,
    /// It isn't.
    Illegal {
        /// The first entry that isn't legal over those before it, numbered from 1.
        entry: u32,
        /// The first point that it breaks.
        kind: AuditKind,
    },
}
