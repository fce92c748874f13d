// What is wrong with the lists of a run that don't fit together; such a run is torn, and has no journal.
use hib_base::{EntityNo, Entry, Tick};

/// Lists or ticks that don't fit together.
#[derive(Drop)]
pub enum Torn {
    /// A session's list and its entries in the merged list differ at a place. None stands for the end of the one or of
    /// the other.
    Lists {
        /// The entry of the session's list.
        mine: Option<Entry>,
        /// The entry of the merged list.
        part: Option<Entry>,
    },
    /// A lock gave the region of another entity.
    Region {
        /// The entity that was asked for.
        asked: EntityNo,
        /// The entity of the region that was found.
        found: EntityNo,
    },
    /// An entry has another tick than the one that is due.
    Tick {
        /// The entry.
        entry: Entry,
        /// The tick that is due.
        due: Tick,
    },
}
