// What a region answers that bulk lines may lock as a whole.
use hib_base::{Got, Inserted, Put, Tick};

/// A region's answer to a reader.
pub enum BulkGot<'a> {
    /// Lines hold the region.
    Wide {
        /// How many hold it.
        holders: u64,
    },
    /// The answer that the key's entry gives.
    Plain(Got<'a>),
}

/// A region's answer to a row that was loaded.
#[derive(Clone, Copy, Debug, PartialEq, Eq)]
pub enum BulkPut {
    /// Lines hold the region.
    Wide {
        /// How many hold it.
        holders: u64,
    },
    /// The row may have been read before the region was given back.
    WideEarly {
        /// When the region was last given back.
        unlock: Tick,
    },
    /// The answer that the key's entry gives.
    Plain(Put),
}

/// A region's answer to a row whose insert was committed.
#[derive(Clone, Copy, Debug, PartialEq, Eq)]
pub enum BulkInserted {
    /// Lines hold the region.
    Wide {
        /// How many hold it.
        holders: u64,
    },
    /// The session began before the region was given back.
    WideEarly {
        /// When the region was last given back.
        unlock: Tick,
    },
    /// The answer that the key's entry gives.
    Plain(Inserted),
}
