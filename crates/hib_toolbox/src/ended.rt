// How a call of the tools ended.
use hib_call::{Lent, Status};

/// What is said of a call beside how it ended.
#[derive(Clone, Copy, Debug, PartialEq, Eq)]
pub enum Said {
    /// Nothing.
    Nothing,
    /// An order ends badly.
    Found,
    /// The finding that is asked for isn't there.
    Missing,
    /// No schedule repeats the journal: the entry at this place, from 0, is no session's own step, and no kill.
    Foreign(usize),
    /// The script with the schedule would be none: the schedule would have more than 20,000 lines, or a line of more than
    /// 1,000,000 steps, or the text of the script would have a line of more than 4,096 bytes, or more than 1,048,576 in
    /// all.
    Long,
}

/// How a call of the tools ended.
#[derive(Drop)]
pub struct Ended<K, L> {
    /// How the call ended, as one of the program does.
    pub status: Status,
    /// What is said beside that. Nothing unless the call is done.
    pub said: Said,
    /// What was lent.
    pub lent: Lent<K, L>,
}
