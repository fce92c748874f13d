// What a call of the program hands back of what it ran.
use crate::audit::Judged;
use crate::telling::Played;
use hib_base::Script;
use hib_section_calls::{BulkRun, Collected, NodeRun};

/// What was run, by the kind of command.
#[derive(Drop)]
pub enum AnyRun {
    /// A script, by `play`, `work` or `make`.
    Played(Played),
    /// Nothing: `make --text` wrote this script.
    Printed(Script),
    /// Nothing: `audit` judged a journal.
    Judged(Judged),
    /// A script with collections.
    Collected(Collected),
    /// A script with bulk changes.
    Bulked(BulkRun),
    /// A script at two nodes.
    Noded(NodeRun),
}
