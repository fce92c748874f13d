// Which entry of a session answers its statement, and what it says.
ghost use Rattle.hib_live_shared.specs.Answers.{answers, is_for_row, row_in, row_told, is_for_list, list_in, list_told, outcome_in, is_new, is_set, is_removed};
ghost use Rattle.std.specs.Prelude.{◌≡◌, IfOk};

use hib_base::{Act, Commit, Entry, Key, Listing, QueryNo, Reply, Row};
use hib_live::Refusal;
use std::alloc::{AllocError, Global};

/// Why a call of a session wasn't answered.
#[derive(Clone, Copy, Debug, PartialEq, Eq)]
pub enum Unanswered {
    /// The factory refused the statement, or a step of it.
    Refused(Refusal),
    /// The store failed. The statement is over, and the session goes on.
    Fault,
}

impl From<Refusal> for Unanswered {
    fn from(refusal: Refusal) -> Self {
        Unanswered::Refused(refusal)
    }
}

/// Whether a session's reply is the answer to its statement: a find is answered by the session's own change, by its hit or
/// by its load; a list by the result that was looked up, or by the query if that is outdated.
pub fn answers(reply: &Reply) -> bool
    ensures { result ≡ answers reply.now }
{
    match reply {
        Reply::Row(_) => true,
        Reply::Hit(_) => true,
        Reply::New => true,
        Reply::Known => true,
        Reply::Set => true,
        Reply::Unknown => true,
        Reply::ReadOnly => true,
        Reply::Removed => true,
        Reply::Cleared => true,
        Reply::Listed(_) => true,
        Reply::Found { time: _, list: _ } => true,
        Reply::Commit(_) => true,
        Reply::Done => true,
        Reply::Fault => true,
        _ => false,
    }
}

/// Whether an act asks for the row of a key.
fn is_for_row(key: Key, act: &Act) -> bool
    ensures { result ≡ is_for_row key act.now }
{
    match act {
        Act::Find { key: other } => *other == key,
        Act::Get {
            key: other,
            time: _,
        } => *other == key,
        Act::Load { key: other } => *other == key,
        _ => false,
    }
}

/// The row in a reply, or that there is none; nothing of a reply that tells of no row.
fn row_in(alloc: Global, reply: &Reply) -> Result<Option<Option<Row>>, AllocError>
    ensures { IfOk result (λ o. o ≡ row_in reply.now) }
{
    match reply {
        Reply::Hit(row) => Ok(Some(Some(row.copy(alloc)?))),
        Reply::Row(Some(row)) => Ok(Some(Some(row.copy(alloc)?))),
        Reply::Row(None) => Ok(Some(None)),
        _ => Ok(None),
    }
}

/// The row that an entry gives of a key, or that there is none; nothing of another entry. Fails for want of memory alone.
pub fn row_told(alloc: Global, key: Key, entry: &Entry) -> Result<Option<Option<Row>>, AllocError>
    ensures { IfOk result (λ o. o ≡ row_told key entry.now) }
{
    if is_for_row(key, &entry.act) {
        row_in(alloc, &entry.reply)
    } else {
        Ok(None)
    }
}

/// Whether an act asks for what a query gives.
fn is_for_list(query: QueryNo, act: &Act) -> bool
    ensures { result ≡ is_for_list query act.now }
{
    match act {
        Act::Look { query: other } => *other == query,
        Act::List { query: other } => *other == query,
        _ => false,
    }
}

/// The list in a reply; nothing of a reply that tells of none.
fn list_in(reply: &Reply) -> Result<Option<Listing>, AllocError>
    ensures { IfOk result (λ o. o ≡ list_in reply.now) }
{
    match reply {
        Reply::Found { time: _, list } => Ok(Some(list.share()?)),
        Reply::Listed(list) => Ok(Some(list.share()?)),
        _ => Ok(None),
    }
}

/// What an entry says that a query gives; nothing of another entry. Fails only if the list has 2^63 - 1 owners.
pub fn list_told(query: QueryNo, entry: &Entry) -> Result<Option<Listing>, AllocError>
    ensures { IfOk result (λ o. o ≡ list_told query entry.now) }
{
    if is_for_list(query, &entry.act) {
        list_in(&entry.reply)
    } else {
        Ok(None)
    }
}

/// How a transaction ended, by a commit's reply; nothing of another reply.
pub fn outcome_in(reply: &Reply) -> Option<Commit>
    ensures { result ≡ outcome_in reply.now }
{
    match reply {
        Reply::Commit(outcome) => Some(*outcome),
        _ => None,
    }
}

/// Whether a persist was done.
pub fn is_new(reply: &Reply) -> bool
    ensures { result ≡ is_new reply.now }
{
    matches!(reply, Reply::New)
}

/// Whether a set was done.
pub fn is_set(reply: &Reply) -> bool
    ensures { result ≡ is_set reply.now }
{
    matches!(reply, Reply::Set)
}

/// Whether a removal was done.
pub fn is_removed(reply: &Reply) -> bool
    ensures { result ≡ is_removed reply.now }
{
    matches!(reply, Reply::Removed)
}
