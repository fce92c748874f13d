// The words of a trace.
ghost use Rattle.hib_trace_lines.specs.Words as words;
ghost use Rattle.std.specs.Prelude.{◌≡◌, bytes_eq};

use crate::events::{Operation, Outcome};
use crate::faults::Member;

fn is(word: &str, other: &str) -> bool
    ensures { result ≡ bytes_eq word.now other.now }
{
    word == other
}

fn cache_operation(word: &str) -> Option<Operation>
    ensures { result ≡ words.word_of words.cache_operations word.now }
{
    if is(word, "hit") {
        Some(Operation::Hit)
    } else if is(word, "miss") {
        Some(Operation::Miss)
    } else if is(word, "put") {
        Some(Operation::Put)
    } else if is(word, "update") {
        Some(Operation::Update)
    } else if is(word, "drop") {
        Some(Operation::Evict)
    } else if is(word, "lock") {
        Some(Operation::Lock)
    } else if is(word, "unlock") {
        Some(Operation::Unlock)
    } else {
        None
    }
}

fn database_operation(word: &str) -> Option<Operation>
    ensures { result ≡ words.word_of words.database_operations word.now }
{
    if is(word, "load") {
        Some(Operation::Load)
    } else if is(word, "write") {
        Some(Operation::Write)
    } else if is(word, "commit") {
        Some(Operation::Commit)
    } else if is(word, "rollback") {
        Some(Operation::Rollback)
    } else {
        None
    }
}

fn list_operation(word: &str) -> Option<Operation>
    ensures { result ≡ words.word_of words.list_operations word.now }
{
    if is(word, "list-hit") {
        Some(Operation::ListHit)
    } else if is(word, "list-miss") {
        Some(Operation::ListMiss)
    } else if is(word, "list-put") {
        Some(Operation::ListPut)
    } else if is(word, "list-load") {
        Some(Operation::ListLoad)
    } else {
        None
    }
}

/// The operation that a word names.
pub fn operation_of(word: &str) -> Option<Operation>
    ensures { result ≡ words.operation_of word.now }
{
    cache_operation(word)
        .or(database_operation(word))
        .or(list_operation(word))
}

/// The outcome that a word names.
pub fn outcome_of(word: &str) -> Option<Outcome>
    ensures { result ≡ words.word_of words.outcomes word.now }
{
    if is(word, "committed") {
        Some(Outcome::Committed)
    } else if is(word, "unknown") {
        Some(Outcome::Unknown)
    } else if is(word, "stored") {
        Some(Outcome::Stored)
    } else if is(word, "refused") {
        Some(Outcome::Refused)
    } else if is(word, "done") {
        Some(Outcome::Done)
    } else {
        None
    }
}

/// The member that has a name.
pub fn member_of(name: &str) -> Option<Member>
    ensures { result ≡ words.word_of words.members name.now }
{
    if is(name, "session") {
        Some(Member::Session)
    } else if is(name, "tx") {
        Some(Member::Transaction)
    } else if is(name, "op") {
        Some(Member::Operation)
    } else if is(name, "key") {
        Some(Member::Key)
    } else if is(name, "value") {
        Some(Member::Value)
    } else if is(name, "version") {
        Some(Member::Version)
    } else if is(name, "base") {
        Some(Member::Base)
    } else if is(name, "outcome") {
        Some(Member::Outcome)
    } else if is(name, "tables") {
        Some(Member::Tables)
    } else if is(name, "writes") {
        Some(Member::Writes)
    } else if is(name, "begin") {
        Some(Member::Begin)
    } else if is(name, "end") {
        Some(Member::End)
    } else {
        None
    }
}
