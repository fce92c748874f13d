// Writes as commits, and by their keys.
ghost use Rattle.hib_trace_filed.specs.Keys as keys;
ghost use Rattle.hib_trace_filed.specs.Keys.{IsFiled, earlier, later};
ghost use Rattle.std.specs.List.{slice_index_or};
ghost use Rattle.std.specs.Option.{option_to_list};
ghost use Rattle.std.specs.Prelude.{◌≡◌, ◌++◌, ◌<◌, ℕ, [], IfOk, None, OnOk, Vec, if◌then◌else◌, nat_eq, vec_len};
ghost use Rattle.std.specs.declared.alloc.Global.{Global};
ghost use Rattle.hib_trace_law.specs.declared.commits.Commit.{Commit};

use crate::limits::{Limits, OrderBy};
use hib_trace_calls::{Fate, Write};
use hib_trace_law::Commit;
use std::alloc::{AllocError, Global};

// An instant so much later, or the clock's last one.
fn later_by(instant: u64, time: u64) -> u64
    ensures { result ≡ later instant time }
{
    instant.saturating_add(time)
}

/// An instant so much earlier, or the clock's first one.
pub fn earlier_by(instant: u64, time: u64) -> u64
    ensures { result ≡ earlier instant time }
{
    instant.saturating_sub(time)
}

// The place of a write's row in the order of its key, if that is told.
fn rank_of(write: &Write, order: OrderBy) -> Option<u64>
    ensures { result ≡ keys.rank_of order write.now }
{
    match order {
        OrderBy::Commit => None,
        OrderBy::Version => write.version,
        OrderBy::Write => Some(write.end),
    }
}

/// The commit of a write, if it was made or may have been.
pub fn commit_of(write: &Write, limits: &Limits) -> Option<Commit>
    ensures { result ≡ keys.commit_of limits.now write.now }
{
    match write.fate {
        Fate::Open => Some(Commit {
            row: write.row,
            begin: 0,
            end: None,
            version: rank_of(write, limits.order),
        }),
        Fate::Committed(span) => Some(Commit {
            row: write.row,
            begin: earlier_by(span.begin, limits.clock),
            end: Some(later_by(span.end, limits.clock)),
            version: rank_of(write, limits.order),
        }),
        Fate::RolledBack => None,
    }
}

// A write that was rolled back, as a commit that never ended.
fn undone_of(write: &Write, limits: &Limits) -> Option<Commit>
    ensures { result ≡ keys.undone_of limits.now write.now }
{
    match write.fate {
        Fate::Open => None,
        Fate::Committed(_) => None,
        Fate::RolledBack => Some(Commit {
            row: write.row,
            begin: earlier_by(write.begin, limits.clock),
            end: None,
            version: None,
        }),
    }
}

/// Which writes are filed.
#[derive(Clone, Copy, Debug, PartialEq, Eq)]
pub enum Part {
    /// Those that were committed, or may have been.
    Committed,
    /// Those that were rolled back.
    Undone,
}

/// What writes are filed by.
#[derive(Clone, Copy, Debug, PartialEq, Eq)]
pub enum By {
    /// Their keys.
    Key,
    /// The tables of their keys.
    Table,
}

// The number of the file that a write belongs to.
fn number_by(by: By, write: &Write) -> usize
    ensures { result ≡ keys.number_by by write.now }
{
    match by {
        By::Key => write.key,
        By::Table => write.table,
    }
}

// What a write is filed as, if it is of this part.
fn filed_as(part: Part, write: &Write, limits: &Limits) -> Option<Commit>
    ensures { result ≡ keys.filed_as part limits.now write.now }
{
    match part {
        Part::Committed => commit_of(write, limits),
        Part::Undone => undone_of(write, limits),
    }
}

// No commits in each of so many files.
fn empty_files(alloc: Global, count: usize) -> Result<Vec<Vec<Commit>>, AllocError>
    ensures count { IfOk result (λ v. vec_len v ≡ count) }
    ensures empty { IfOk result (λ v. (k : ℕ) (d : Vec Commit Global) → k < count
        → (slice_index_or v.items k d).items ≡ []) }
{
    let mut files = Vec::new(alloc);
    for _at in 0..count {
        files.push(Vec::new(alloc))?;
    }
    Ok(files)
}

// Puts a commit, if there is one, into the file of a number.
fn file(
    files: &mut Vec<Vec<Commit>>,
    number: usize,
    commit: Option<Commit>,
) -> Result<(), AllocError>
    ensures count { OnOk result (vec_len files.new ≡ vec_len files.old) }
    ensures each { OnOk result ((k : ℕ) (d : Vec Commit Global) → k < vec_len files.old
        → (slice_index_or files.new.items k d).items
        ≡ (slice_index_or files.old.items k d).items ++ option_to_list (if nat_eq number k then commit else None)) }
{
    let Some(commit) = commit else {
        return Ok(());
    };
    if number < files.len() {
        files[number].push(commit)?;
    }
    Ok(())
}

/// The writes of this part, filed by their keys or tables, whose numbers are below `count`.
pub fn file_part(
    alloc: Global,
    writes: &[Write],
    count: usize,
    by: By,
    part: Part,
    limits: &Limits,
) -> Result<Vec<Vec<Commit>>, AllocError>
    ensures count { IfOk result (λ v. vec_len v ≡ count) }
    ensures filed { IfOk result (λ v. IsFiled by (keys.filed_as part limits.now) writes.now v.items) }
{
    let mut files = empty_files(alloc, count)?;
    for write in writes {
        file(
            &mut files,
            number_by(by, write),
            filed_as(part, write, limits),
        )?;
    }
    Ok(files)
}
