// The lists of two sessions that only commit, by direct calls: merged, with one of them cut, and with ticks that aren't
// due.
ghost use Rattle.std.specs.Prelude.{◌≡◌, ◌<◌, map, true, IfOk, IfSome};
ghost use Rattle.hib_base.specs.declared.entries.Part.{Part};
ghost use Rattle.hib_base.specs.Valid.{is_valid};
ghost use Rattle.hib_journal.specs.Kept.{past};
ghost use Rattle.hib_merge.specs.Merging.{AreRising, IsInOne, IsRising};
ghost use Rattle.hib_parts.specs.Listed.{AreOf};

use hib_audit::{Audit, audit};
use hib_base::{Act, Commit, Entry, Outcome, Part, Reply, Script, Seq, SessionNo, Tick};
use hib_journal::Journal;
use hib_merge::{Lists, Torn, agree, merge};
use hib_report::line;
use std::alloc::{AllocError, Global};

/// Two sessions that only commit.
const TWO: &[u8] = b"hib 1
session a
commit
end
session b
commit
end
";

/// Their entries, each by the one and by the other in turn.
const MERGED: &[u8] = b"1 a registry begin = floor 1
2 b registry begin = floor 1
2 a store commit = committed
3 a registry end = committed
3 b store commit = committed
4 b registry end = committed
";

const END_OF_A: &[u8] = b"3 a registry end = committed";

const LATE_COMMIT: &[u8] = b"4 b store commit = committed";

/// No list here is longer.
const MOST: usize = 64;

const A: SessionNo = SessionNo(0);

const B: SessionNo = SessionNo(1);

fn begin(session: SessionNo, tick: u64) -> Entry
    ensures part { result.part ≡ Part.Registry }
    ensures tick { result.tick ≡ tick }
{
    Entry {
        tick: Tick(tick),
        session: Some(session),
        part: Part::Registry,
        act: Act::Begin,
        reply: Reply::Began { floor: Tick(1) },
    }
}

fn commit(session: SessionNo, tick: u64) -> Entry
    ensures part { result.part ≡ Part.Store }
    ensures tick { result.tick ≡ tick }
{
    Entry {
        tick: Tick(tick),
        session: Some(session),
        part: Part::Store,
        act: Act::Commit,
        reply: Reply::Commit(Commit::Committed),
    }
}

fn end(session: SessionNo, tick: u64) -> Entry
    ensures part { result.part ≡ Part.Registry }
    ensures tick { result.tick ≡ tick }
{
    Entry {
        tick: Tick(tick),
        session: Some(session),
        part: Part::Registry,
        act: Act::End,
        reply: Reply::Ended {
            outcome: Outcome::Committed,
        },
    }
}

/// The list of the registry, with the tick of b's end.
fn registry(alloc: Global, ended: u64) -> Result<Journal, AllocError>
    requires { 3 < ended }
    ensures part { IfOk result (λ j. AreOf Part.Registry (past j)) }
    ensures rising { IfOk result (λ j. IsRising (past j)) }
{
    let mut list = Journal::open(alloc);
    list.push(begin(A, 1))?;
    list.push(begin(B, 2))?;
    list.push(end(A, 3))?;
    list.push(end(B, ended))?;
    Ok(list)
}

/// The list of the store, with the tick of b's commit.
fn store(alloc: Global, committed: u64) -> Result<Journal, AllocError>
    requires { 2 < committed }
    ensures part { IfOk result (λ j. AreOf Part.Store (past j)) }
    ensures rising { IfOk result (λ j. IsRising (past j)) }
{
    let mut list = Journal::open(alloc);
    list.push(commit(A, 2))?;
    list.push(commit(B, committed))?;
    Ok(list)
}

/// The lists of parts, with the ticks of b's commit and of its end.
fn parts(alloc: Global, committed: u64, ended: u64) -> Result<Lists, AllocError>
    requires committed { 2 < committed }
    requires ended { 3 < ended }
    ensures apart { IfOk result (λ lists. (p : Part) → IsInOne p (map past lists)) }
    ensures rising { IfOk result (λ lists. AreRising (map past lists)) }
{
    let mut lists = Seq::new(alloc);
    lists.push(registry(alloc, ended)?)?;
    lists.push(store(alloc, committed)?)?;
    Ok(lists)
}

/// The list of a session that has committed and not ended, with the ticks of its begin and of its commit.
fn unended(
    alloc: Global,
    session: SessionNo,
    begun: u64,
    committed: u64,
) -> Result<Journal, AllocError> {
    let mut list = Journal::open(alloc);
    list.push(begin(session, begun))?;
    list.push(commit(session, committed))?;
    Ok(list)
}

/// The list of session a, without its end if it is cut, so that it doesn't agree with the merged list.
fn list_of_a(alloc: Global, is_cut: bool) -> Result<Journal, AllocError> {
    let mut list = unended(alloc, A, 1, 2)?;
    if !is_cut {
        list.push(end(A, 3))?;
    }
    Ok(list)
}

/// The lists of sessions, with the ticks of b's commit and of its end. That of a may be cut.
fn mine(alloc: Global, is_cut: bool, committed: u64, ended: u64) -> Result<Lists, AllocError> {
    let mut lists = Seq::new(alloc);
    lists.push(list_of_a(alloc, is_cut)?)?;
    let mut list_of_b = unended(alloc, B, 2, committed)?;
    list_of_b.push(end(B, ended))?;
    lists.push(list_of_b)?;
    Ok(lists)
}

/// The script of the two sessions, or none if there isn't memory for it.
pub fn two(alloc: Global) -> Option<Script>
    ensures { IfSome result (λ s. is_valid s ≡ true) }
{
    hib_script::read(alloc, TWO).ok()
}

/// The merged list of the parts, with the ticks of b's commit and of its end.
fn merged(alloc: Global, committed: u64, ended: u64) -> Result<Journal, AllocError>
    requires committed { 2 < committed }
    requires ended { 3 < ended }
{
    merge(alloc, &parts(alloc, committed, ended)?)
}

/// The entries as lines.
fn lines_of(alloc: Global, script: &Script, entries: &[Entry]) -> Result<Vec<u8>, AllocError> {
    let mut lines = Vec::new(alloc);
    for entry in entries {
        let line = line(alloc, script, entry)?;
        lines.extend_from_slice(line.as_slice())?;
        lines.push(b'\n')?;
    }
    Ok(lines)
}

/// Whether an entry has this line.
fn is_line(alloc: Global, script: &Script, entry: &Entry, text: &[u8]) -> Result<bool, AllocError> {
    Ok(line(alloc, script, entry)?.as_slice() == text)
}

/// Whether a list has the lines of the merged one.
fn has_lines(alloc: Global, script: &Script, list: &Journal) -> Result<bool, AllocError> {
    Ok(lines_of(alloc, script, list.as_slice())?.as_slice() == MERGED)
}

/// Whether a list is legal by the audit.
fn is_legal(alloc: Global, script: &Script, list: &Journal) -> Result<bool, AllocError>
    requires { is_valid script.now ≡ true }
{
    if list.len() > MOST {
        return Ok(false);
    }
    Ok(audit(alloc, script, list)? == Audit::Legal)
}

/// What is found of a merged list and the lists of the sessions.
#[derive(Clone, Copy)]
enum Found {
    /// They agree, and each tick is due.
    Whole,
    /// The list of a ends where there is its end.
    EndOfA,
    /// The commit of b has another tick than 3, which is due.
    LateCommit,
    /// Something else is torn.
    Another,
}

/// What is found if an entry has this line.
fn found_if(
    alloc: Global,
    script: &Script,
    entry: &Entry,
    text: &[u8],
    found: Found,
) -> Result<Found, AllocError> {
    if is_line(alloc, script, entry, text)? {
        Ok(found)
    } else {
        Ok(Found::Another)
    }
}

/// What is found, by what is torn.
fn finding(alloc: Global, script: &Script, torn: &Option<Torn>) -> Result<Found, AllocError> {
    match torn {
        None => Ok(Found::Whole),
        Some(
            Torn::Lists {
                mine: None,
                part: Some(entry),
            },
        ) => found_if(alloc, script, entry, END_OF_A, Found::EndOfA),
        Some(
            Torn::Tick {
                entry,
                due: Tick(3),
            },
        ) => found_if(alloc, script, entry, LATE_COMMIT, Found::LateCommit),
        _ => Ok(Found::Another),
    }
}

/// What is found of a list and those of the sessions, with the ticks of b's commit and of its end. The list of a may be
/// cut.
fn compared(
    alloc: Global,
    script: &Script,
    list: &Journal,
    is_cut: bool,
    committed: u64,
    ended: u64,
) -> Result<Found, AllocError> {
    let torn = agree(alloc, list, &mine(alloc, is_cut, committed, ended)?)?;
    finding(alloc, script, &torn)
}

/// Whether a list agrees with those of the sessions.
fn is_whole(alloc: Global, script: &Script, list: &Journal) -> Result<bool, AllocError> {
    let found = compared(alloc, script, list, false, 3, 4)?;
    Ok(matches!(found, Found::Whole))
}

/// Whether a list is the merged one, which is legal and agrees with those of the sessions.
fn is_in_turn(alloc: Global, script: &Script, list: &Journal) -> Result<bool, AllocError>
    requires { is_valid script.now ≡ true }
{
    Ok(
        has_lines(alloc, script, list)?
            && is_legal(alloc, script, list)?
            && is_whole(alloc, script, list)?,
    )
}

/// Whether the lists of the parts come to the merged one, which is legal and agrees with those of the sessions.
pub fn comes_in_turn(alloc: Global, script: &Script) -> Result<bool, AllocError>
    requires { is_valid script.now ≡ true }
{
    let list = merged(alloc, 3, 4)?;
    is_in_turn(alloc, script, &list)
}

/// Whether the list of a, cut by its end, is told from its entries by that end.
pub fn misses_an_end(alloc: Global, script: &Script) -> Result<bool, AllocError> {
    let list = merged(alloc, 3, 4)?;
    let found = compared(alloc, script, &list, true, 3, 4)?;
    Ok(matches!(found, Found::EndOfA))
}

/// Whether b's commit is told by its tick, if that and the tick of b's end are one too great in all lists.
pub fn finds_a_late_tick(alloc: Global, script: &Script) -> Result<bool, AllocError> {
    let list = merged(alloc, 4, 5)?;
    let found = compared(alloc, script, &list, false, 4, 5)?;
    Ok(matches!(found, Found::LateCommit))
}
