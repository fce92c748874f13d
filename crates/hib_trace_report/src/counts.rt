// How many answers are what.
ghost use Rattle.hib_trace_report.specs.Lines as lines;
ghost use Rattle.hib_trace_report.specs.Lines.{certain_text, count_text, counts_text, lists_text, open_text, order_text, premises_text, rows_text, writes_text};
ghost use Rattle.std.specs.Prelude.{◌≡◌, ◌++◌, OnOk, count_by};

use hib_texts::put_labelled;
use hib_trace_filed::{Limits, OrderBy};
use hib_trace_findings::Judgement;
use std::alloc::{AllocError, Global};

/// What is counted.
#[derive(Clone, Copy, Debug, PartialEq, Eq)]
pub enum Kind {
    /// Each answer.
    Hit,
    /// Answers that may be right.
    Possible,
    /// Answers of rows whose writers aren't in the trace.
    Unknown,
    /// Stale answers.
    Stale,
    /// Stale answers of rows that had been deleted.
    Resurrected,
    /// Answers before their rows were committed.
    Dirty,
    /// Answers of rows that were rolled back.
    RolledBack,
    /// Lost updates.
    Lost,
    /// Lines that contradict the order.
    Contradicted,
    /// Lists that aren't known to be old.
    OpenList,
    /// Old lists.
    OldList,
}

// Whether a judgement is of an answer.
fn is_hit(judgement: Judgement) -> bool
    ensures { result ≡ lines.is_hit judgement }
{
    match judgement {
        Judgement::LostUpdate => false,
        Judgement::Contradicted => false,
        Judgement::OpenList => false,
        Judgement::OldList(_) => false,
        _ => true,
    }
}

// Whether a judgement is of a kind.
fn is_kind(kind: Kind, judgement: Judgement) -> bool
    ensures { result ≡ lines.is_kind kind judgement }
{
    match kind {
        Kind::Hit => is_hit(judgement),
        Kind::Possible => matches!(judgement, Judgement::Possible),
        Kind::Unknown => matches!(judgement, Judgement::Unknown),
        Kind::Stale => matches!(judgement, Judgement::Stale(_)),
        Kind::Resurrected => matches!(judgement, Judgement::Resurrected(_)),
        Kind::Dirty => matches!(judgement, Judgement::Dirty),
        Kind::RolledBack => matches!(judgement, Judgement::RolledBack),
        Kind::Lost => matches!(judgement, Judgement::LostUpdate),
        Kind::Contradicted => matches!(judgement, Judgement::Contradicted),
        Kind::OpenList => matches!(judgement, Judgement::OpenList),
        Kind::OldList => matches!(judgement, Judgement::OldList(_)),
    }
}

// Whether a line is of a kind.
fn is_told(kind: Kind, judgement: &Option<Judgement>) -> bool
    ensures { result ≡ lines.is_told kind judgement.now }
{
    match judgement {
        None => false,
        Some(judgement) => is_kind(kind, *judgement),
    }
}

// How many judgements are of a kind.
fn count_kind(kind: Kind, judgements: &[Option<Judgement>]) -> u64
    ensures { result ≡ count_by (lines.is_told kind) judgements.now }
{
    let mut count: u64 = 0;
    for judgement in judgements {
        if is_told(kind, judgement) {
            count += 1;
        }
    }
    count
}

// Adds how many judgements are of a kind.
fn put_count(
    alloc: Global,
    out: &mut Vec<u8>,
    label: &[u8],
    kind: Kind,
    judgements: &[Option<Judgement>],
) -> Result<(), AllocError>
    ensures { OnOk result (out.new.items ≡ out.old.items ++ count_text label.now kind judgements.now) }
{
    put_labelled(alloc, out, label, count_kind(kind, judgements))
}

// Adds how many answers there are, how many may be right, and of how many nothing is known.
fn put_open(
    alloc: Global,
    out: &mut Vec<u8>,
    judgements: &[Option<Judgement>],
) -> Result<(), AllocError>
    ensures { OnOk result (out.new.items ≡ out.old.items ++ open_text judgements.now) }
{
    put_count(alloc, out, b"hits ", Kind::Hit, judgements)?;
    put_count(alloc, out, b" possible ", Kind::Possible, judgements)?;
    put_count(alloc, out, b" unknown ", Kind::Unknown, judgements)
}

// Adds how many answers are wrong for certain.
fn put_certain(
    alloc: Global,
    out: &mut Vec<u8>,
    judgements: &[Option<Judgement>],
) -> Result<(), AllocError>
    ensures { OnOk result (out.new.items ≡ out.old.items ++ certain_text judgements.now) }
{
    put_count(alloc, out, b" stale ", Kind::Stale, judgements)?;
    put_count(alloc, out, b" resurrected ", Kind::Resurrected, judgements)?;
    put_count(alloc, out, b" dirty ", Kind::Dirty, judgements)?;
    put_count(alloc, out, b" rolled-back ", Kind::RolledBack, judgements)
}

// Adds how many updates were lost, and how many lines contradict the order.
fn put_writes(
    alloc: Global,
    out: &mut Vec<u8>,
    judgements: &[Option<Judgement>],
) -> Result<(), AllocError>
    ensures { OnOk result (out.new.items ≡ out.old.items ++ writes_text judgements.now) }
{
    put_count(alloc, out, b"\nwrites lost ", Kind::Lost, judgements)?;
    put_count(
        alloc,
        out,
        b" contradicted ",
        Kind::Contradicted,
        judgements,
    )
}

// Adds how many lists aren't known to be old, and how many are.
fn put_lists(
    alloc: Global,
    out: &mut Vec<u8>,
    judgements: &[Option<Judgement>],
) -> Result<(), AllocError>
    ensures { OnOk result (out.new.items ≡ out.old.items ++ lists_text judgements.now) }
{
    put_count(alloc, out, b"\nlists open ", Kind::OpenList, judgements)?;
    put_count(alloc, out, b" old ", Kind::OldList, judgements)
}

/// Adds how many answers are what.
pub fn put_counts(
    alloc: Global,
    out: &mut Vec<u8>,
    judgements: &[Option<Judgement>],
) -> Result<(), AllocError>
    ensures { OnOk result (out.new.items ≡ out.old.items ++ counts_text judgements.now) }
{
    put_open(alloc, out, judgements)?;
    put_certain(alloc, out, judgements)?;
    put_writes(alloc, out, judgements)?;
    put_lists(alloc, out, judgements)?;
    out.extend_from_slice(b"\n")
}

// Adds what else tells the order of commits.
fn put_order(out: &mut Vec<u8>, order: OrderBy) -> Result<(), AllocError>
    ensures { OnOk result (out.new.items ≡ out.old.items ++ order_text order) }
{
    match order {
        OrderBy::Commit => Ok(()),
        OrderBy::Version => out.extend_from_slice(b", and in that of their versions"),
        OrderBy::Write => out.extend_from_slice(b", and in that of the writes of their rows"),
    }
}

// Adds what is taken for granted of rows and commits.
fn put_rows(out: &mut Vec<u8>, order: OrderBy) -> Result<(), AllocError>
    ensures { OnOk result (out.new.items ≡ out.old.items ++ rows_text order) }
{
    out.extend_from_slice(
        b"premises: rows are told apart by their values or versions; each writer is in the trace; ",
    )?;
    out.extend_from_slice(b"commits that don't overlap are in the order of their calls")?;
    put_order(out, order)
}

/// Adds what is taken for granted.
pub fn put_premises(alloc: Global, out: &mut Vec<u8>, limits: &Limits) -> Result<(), AllocError>
    ensures { OnOk result (out.new.items ≡ out.old.items ++ premises_text limits.now) }
{
    put_rows(out, limits.order)?;
    put_labelled(alloc, out, b"; clocks differ by ", limits.clock)?;
    put_labelled(alloc, out, b" at most; an answer may be ", limits.allow)?;
    out.extend_from_slice(b" old\n")
}
