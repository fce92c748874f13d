// What the regions, the store and the results did, in numbers: the last lines of a report.
ghost use Rattle.std.specs.Prelude.{◌≡◌, ◌++◌, OnOk};
ghost use Rattle.hib_listeners.specs.Statistics.{counted};
ghost use Rattle.hib_report.specs.Report.{reads_text, puts_text, locks_text, region_text, regions_text, asked_text, ends_text, store_text, looks_text, keeps_text, queries_text, counts_text};

use hib_base::Script;
use hib_journal::Journal;
use hib_listeners::{QueryCounts, RegionCounts, Statistics, StoreCounts};
use hib_texts::{put_entity, put_labelled};
use std::alloc::{AllocError, Global};

fn put_reads(alloc: Global, out: &mut Vec<u8>, counts: &RegionCounts) -> Result<(), AllocError>
    ensures { OnOk result (out.new.items ≡ out.old.items ++ reads_text counts.now) }
{
    put_labelled(alloc, out, b" hits ", counts.hits)?;
    put_labelled(alloc, out, b" misses ", counts.misses)
}

fn put_puts(alloc: Global, out: &mut Vec<u8>, counts: &RegionCounts) -> Result<(), AllocError>
    ensures { OnOk result (out.new.items ≡ out.old.items ++ puts_text counts.now) }
{
    put_labelled(alloc, out, b" puts ", counts.puts)?;
    put_labelled(alloc, out, b" refused ", counts.refused)
}

fn put_locks(alloc: Global, out: &mut Vec<u8>, counts: &RegionCounts) -> Result<(), AllocError>
    ensures { OnOk result (out.new.items ≡ out.old.items ++ locks_text counts.now) }
{
    put_labelled(alloc, out, b" locks ", counts.locks)?;
    put_labelled(alloc, out, b" evicted ", counts.evicted)?;
    put_labelled(alloc, out, b" expired ", counts.expired)
}

fn put_region(
    alloc: Global,
    out: &mut Vec<u8>,
    script: &Script,
    counts: &RegionCounts,
) -> Result<(), AllocError>
    ensures { OnOk result (out.new.items ≡ out.old.items ++ region_text script.now counts.now) }
{
    out.extend_from_slice(b"region ")?;
    put_entity(out, script, counts.entity)?;
    put_reads(alloc, out, counts)?;
    put_puts(alloc, out, counts)?;
    put_locks(alloc, out, counts)?;
    out.extend_from_slice(b"\n")
}

fn put_regions(
    alloc: Global,
    out: &mut Vec<u8>,
    script: &Script,
    regions: &[RegionCounts],
) -> Result<(), AllocError>
    ensures { OnOk result (out.new.items ≡ out.old.items ++ regions_text script.now regions.now) }
{
    for counts in regions {
        put_region(alloc, out, script, counts)?;
    }
    Ok(())
}

fn put_asked(alloc: Global, out: &mut Vec<u8>, counts: &StoreCounts) -> Result<(), AllocError>
    ensures { OnOk result (out.new.items ≡ out.old.items ++ asked_text counts.now) }
{
    put_labelled(alloc, out, b" loads ", counts.loads)?;
    put_labelled(alloc, out, b" lists ", counts.lists)?;
    put_labelled(alloc, out, b" writes ", counts.writes)
}

fn put_ends(alloc: Global, out: &mut Vec<u8>, counts: &StoreCounts) -> Result<(), AllocError>
    ensures { OnOk result (out.new.items ≡ out.old.items ++ ends_text counts.now) }
{
    put_labelled(alloc, out, b" commits ", counts.commits)?;
    put_labelled(alloc, out, b" faults ", counts.faults)
}

fn put_store(alloc: Global, out: &mut Vec<u8>, counts: &StoreCounts) -> Result<(), AllocError>
    ensures { OnOk result (out.new.items ≡ out.old.items ++ store_text counts.now) }
{
    out.extend_from_slice(b"store")?;
    put_asked(alloc, out, counts)?;
    put_ends(alloc, out, counts)?;
    out.extend_from_slice(b"\n")
}

fn put_looks(alloc: Global, out: &mut Vec<u8>, counts: &QueryCounts) -> Result<(), AllocError>
    ensures { OnOk result (out.new.items ≡ out.old.items ++ looks_text counts.now) }
{
    put_labelled(alloc, out, b" hits ", counts.hits)?;
    put_labelled(alloc, out, b" misses ", counts.misses)
}

fn put_keeps(alloc: Global, out: &mut Vec<u8>, counts: &QueryCounts) -> Result<(), AllocError>
    ensures { OnOk result (out.new.items ≡ out.old.items ++ keeps_text counts.now) }
{
    put_labelled(alloc, out, b" kept ", counts.kept)?;
    put_labelled(alloc, out, b" dropped ", counts.dropped)
}

fn put_queries(alloc: Global, out: &mut Vec<u8>, counts: &QueryCounts) -> Result<(), AllocError>
    ensures { OnOk result (out.new.items ≡ out.old.items ++ queries_text counts.now) }
{
    out.extend_from_slice(b"queries")?;
    put_looks(alloc, out, counts)?;
    put_keeps(alloc, out, counts)?;
    out.extend_from_slice(b"\n")
}

// A line for each cached entity, then the lines of the store and of the queries, and the end.
fn put_statistics(
    alloc: Global,
    out: &mut Vec<u8>,
    script: &Script,
    counts: &Statistics,
) -> Result<(), AllocError>
    ensures { OnOk result (out.new.items ≡ out.old.items ++ counts_text script.now counts.now) }
{
    put_regions(alloc, out, script, counts.regions.as_slice())?;
    put_store(alloc, out, &counts.store)?;
    put_queries(alloc, out, &counts.queries)?;
    out.extend_from_slice(b"end\n")
}

/// What the entries of a journal come to, which is counted in one pass.
pub fn put_counts(
    alloc: Global,
    out: &mut Vec<u8>,
    script: &Script,
    journal: &Journal,
) -> Result<(), AllocError>
    ensures { OnOk result (out.new.items
        ≡ out.old.items ++ counts_text script.now (counted script.now journal.now.list)) }
{
    let counts = Statistics::of_journal(alloc, script, journal)?;
    put_statistics(alloc, out, script, &counts)
}
