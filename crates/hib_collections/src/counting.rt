// What the entries at the regions of collections come to, counted in one pass for the last lines of a journal's text.
ghost use Rattle.std.specs.Prelude.{◌≡◌, ◌+◌, ◌-◌, ◌<◌, ◌^◌, ℕ, IfOk, length, slice_index_or};
ghost use Rattle.hib_collections.specs.Counted.{AreBelow, counts_on, noted, noted_on};
ghost use Rattle.hib_listeners.specs.Statistics.{one_if};
ghost use Rattle.hib_collections.specs.Text.{is_hit, is_miss, is_stored, is_locked};
ghost use Rattle.hib_collections.specs.declared.counting.Counts.{Counts};

use hib_base::{Put, Reply};
use hib_collections_law::{GatherEntry, MemberAct, MemberEntry};
use std::alloc::{AllocError, Global};

/// What the entries on a collection's region come to.
#[derive(Clone, Copy)]
pub struct Counts {
    /// Gets that were answered with a list.
    pub hits: usize,
    /// Gets that were refused one.
    pub misses: usize,
    /// Lists that were stored.
    pub puts: usize,
    /// Locks that were taken.
    pub locks: usize,
}

const NONE: Counts = Counts {
    hits: 0,
    misses: 0,
    puts: 0,
    locks: 0,
};

// Raises a count by one, if the entry counts.
fn raise(count: &mut usize, counts: bool)
    requires { count.old < 2 ^ 64 - 1 }
    ensures { count.new ≡ count.old + one_if counts }
{
    if counts {
        *count += 1;
    }
}

fn hits(entry: &MemberEntry) -> bool
    ensures { result ≡ is_hit entry.now }
{
    matches!(entry.reply, Reply::Hit(_))
}

fn misses(entry: &MemberEntry) -> bool
    ensures { result ≡ is_miss entry.now }
{
    matches!(entry.reply, Reply::Miss(_))
}

fn stores(entry: &MemberEntry) -> bool
    ensures { result ≡ is_stored entry.now }
{
    matches!(entry.reply, Reply::Put(Put::Stored { .. }))
}

fn locks(entry: &MemberEntry) -> bool
    ensures { result ≡ is_locked entry.now }
{
    matches!(entry.act, MemberAct::Lock { .. })
}

impl Counts {
    // Counts an entry, which is on this region.
    fn note(&mut self, entry: &MemberEntry)
        requires { AreBelow (2 ^ 64 - 1) self.old }
        ensures { self.new ≡ noted entry.now self.old }
    {
        raise(&mut self.hits, hits(entry));
        raise(&mut self.misses, misses(entry));
        raise(&mut self.puts, stores(entry));
        raise(&mut self.locks, locks(entry));
    }
}

// Counts an entry for the collection that it is on, if it is on one.
fn count_entry(counts: &mut [Counts], entry: &GatherEntry)
    requires { (c : ℕ) (d : Counts) → c < length counts.old
        → AreBelow (2 ^ 64 - 1) (slice_index_or counts.old c d) }
    ensures { (c : ℕ) (d : Counts) → c < length counts.old
        → slice_index_or counts.new c d ≡ noted_on c entry.now (slice_index_or counts.old c d) }
{
    if let GatherEntry::Member(entry) = entry {
        let at = usize::from(entry.collection);
        if at < counts.len() {
            counts[at].note(entry);
        }
    }
}

/// The counts of the first `number` collections, in one pass over the entries. An entry on any other is counted
/// nowhere. Fails for want of memory alone.
pub fn counts_of(
    alloc: Global,
    entries: &[GatherEntry],
    number: usize,
) -> Result<Vec<Counts>, AllocError>
    ensures len { IfOk result (λ v. length v.items ≡ number) }
    ensures counts { IfOk result (λ v. (c : ℕ) (d : Counts) → c < number
        → slice_index_or v.items c d ≡ counts_on c entries.now) }
{
    let mut counts = vec![in alloc; NONE; number]?;
    for entry in entries {
        count_entry(counts.as_mut_slice(), entry);
    }
    Ok(counts)
}
