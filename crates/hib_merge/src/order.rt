// The order of entries in a merged list: by tick, and then by part.
ghost use Rattle.std.specs.Prelude.{◌≡◌};
ghost use Rattle.hib_split_law.specs.Merged.{part_kind, part_number, is_part_before, comes_before};

use hib_base::{Entry, Part};

/// The place of a part's kind in the order of parts; for `is_earlier`.
fn kind_of(part: &Part) -> u8
    ensures { result ≡ part_kind part.now }
{
    match part {
        Part::Registry => 0,
        Part::Store => 1,
        Part::Stamps => 2,
        Part::Results => 3,
        Part::Region(_) => 4,
        Part::Own(_) => 5,
    }
}

/// The place of a part among those of its kind; for `is_earlier`.
fn number_of(part: &Part) -> u32
    ensures { result ≡ part_number part.now }
{
    match part {
        Part::Region(entity) => u32::from(entity.0),
        Part::Own(session) => session.0,
        _ => 0,
    }
}

/// Whether a part comes before another one.
fn is_earlier(part: &Part, other: &Part) -> bool
    ensures { result ≡ is_part_before part.now other.now }
{
    let kind = kind_of(part);
    let other_kind = kind_of(other);
    kind < other_kind || (kind == other_kind && number_of(part) < number_of(other))
}

/// Whether an entry comes before another one.
pub fn is_before(entry: &Entry, other: &Entry) -> bool
    ensures { result ≡ comes_before entry.now other.now }
{
    let now = entry.tick.0;
    let other_now = other.tick.0;
    now < other_now || (now == other_now && is_earlier(&entry.part, &other.part))
}
