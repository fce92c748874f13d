// Whether an entry's tick is after the last ones.
ghost use Rattle.std.specs.Prelude.{◌≡◌};
ghost use Rattle.hib_audit.specs.Standing.{is_after};

use hib_base::Entry;
use hib_clock::Ticks;

/// The last tick that an entry may have.
const LAST: u64 = 1 << 62;

/// Whether an entry's tick is from 1 to 2^62, not before the last one, and after those of its part and of its session.
pub fn is_after(ticks: &Ticks, entry: &Entry) -> bool
    ensures { result ≡ is_after ticks.now entry.now }
{
    let now = entry.tick.0;
    1 <= now
        && now <= LAST
        && ticks.last().0 <= now
        && ticks.of_part(entry.part).0 < now
        && ticks.of_session(entry.session).0 < now
}
