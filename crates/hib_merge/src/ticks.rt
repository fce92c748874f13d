// The first entry whose tick isn't the one that is due: one more than the greater of the last ticks of its part and of
// its session. `agree` asks for it.
ghost use Rattle.std.specs.Prelude.{◌≡◌, ◌≤◌, ◌<◌, ◌^◌, length, reverse, IfOk, MatchOption};
ghost use Rattle.hib_clock.specs.Due.{due};
ghost use Rattle.hib_clock.specs.LastTicks.{part_last, session_last};
ghost use Rattle.hib_split_law.specs.Merged.{AreDue};
ghost use Rattle.hib_merge.specs.Tearing.{IsTickTorn, IsUndue};

use crate::tearing::Torn;
use hib_base::{Entry, Tick};
use hib_clock::{Ticks, next};
use std::alloc::{AllocError, Global};

/// The tick that is due for an entry.
fn due(ticks: &Ticks, entry: &Entry) -> Tick
    requires part { part_last ticks.now entry.now.part < 2 ^ 62 }
    requires session { session_last ticks.now entry.now.session < 2 ^ 62 }
    ensures { result ≡ due (part_last ticks.now entry.now.part)
        (session_last ticks.now entry.now.session) }
{
    match next(ticks.of_part(entry.part), ticks.of_session(entry.session)) {
        Some(tick) => tick,
        // None of the two is the last tick that there is.
        None => unreachable!(),
    }
}

/// The first entry whose tick isn't the one that is due, with the tick that is; none if each tick is due.
fn undue<'a>(alloc: Global, entries: &'a [Entry]) -> Result<Option<(&'a Entry, Tick)>, AllocError>
    requires { length entries.now ≤ 2 ^ 62 }
    ensures { IfOk result (λ o. MatchOption o (AreDue (reverse entries.now))
        (λ t. IsUndue entries.now t.0.now t.1)) }
{
    let mut ticks = Ticks::new(alloc);
    for entry in entries {
        let due = due(&ticks, entry);
        if entry.tick != due {
            return Ok(Some((entry, due)));
        }
        ticks.note(entry)?;
    }
    Ok(None)
}

/// The first entry whose tick isn't the one that is due, copied, with the tick that is; none if each tick is due.
pub fn torn_tick(alloc: Global, entries: &[Entry]) -> Result<Option<Torn>, AllocError>
    requires { length entries.now ≤ 2 ^ 62 }
    ensures { IfOk result (λ o. MatchOption o (AreDue (reverse entries.now))
        (IsTickTorn entries.now)) }
{
    match undue(alloc, entries) {
        Ok(Some((entry, due))) => {
            let entry = entry.copy(alloc)?;
            Ok(Some(Torn::Tick { entry, due }))
        }
        Ok(None) => Ok(None),
        Err(error) => Err(error),
    }
}
