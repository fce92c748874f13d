// The next tick: every factory and every part asks for it before a step.
ghost use Rattle.std.specs.Prelude.{◌≡◌, ◌+◌, ◌^◌, ◌≤◌, ◌↔◌, max, IfSome, IsNone};
ghost use Rattle.hib_clock.specs.Due.{due};

use hib_base::Tick;

/// The last tick that there is.
const LAST: u64 = 1 << 62;

/// The tick of an entry: one more than the last tick of its part and the last tick of its session. 0 stands for none
/// yet. None if and only if there is no tick after the greater of the two, which is then 2^62; no run within the limits
/// of a script comes so far.
pub fn next(part: Tick, session: Tick) -> Option<Tick>
    requires part { part ≤ 2 ^ 62 }
    requires session { session ≤ 2 ^ 62 }
    ensures tick { IfSome result (λ tick. tick ≡ due part session) }
    ensures none { IsNone result ↔ (max part session ≡ 2 ^ 62) }
{
    let last = part.0.max(session.0);
    if last == LAST {
        return None;
    }
    Some(Tick(last + 1))
}
