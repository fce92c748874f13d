// Which acts no session does: they come from outside.
ghost use Rattle.std.specs.Prelude.{◌≡◌};
ghost use Rattle.hib_journal.specs.Legal;

use hib_base::Act;

/// Whether no session does the act.
pub fn is_outside(act: &Act) -> bool
    ensures { result ≡ Legal.is_outside act.now }
{
    match act {
        Act::Kill { .. } | Act::Restart | Act::Evict { .. } => true,
        _ => false,
    }
}
