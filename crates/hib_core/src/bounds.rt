// How long a run is at most, so that no tick runs over; and how long it is as a rule, so that room is made once.
ghost use Rattle.std.specs.Prelude.{◌≡◌, ◌≤◌, ◌+◌, true, Option, length};
ghost use Rattle.hib_base.specs.Tables.{Tables};
ghost use Rattle.hib_base.specs.Valid.{is_valid};
ghost use Rattle.hib_journal.specs.Types.{Script};
ghost use Rattle.hib_journal.specs.Sessions.{Journal};
ghost use Rattle.hib_journal.specs.Legal.{IsLegal};
ghost use Rattle.hib_core.specs.Bound.{max_entries, most_in, outside_count};

use hib_base::Script;
use hib_law::steps_are_in_order;
use hib_session::entries_are_few;

/// A legal journal has few entries beside the kills, evictions and restarts. So a run of a script within the limits is
/// short, if no more of these came than its schedule has orders.
pub fn runs_are_short()
    ensures short { (script : Script) (told : Option Tables) (h : Journal) → IsLegal script told h
        → length h ≤ most_in script.sessions + outside_count h }
    ensures few { (script : Script) (told : Option Tables) (h : Journal) → is_valid script ≡ true
        → IsLegal script told h → outside_count h ≤ length script.schedule → length h ≤ max_entries }
{
    steps_are_in_order();
    entries_are_few();
}

/// How many entries a run of a script has as a rule; room for that many is made at once. A run may have more or fewer.
pub fn usual_length(script: &Script) -> usize {
    let mut count = script.schedule.len();
    for session in script.sessions.as_slice() {
        let own = session.statements.len().saturating_mul(4);
        count = count.saturating_add(own).saturating_add(8);
    }
    count
}
