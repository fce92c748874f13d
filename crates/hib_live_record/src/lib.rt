//! Records: a run of sessions that were given their statements one by one is played again by the script of all that was
//! given, with the schedule of its steps.
#![tactic(auto)]

mod recording;

ghost use Rattle.hib_base.specs.Tables.{Tables};
ghost use Rattle.hib_base.specs.declared.entries.Entry.{Entry};
ghost use Rattle.hib_journal.specs.Legal.{IsLegal};
ghost use Rattle.hib_journal.specs.Played.{has_next, is_played};
ghost use Rattle.hib_journal.specs.Runs.{IsNumbered, fault_count};
ghost use Rattle.hib_journal.specs.Sessions.{Journal};
ghost use Rattle.hib_journal.specs.Types.{Script};
ghost use Rattle.hib_live_law.specs.Grown.{HasGrown};
ghost use Rattle.hib_live_record.specs.Recorded.{recorded};
ghost use Rattle.hib_order_law.specs.Orders.{IsUndisturbed, onto, steps_in};
ghost use Rattle.hib_order_schedule.specs.Schedules.{shown, with_schedule};
ghost use Rattle.std.specs.Prelude.{◌≡◌, ℕ, List, [], Some, false, true};

use hib_live_law::legal_by_growth;
use hib_order_schedule::{schedules_begin_runs, schedules_play_orders, shown_runs_come_again};
pub use recording::record_run;

/// Of a journal of sessions and kills without faults, which is legal for a script s: if s has grown into t, of which no
/// session has an act left, then t with the schedule of the journal's steps plays that journal, and whatever it plays
/// without faults is that journal.
pub fn records_are_played()
    ensures played { (s t : Script) (start : Tables) (es : List Entry) → HasGrown s t
        → IsUndisturbed s start (onto es [])
        → ((n : ℕ) → has_next t (onto es []) n ≡ false)
        → is_played (with_schedule t (shown (steps_in es))) (onto es []) ≡ true }
    ensures again { (s t : Script) (start : Tables) (es : List Entry) (h : Journal) → HasGrown s t
        → IsUndisturbed s start (onto es [])
        → ((n : ℕ) → has_next t (onto es []) n ≡ false)
        → IsLegal (with_schedule t (shown (steps_in es))) (Some start) h
        → IsNumbered h → fault_count h ≡ 0
        → is_played (with_schedule t (shown (steps_in es))) h ≡ true
        → h ≡ onto es [] }
{
    legal_by_growth();
    schedules_play_orders();
    shown_runs_come_again();
}

/// Of a journal of sessions and kills without faults, which is legal for what was asked: whatever its record plays without
/// faults from the rows at the start begins with that journal. The sessions needn't be at their ends.
pub fn records_begin_runs()
    ensures begins { (asked : Script) (start : Tables) (es : List Entry) (h : Journal)
        → IsUndisturbed asked start (onto es [])
        → IsLegal (recorded asked es) (Some start) h → IsNumbered h → fault_count h ≡ 0
        → is_played (recorded asked es) h ≡ true
        → (rest : List Entry) × (h ≡ onto rest (onto es [])) }
{
    legal_by_growth();
    schedules_begin_runs();
}
