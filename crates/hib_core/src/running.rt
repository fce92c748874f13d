// Sessions of a factory run to their ends, when the schedule is over or when threads have left them.
ghost use Rattle.std.specs.Prelude.{◌≡◌, ◌<◌, ◌==◌, ℕ, length, OnOk, false};
ghost use Rattle.std.specs.List.{range_with_len};
ghost use Rattle.hib_journal.specs.Kept.{past};
ghost use Rattle.hib_journal.specs.Sessions.{own};
ghost use Rattle.hib_journal.specs.Played.{has_next, play_sessions};
ghost use Rattle.hib_core.specs.Bound.{outside_count};
ghost use Rattle.hib_core.specs.Factory.{AreOver};
ghost use Rattle.hib_core.specs.Calls.{HasRun};
ghost use Rattle.hib_core.specs.Playing.{played, play_all, Leads};

use crate::factory::Factory;
use hib_base::SessionNo;
use hib_engines::{Name, Stepped};
use hib_outside::{Keeper, Listener};
use std::alloc::{AllocError, Global};

impl<K: Keeper, N: Name, L: Listener> Factory<K, N, L> {
    /// Runs a session to its end. It must be the script's. If memory runs out the steps so far stand.
    pub fn run_session(&mut self, alloc: Global, number: SessionNo) -> Result<(), AllocError>
        requires known { number < length N.script.sessions }
        ensures played { OnOk result (Leads (play_all N.script number) played
            (past self.old.journal) (past self.new.journal)) }
        ensures over { OnOk result (has_next N.script (past self.new.journal) number ≡ false) }
        ensures others { OnOk result ((s : ℕ) → (number == s) ≡ false
            → own s (past self.new.journal) ≡ own s (past self.old.journal)) }
        ensures stay { OnOk result ((s : ℕ) → (number == s) ≡ false
            → has_next N.script (past self.new.journal) s
            ≡ has_next N.script (past self.old.journal) s) }
        ensures inside { outside_count (past self.new.journal)
            ≡ outside_count (past self.old.journal) }
        ensures ran { HasRun N.script N.from result self.old self.new }
    {
        'steps: loop {
            match self.step(alloc, number)? {
                Stepped::Did => {}
                Stepped::Done => return Ok(()),
            }
        }
    }

    /// Runs each session to its end, the first one first. If memory runs out the steps so far stand.
    pub fn finish(&mut self, alloc: Global) -> Result<(), AllocError>
        ensures played { OnOk result
            (Leads (play_sessions N.script (range_with_len 0 (length N.script.sessions))) played
            (past self.old.journal) (past self.new.journal)) }
        ensures over { OnOk result (AreOver N.script (past self.new.journal)) }
        ensures inside { outside_count (past self.new.journal)
            ≡ outside_count (past self.old.journal) }
        ensures ran { HasRun N.script N.from result self.old self.new }
    {
        for number in 0..self.sessions() {
            self.run_session(alloc, SessionNo(number as u32))?;
        }
        self.lawful();
        Ok(())
    }
}
