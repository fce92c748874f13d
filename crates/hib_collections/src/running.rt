// `collect` plays the schedule of its script, and runs the sessions to their ends.
ghost use Rattle.std.specs.Prelude.{◌≡◌, ◌<◌, ◌==◌, ℕ, [], length, OnOk, OnErr, true, false};
ghost use Rattle.hib_base.specs.declared.scripts.Order.{Order};
ghost use Rattle.hib_playing.specs.Playing.{GoesOn, Leads, play_all, play_each, play_steps, played};
ghost use Rattle.hib_collections.specs.Gather.{HasStopped};
ghost use Rattle.hib_collections.specs.Kept.{past};
ghost use Rattle.hib_collections.specs.Obeyed.{Obeys};
ghost use Rattle.hib_collections.specs.Run.{IsAskedOnceMore};
ghost use Rattle.hib_collections.specs.Played.{AreOver, has_next, is_played, play_order, play_script, play_sessions};
ghost use Rattle.hib_collections_law.specs.Gathered.{is_by};

use crate::gather::Gather;
use crate::names::Name;
use hib_base::{Order, SessionNo};
use hib_engines::Stepped;
use hib_outside::{Keeper, Listener};
use std::alloc::{AllocError, Global};

impl<K: Keeper, N: Name, L: Listener> Gather<K, N, L> {
    /// Runs a session for `steps` steps, or to its end if that comes before. A session that isn't there has none. If
    /// memory runs out the steps so far stand.
    fn run_steps(&mut self, alloc: Global, number: SessionNo, steps: u32) -> Result<(), AllocError>
        ensures played { OnOk result (Leads
            (play_steps (has_next N.script N.defs) is_by number steps) played
            (past self.old.journal) (past self.new.journal)) }
        ensures law { Obeys N.script N.defs N.from.tables (past self.new.journal) }
        ensures going { OnOk result (self.new.refused ≡ self.old.refused) }
        ensures stopped { OnErr result (HasStopped N.script N.from self.old self.new) }
    {
        if number.0 as usize >= self.sessions() {
            self.lawful();
            return Ok(());
        }
        for step in 0..steps {
            match self.step(alloc, number)? {
                Stepped::Did => {}
                Stepped::Done => return Ok(()),
            }
        }
        self.lawful();
        Ok(())
    }

    /// Runs a session to its end. It must be the script's. If memory runs out the steps so far stand.
    pub fn run_session(&mut self, alloc: Global, number: SessionNo) -> Result<(), AllocError>
        requires known { number < length N.script.sessions }
        ensures played { OnOk result (Leads (play_all (has_next N.script N.defs) is_by number)
            played (past self.old.journal) (past self.new.journal)) }
        ensures over { OnOk result
            (has_next N.script N.defs (past self.new.journal) number ≡ false) }
        ensures stay { OnOk result ((s : ℕ) → (number == s) ≡ false
            → has_next N.script N.defs (past self.new.journal) s
            ≡ has_next N.script N.defs (past self.old.journal) s) }
        ensures law { Obeys N.script N.defs N.from.tables (past self.new.journal) }
        ensures going { OnOk result (self.new.refused ≡ self.old.refused) }
        ensures stopped { OnErr result (HasStopped N.script N.from self.old self.new) }
    {
        'steps: loop {
            self.short();
            match self.step(alloc, number)? {
                Stepped::Did => {}
                Stepped::Done => return Ok(()),
            }
        }
    }

    /// Runs each session to its end, the first one first. If memory runs out the steps so far stand.
    pub fn finish(&mut self, alloc: Global) -> Result<(), AllocError>
        ensures played { OnOk result (Leads (play_sessions N.script N.defs) played
            (past self.old.journal) (past self.new.journal)) }
        ensures over { OnOk result (AreOver N.script N.defs (past self.new.journal)) }
        ensures law { Obeys N.script N.defs N.from.tables (past self.new.journal) }
        ensures going { OnOk result (self.new.refused ≡ self.old.refused) }
        ensures stopped { OnErr result (HasStopped N.script N.from self.old self.new) }
    {
        for number in 0..self.sessions() {
            self.run_session(alloc, SessionNo(number as u32))?;
        }
        self.lawful();
        Ok(())
    }

    /// Carries an order of the schedule out, if it runs a session. Other orders do nothing here.
    fn obey(&mut self, alloc: Global, order: Order) -> Result<(), AllocError>
        ensures played { OnOk result (Leads (play_order N.script N.defs order) played
            (past self.old.journal) (past self.new.journal)) }
        ensures law { Obeys N.script N.defs N.from.tables (past self.new.journal) }
        ensures going { OnOk result (self.new.refused ≡ self.old.refused) }
        ensures stopped { OnErr result (HasStopped N.script N.from self.old self.new) }
    {
        let Order::Run { session, steps } = order else {
            self.lawful();
            return Ok(());
        };
        self.run_steps(alloc, session, steps)
    }

    /// Carries the orders of the schedule out, one after the other.
    fn follow_schedule(&mut self, alloc: Global) -> Result<(), AllocError>
        ensures played { OnOk result (Leads
            (play_each (play_order N.script N.defs) N.script.schedule) played
            (past self.old.journal) (past self.new.journal)) }
        ensures law { OnErr result (Obeys N.script N.defs N.from.tables (past self.new.journal)) }
        ensures going { OnOk result (self.new.refused ≡ self.old.refused) }
        ensures stopped { OnErr result (HasStopped N.script N.from self.old self.new) }
    {
        for at in 0..self.orders() {
            let order = self.order(at);
            self.obey(alloc, order)?;
        }
        Ok(())
    }

    /// Plays the script: the orders of its schedule that run sessions, one after the other, and then each session to
    /// its end, the first one first. If memory runs out it stops there, and the steps so far stand.
    pub fn play(&mut self, alloc: Global) -> Result<(), AllocError>
        ensures played { OnOk result (past self.old.journal ≡ []
            → is_played N.script N.defs (past self.new.journal) ≡ true) }
        ensures leads { OnOk result (Leads (play_script N.script N.defs) played
            (past self.old.journal) (past self.new.journal)) }
        ensures over { OnOk result (AreOver N.script N.defs (past self.new.journal)) }
        ensures law { Obeys N.script N.defs N.from.tables (past self.new.journal) }
        ensures going { OnOk result (self.new.refused ≡ self.old.refused) }
        ensures stands { OnErr result (GoesOn (past self.old.journal) (past self.new.journal)) }
        ensures asked { OnErr result (self.old.refused ≡ false
            → IsAskedOnceMore N.script N.from (past self.new.journal) self.new.engines) }
        ensures refused { OnErr result (self.new.refused ≡ true) }
    {
        self.follow_schedule(alloc)?;
        self.finish(alloc)
    }
}
