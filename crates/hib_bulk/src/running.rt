// `bulk` plays the orders of its section, and then runs sessions and bulk lines to their ends.
ghost use Rattle.std.specs.Prelude.{◌≡◌, ◌<◌, ◌==◌, ℕ, [], OnOk, OnErr, true, false};
ghost use Rattle.hib_base.specs.declared.scripts.Order.{Order as Said};
ghost use Rattle.hib_playing.specs.Playing.{Leads, play_all, play_each, play_steps, played};
ghost use Rattle.hib_bulk.specs.Factory.{HasGoneOn};
ghost use Rattle.hib_bulk.specs.Kept.{past};
ghost use Rattle.hib_bulk.specs.Run.{Obeys};
ghost use Rattle.hib_bulk.specs.Played.{AreOver, has_next, is_by, is_played, number_count, play_numbers, play_order};
ghost use Rattle.hib_bulk.specs.Played.{play_script};

use crate::factory::BulkFactory;
use crate::names::Name;
use hib_base::{Order, SessionNo};
use hib_engines::Stepped;
use hib_outside::Keeper;
use std::alloc::{AllocError, Global};

impl<K: Keeper, N: Name> BulkFactory<K, N> {
    /// Runs a session or a line for `steps` steps, or to its end if that comes before. One that isn't there has none.
    /// If memory runs out the steps so far stand.
    fn run_steps(&mut self, alloc: Global, number: SessionNo, steps: u32) -> Result<(), AllocError>
        ensures played { OnOk result (Leads
            (play_steps (has_next N.script N.lines) is_by number steps) played
            (past self.old.journal) (past self.new.journal)) }
        ensures stands { OnErr result (HasGoneOn self.old self.new) }
    {
        if number.0 as usize >= self.numbers() {
            return Ok(());
        }
        for step in 0..steps {
            match self.step(alloc, number)? {
                Stepped::Did => {}
                Stepped::Done => return Ok(()),
            }
        }
        Ok(())
    }

    /// Runs a session or a line to its end. There must be one of this number. If memory runs out the steps so far
    /// stand.
    pub fn run_session(&mut self, alloc: Global, number: SessionNo) -> Result<(), AllocError>
        requires known { number < number_count N.script N.lines }
        ensures played { OnOk result (Leads (play_all (has_next N.script N.lines) is_by number)
            played (past self.old.journal) (past self.new.journal)) }
        ensures over { OnOk result
            (has_next N.script N.lines (past self.new.journal) number ≡ false) }
        ensures stay { OnOk result ((s : ℕ) → (number == s) ≡ false
            → has_next N.script N.lines (past self.new.journal) s
            ≡ has_next N.script N.lines (past self.old.journal) s) }
        ensures law { Obeys N.script N.lines N.from.tables (past self.new.journal) }
        ensures stands { OnErr result (HasGoneOn self.old self.new) }
    {
        'steps: loop {
            match self.step(alloc, number)? {
                Stepped::Did => self.short(),
                Stepped::Done => return Ok(()),
            }
        }
    }

    /// Runs each session and then each line to its end, the first one first. If memory runs out the steps so far stand.
    fn finish(&mut self, alloc: Global) -> Result<(), AllocError>
        ensures played { OnOk result (Leads (play_numbers N.script N.lines) played
            (past self.old.journal) (past self.new.journal)) }
        ensures over { OnOk result (AreOver N.script N.lines (past self.new.journal)) }
        ensures stands { OnErr result (HasGoneOn self.old self.new) }
    {
        for number in 0..self.numbers() {
            self.run_session(alloc, SessionNo(number as u32))?;
        }
        Ok(())
    }

    /// Carries an order out, if it runs a session or a line. Other orders do nothing here.
    fn obey(&mut self, alloc: Global, order: Order) -> Result<(), AllocError>
        ensures played { OnOk result (Leads (play_order N.script N.lines order) played
            (past self.old.journal) (past self.new.journal)) }
        ensures stands { OnErr result (HasGoneOn self.old self.new) }
    {
        let Order::Run { session, steps } = order else {
            return Ok(());
        };
        self.run_steps(alloc, session, steps)
    }

    /// Carries the orders out, one after the other.
    fn follow_orders(&mut self, alloc: Global) -> Result<(), AllocError>
        ensures played { OnOk result (Leads (play_each (play_order N.script N.lines) N.orders)
            played (past self.old.journal) (past self.new.journal)) }
        ensures stands { OnErr result (HasGoneOn self.old self.new) }
    {
        for at in 0..self.orders() {
            let order = self.order(at);
            self.obey(alloc, order)?;
        }
        Ok(())
    }

    /// Plays the orders, and then runs the rest to its end.
    fn run_all(&mut self, alloc: Global) -> Result<(), AllocError>
        ensures leads { OnOk result (Leads (play_script N.script N.lines N.orders) played
            (past self.old.journal) (past self.new.journal)) }
        ensures over { OnOk result (AreOver N.script N.lines (past self.new.journal)) }
        ensures stands { OnErr result (HasGoneOn self.old self.new) }
    {
        self.follow_orders(alloc)?;
        self.finish(alloc)
    }

    /// Plays the orders, one after the other, and then each session to its end, the first one first, and each line
    /// after them. If memory runs out it stops there, and the steps so far stand.
    pub fn play(&mut self, alloc: Global) -> Result<(), AllocError>
        ensures played { OnOk result (past self.old.journal ≡ []
            → is_played N.script N.lines N.orders (past self.new.journal) ≡ true) }
        ensures leads { OnOk result (Leads (play_script N.script N.lines N.orders) played
            (past self.old.journal) (past self.new.journal)) }
        ensures over { OnOk result (AreOver N.script N.lines (past self.new.journal)) }
        ensures law { Obeys N.script N.lines N.from.tables (past self.new.journal) }
        ensures stands { OnErr result (HasGoneOn self.old self.new) }
    {
        let ran = self.run_all(alloc);
        self.lawful();
        ran
    }
}
