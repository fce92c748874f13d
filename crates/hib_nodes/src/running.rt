// `nodes` plays the orders of its section, runs the sessions to their ends, and delivers what waits.
ghost use Rattle.std.specs.Prelude.{◌≡◌, ◌<◌, ◌==◌, ℕ, [], length, OnOk, OnErr, true, false};
ghost use Rattle.hib_playing.specs.Playing.{GoesOn, Leads, play_all, play_each, play_steps, play_then, played};
ghost use Rattle.hib_nodes_law.specs.Nodes.{queue};
ghost use Rattle.hib_nodes.specs.Kept.{past};
ghost use Rattle.hib_nodes.specs.Played.{AreOver, has_next, is_by, is_played, play_order, play_queue, play_script};
ghost use Rattle.hib_nodes.specs.Played.{play_sessions};
ghost use Rattle.hib_nodes.specs.Run.{HasStopped, IsAskedOnceMore, Obeys};
ghost use Rattle.hib_nodes.specs.Standing.{is_node};

use crate::names::Name;
use crate::nodes::Nodes;
use hib_base::SessionNo;
use hib_engines::Stepped;
use hib_nodes_law::NodeOrder;
use hib_outside::Keeper;
use std::alloc::{AllocError, Global};

impl<K: Keeper, N: Name> Nodes<K, N> {
    /// Runs a session for `steps` steps, or to its end if that comes before. A session that isn't there has none. If
    /// memory runs out the steps so far stand.
    fn run_steps(&mut self, alloc: Global, number: SessionNo, steps: u32) -> Result<(), AllocError>
        ensures played { OnOk result (Leads (play_steps (has_next N.script) is_by number steps) played
            (past self.old.journal) (past self.new.journal)) }
        ensures going { OnOk result (self.new.refused ≡ self.old.refused) }
        ensures stopped { OnErr result (HasStopped N.from self.old self.new) }
    {
        if number.0 as usize >= self.sessions() {
            return Ok(());
        }
        for step in 0..steps {
            match self.step(alloc, number)? {
                Stepped::Did => {}
                Stepped::Done => return Ok(()),
            }
        }
        Ok(())
    }

    /// Runs a session to its end. It must be the script's. If memory runs out the steps so far stand.
    fn run_session(&mut self, alloc: Global, number: SessionNo) -> Result<(), AllocError>
        requires known { number < length N.script.sessions }
        ensures played { OnOk result (Leads (play_all (has_next N.script) is_by number) played
            (past self.old.journal) (past self.new.journal)) }
        ensures over { OnOk result (has_next N.script (past self.new.journal) number ≡ false) }
        ensures stay { OnOk result ((s : ℕ) → (number == s) ≡ false
            → has_next N.script (past self.new.journal) s
            ≡ has_next N.script (past self.old.journal) s) }
        ensures going { OnOk result (self.new.refused ≡ self.old.refused) }
        ensures stopped { OnErr result (HasStopped N.from self.old self.new) }
    {
        'steps: loop {
            match self.step(alloc, number)? {
                Stepped::Did => self.short(),
                Stepped::Done => return Ok(()),
            }
        }
    }

    /// Runs each session to its end, the first one first. If memory runs out the steps so far stand.
    fn finish(&mut self, alloc: Global) -> Result<(), AllocError>
        ensures played { OnOk result (Leads (play_sessions N.script) played
            (past self.old.journal) (past self.new.journal)) }
        ensures over { OnOk result (AreOver N.script (past self.new.journal)) }
        ensures going { OnOk result (self.new.refused ≡ self.old.refused) }
        ensures stopped { OnErr result (HasStopped N.from self.old self.new) }
    {
        for number in 0..self.sessions() {
            self.run_session(alloc, SessionNo(number as u32))?;
        }
        Ok(())
    }

    /// Delivers all that waits for a node. If memory runs out the deliveries so far stand.
    fn deliver_all(&mut self, node: u8) -> Result<(), AllocError>
        requires node { is_node node ≡ true }
        ensures played { OnOk result (Leads (play_queue N.script node) played
            (past self.old.journal) (past self.new.journal)) }
        ensures empty { OnOk result (queue N.script node (past self.new.journal) ≡ []) }
        ensures others { OnOk result ((m : ℕ) → (node == m) ≡ false
            → queue N.script m (past self.new.journal)
            ≡ queue N.script m (past self.old.journal)) }
        ensures stay { OnOk result ((s : ℕ) → has_next N.script (past self.new.journal) s
            ≡ has_next N.script (past self.old.journal) s) }
        ensures going { OnOk result (self.new.refused ≡ self.old.refused) }
        ensures stopped { OnErr result (HasStopped N.from self.old self.new) }
    {
        'pairs: loop {
            if !self.deliver(node)? {
                return Ok(());
            }
        }
    }

    /// Carries an order out: a session runs, or the first pair that waits for a node is delivered. If memory runs out
    /// the entries so far stand.
    fn obey(&mut self, alloc: Global, order: NodeOrder) -> Result<(), AllocError>
        ensures played { OnOk result (Leads (play_order N.script order) played
            (past self.old.journal) (past self.new.journal)) }
        ensures going { OnOk result (self.new.refused ≡ self.old.refused) }
        ensures stopped { OnErr result (HasStopped N.from self.old self.new) }
    {
        match order {
            NodeOrder::Run { session, steps } => self.run_steps(alloc, session, steps),
            NodeOrder::Deliver { node } => {
                if node == 1 || node == 2 {
                    self.deliver(node)?;
                }
                Ok(())
            }
        }
    }

    /// Carries the orders out, one after the other. If memory runs out the entries so far stand.
    fn follow_orders(&mut self, alloc: Global) -> Result<(), AllocError>
        ensures played { OnOk result (Leads (play_each (play_order N.script) N.orders) played
            (past self.old.journal) (past self.new.journal)) }
        ensures going { OnOk result (self.new.refused ≡ self.old.refused) }
        ensures stopped { OnErr result (HasStopped N.from self.old self.new) }
    {
        for at in 0..self.orders() {
            let order = self.order(at);
            self.obey(alloc, order)?;
        }
        Ok(())
    }

    /// Delivers all that waits for node 1, and then for node 2. If memory runs out the deliveries so far stand.
    fn deliver_rest(&mut self) -> Result<(), AllocError>
        ensures played { OnOk result (Leads (play_then (play_queue N.script 1) (play_queue N.script 2))
            played (past self.old.journal) (past self.new.journal)) }
        ensures empty { OnOk result ((n : ℕ) → is_node n ≡ true
            → queue N.script n (past self.new.journal) ≡ []) }
        ensures stay { OnOk result ((s : ℕ) → has_next N.script (past self.new.journal) s
            ≡ has_next N.script (past self.old.journal) s) }
        ensures going { OnOk result (self.new.refused ≡ self.old.refused) }
        ensures stopped { OnErr result (HasStopped N.from self.old self.new) }
    {
        self.deliver_all(1)?;
        self.deliver_all(2)
    }

    /// Plays the orders, runs the sessions, and delivers what waits.
    fn run_all(&mut self, alloc: Global) -> Result<(), AllocError>
        ensures leads { OnOk result (Leads (play_script N.script N.orders) played
            (past self.old.journal) (past self.new.journal)) }
        ensures over { OnOk result (AreOver N.script (past self.new.journal)) }
        ensures empty { OnOk result ((n : ℕ) → is_node n ≡ true
            → queue N.script n (past self.new.journal) ≡ []) }
        ensures going { OnOk result (self.new.refused ≡ self.old.refused) }
        ensures stopped { OnErr result (HasStopped N.from self.old self.new) }
    {
        self.follow_orders(alloc)?;
        self.finish(alloc)?;
        self.deliver_rest()
    }

    /// Plays the script: the orders, one after the other, then each session to its end, the first one first, and then
    /// all that waits for node 1 and for node 2. If memory runs out it stops there, and the entries so far stand.
    pub fn play(&mut self, alloc: Global) -> Result<(), AllocError>
        ensures played { OnOk result (past self.old.journal ≡ []
            → is_played N.script N.orders (past self.new.journal) ≡ true) }
        ensures leads { OnOk result (Leads (play_script N.script N.orders) played
            (past self.old.journal) (past self.new.journal)) }
        ensures over { OnOk result (AreOver N.script (past self.new.journal)) }
        ensures empty { OnOk result ((n : ℕ) → is_node n ≡ true
            → queue N.script n (past self.new.journal) ≡ []) }
        ensures law { Obeys N.script N.places N.from.tables (past self.new.journal) }
        ensures going { OnOk result (self.new.refused ≡ self.old.refused) }
        ensures stands { OnErr result (GoesOn (past self.old.journal) (past self.new.journal)) }
        ensures asked { OnErr result (self.old.refused ≡ false
            → IsAskedOnceMore N.from (past self.new.journal) self.new.parts) }
        ensures refused { OnErr result (self.new.refused ≡ true) }
    {
        let ran = self.run_all(alloc);
        self.lawful();
        ran
    }
}
