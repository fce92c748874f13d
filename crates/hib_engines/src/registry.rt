// The engine of the registry: which sessions have a transaction open, since when, and so the floor.
ghost use Rattle.std.specs.Prelude.{◌≡◌, ◌↔◌, ◌∷◌, ◌++◌, ◌<◌, ◌==◌, [], ℕ, nat_eq, IsTrue, None, Some, OnErr, OnOk, IfOk, false};
ghost use Rattle.std.specs.List.{list_any, IsDistinct};
ghost use Rattle.hib_base.specs.declared.entries.Act.{Act};
ghost use Rattle.hib_base.specs.declared.replies.Reply.{Reply};
ghost use Rattle.hib_base.specs.declared.scripts.Script.{Script as Said};
ghost use Rattle.hib_journal.specs.Types.{Part};
ghost use Rattle.hib_journal.specs.Held.{is_begin};
ghost use Rattle.hib_journal.specs.Sessions.{Journal};
ghost use Rattle.hib_journal.specs.Lists.{entry_at, IsLate};
ghost use Rattle.hib_journal.specs.Runs.{is_fault};
ghost use Rattle.hib_engines.specs.Registry.{Each, floor_in, least_in, without, time_of, holds, IsRegistry, IsLeast};
ghost use Rattle.hib_engines.specs.Served.{IsServed};

use hib_base::{Act, Reply, SessionNo, Tick};
use indexmap::IndexMap;
use std::alloc::{AllocError, Global};
use std::collections::BTreeMap;
use std::marker::Model;

/// The open sessions with their times. The floor and a session's own time are found without a search.
#[derive(Drop)]
pub struct Registry {
    /// The sessions by the ticks at which they began.
    begun: BTreeMap<u64, SessionNo>,
    /// Their ticks by the sessions.
    times: IndexMap<SessionNo, Tick>,
}

impl Model for Registry {
    ghost use Rattle.std.specs.Prelude.{ℕ, List};
    ghost use Rattle.hib_engines.specs.Registry.{by_session, IsIndexed};

    ghost Value = { List (ℕ × ℕ) };

    ghost view = { λ r. by_session r.begun.entries };

    ghost invariant = { λ r. IsIndexed r.begun.entries r.times.entries };
}

impl Registry {
    /// The registry in which no session is open.
    pub fn new(alloc: Global) -> Registry
        ensures { result ≡ [] }
    {
        Registry {
            begun: BTreeMap::new(alloc),
            times: IndexMap::new(alloc),
        }
    }

    /// The floor for a session that begins now: the least time among the open sessions and its own.
    pub fn floor(&self, now: Tick) -> Tick
        ensures { result ≡ floor_in self.now now }
    {
        match self.begun.first_key_value() {
            Some((oldest, _)) => Tick(*oldest),
            None => now,
        }
    }

    /// The time of the session that has been open for longest, if one is open.
    fn oldest(&self) -> Option<Tick>
        ensures { result ≡ least_in self.now }
    {
        match self.begun.first_key_value() {
            Some((oldest, _)) => Some(Tick(*oldest)),
            None => None,
        }
    }

    /// The least time of the open sessions; none if and only if none is open.
    pub fn least(&self) -> Option<Tick>
        ensures { (l : Journal) → IsRegistry self.now l → IsLeast result l }
    {
        self.oldest()
    }

    /// Whether all open sessions began before this tick. A session begins only if they did.
    fn is_after_all(&self, now: Tick) -> bool
        ensures { IsTrue result ↔ Each (λ t. t < now) self.now }
    {
        match self.begun.last_key_value() {
            Some((newest, _)) => *newest < now.0,
            None => true,
        }
    }

    /// Notes that a session is open from this tick on, and no more from an earlier one. All open sessions must have
    /// begun before it. At an error nothing has changed.
    fn open_at(&mut self, session: SessionNo, now: Tick) -> Result<(), AllocError>
        requires { Each (λ t. t < now) self.old }
        ensures ok { OnOk result (self.new ≡ without session self.old ++ (session, now) ∷ []) }
        ensures err { OnErr result (self.new ≡ self.old) }
    {
        self.times.reserve(1)?;
        self.begun.insert(now.0, session)?;
        if let Some(before) = self.times.insert(session, now)? {
            self.begun.remove(&before.0);
        }
        Ok(())
    }

    /// Begins a session: the least time among the open sessions is its floor. At an error nothing has changed.
    fn begin(&mut self, session: SessionNo, now: Tick) -> Result<Reply, AllocError>
        ensures reply { IfOk result (λ r. Each (λ t. t < now) self.old
            → r ≡ Reply.Began (floor_in self.old now)) }
        ensures state { OnOk result (Each (λ t. t < now) self.old
            → self.new ≡ without session self.old ++ (session, now) ∷ []) }
        ensures calm { IfOk result (λ r. is_fault r ≡ false) }
        ensures err { OnErr result (self.new ≡ self.old) }
    {
        if !self.is_after_all(now) {
            // Nobody begins before one that is open.
            return Ok(Reply::Done);
        }
        let floor = self.floor(now);
        self.open_at(session, now)?;
        Ok(Reply::Began { floor })
    }

    /// Answers the Begin of a session at this tick. Another act is answered Done and changes nothing, since none is
    /// asked of the registry. At an error nothing has changed.
    pub fn serve(&mut self, session: SessionNo, act: &Act, now: Tick) -> Result<Reply, AllocError>
        ensures answered { IfOk result (λ r. (script : Said) (l : Journal) → IsRegistry self.old l
            → IsLate Part.Registry now l → act.now ≡ Act.Begin
            → IsServed (λ m. IsRegistry self.new m) script l (Some session) now act.now r) }
        ensures other { IfOk result (λ r. is_begin act.now ≡ false
            → (r ≡ Reply.Done) × (self.new ≡ self.old)) }
        ensures calm { IfOk result (λ r. is_fault r ≡ false) }
        ensures err { OnErr result (self.new ≡ self.old) }
    {
        match act {
            Act::Begin => self.begin(session, now),
            _ => Ok(Reply::Done),
        }
    }

    /// Whether a session is open.
    pub fn is_open(&self, session: SessionNo) -> bool
        ensures { result ≡ holds session self.now }
    {
        self.times.contains_key(&session)
    }

    /// When an open session began; none if it isn't open.
    pub fn time(&self, session: SessionNo) -> Option<Tick>
        ensures { result ≡ time_of self.now session }
    {
        self.times.get(&session).copied()
    }

    /// The open sessions, each once, in no order.
    pub fn open_sessions(&self) -> &[SessionNo]
        ensures which { (s : ℕ) → list_any (λ n. n == s) result.now ≡ holds s self.now }
        ensures once { IsDistinct nat_eq result.now }
    {
        self.times.keys().as_slice()
    }

    /// Ends a session, which isn't open any more. It takes no memory.
    pub fn end(&mut self, session: SessionNo)
        ensures gone { self.new ≡ without session self.old }
        ensures stands { (l : Journal) (now : ℕ) (r : Reply) → IsRegistry self.old l
            → IsLate Part.Registry now l → IsRegistry self.new
            (entry_at now (Some session) Act.End r ∷ l) }
    {
        if let Some(time) = self.times.swap_remove(&session) {
            self.begun.remove(&time.0);
        }
    }

    /// Does a kill: the session isn't open any more. It takes no memory.
    pub fn kill(&mut self, session: SessionNo)
        ensures gone { self.new ≡ without session self.old }
        ensures stands { (l : Journal) (now : ℕ) → IsRegistry self.old l
            → IsLate Part.Registry now l → IsRegistry self.new
            (entry_at now None (Act.Kill session) Reply.Done ∷ l) }
    {
        self.end(session);
    }

    /// A restart: no session is open any more. It takes no memory.
    pub fn restart(&mut self)
        ensures gone { self.new ≡ [] }
        ensures stands { (l : Journal) (now : ℕ) → IsRegistry self.old l
            → IsLate Part.Registry now l → IsRegistry self.new
            (entry_at now None Act.Restart Reply.Done ∷ l) }
    {
        self.begun.clear();
        self.times.clear();
    }
}
