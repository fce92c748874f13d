// The last ticks of a journal, of its parts and of its sessions.
ghost use Rattle.std.specs.Prelude.{◌≡◌, ◌∷◌, [], if◌then◌else◌, OnOk, Option, ℕ};
ghost use Rattle.hib_base.specs.declared.entries.Part.{Part as AnyPart};
ghost use Rattle.hib_journal.specs.Sessions.{Journal, same_part};
ghost use Rattle.hib_clock.specs.LastTicks.{AreLast, part_last, session_last};

use crate::last_ticks::LastTicks;
use hib_base::{Entry, Part, SessionNo, Tick};
use std::alloc::{AllocError, Global};
use std::marker::Model;

/// The last tick of all entries so far, of each part and of each session; 0 if there is none.
#[derive(Drop)]
pub struct Ticks {
    last: Tick,
    registry: Tick,
    store: Tick,
    stamps: Tick,
    results: Tick,
    regions: LastTicks,
    own: LastTicks,
    sessions: LastTicks,
}

impl Model for Ticks {
    ghost use Rattle.hib_clock.specs.LastTicks.{TicksState};

    ghost Value = { TicksState };

    ghost view = { λ t. record {
      last = t.last;
      registry = t.registry;
      store = t.store;
      stamps = t.stamps;
      results = t.results;
      regions = t.regions;
      own = t.own;
      sessions = t.sessions;
    } };
}

impl Ticks {
    /// No entry came yet. It takes no memory.
    pub fn new(alloc: Global) -> Ticks
        ensures { AreLast result [] }
    {
        Ticks {
            last: Tick(0),
            registry: Tick(0),
            store: Tick(0),
            stamps: Tick(0),
            results: Tick(0),
            regions: LastTicks::new(alloc),
            own: LastTicks::new(alloc),
            sessions: LastTicks::new(alloc),
        }
    }

    /// The last tick of all entries, or 0.
    pub fn last(&self) -> Tick
        ensures { result ≡ self.now.last }
    {
        self.last
    }

    /// The last tick of a part, or 0.
    pub fn of_part(&self, part: Part) -> Tick
        ensures { result ≡ part_last self.now part }
    {
        match part {
            Part::Registry => self.registry,
            Part::Store => self.store,
            Part::Stamps => self.stamps,
            Part::Results => self.results,
            Part::Region(entity) => self.regions.at(u32::from(entity.0)),
            Part::Own(session) => self.own.at(session.0),
        }
    }

    /// The last tick of a session, or 0.
    pub fn of_session(&self, session: Option<SessionNo>) -> Tick
        ensures { result ≡ session_last self.now session }
    {
        match session {
            Some(number) => self.sessions.at(number.0),
            None => Tick(0),
        }
    }

    /// Notes a tick as the last one of a part.
    fn note_part(&mut self, part: Part, tick: Tick) -> Result<(), AllocError>
        ensures parts { OnOk result ((p : AnyPart)
            → part_last self.new p ≡ (if same_part p part then tick else part_last self.old p)) }
        ensures sessions { self.new.sessions ≡ self.old.sessions }
        ensures last { self.new.last ≡ self.old.last }
    {
        match part {
            Part::Registry => self.registry = tick,
            Part::Store => self.store = tick,
            Part::Stamps => self.stamps = tick,
            Part::Results => self.results = tick,
            Part::Region(entity) => self.regions.set(u32::from(entity.0), tick)?,
            Part::Own(session) => self.own.set(session.0, tick)?,
        }
        Ok(())
    }

    /// Notes a tick as the last one of a session, if there is one.
    fn note_session(&mut self, session: Option<SessionNo>, tick: Tick) -> Result<(), AllocError>
        ensures parts { (p : AnyPart) → part_last self.new p ≡ part_last self.old p }
        ensures last { self.new.last ≡ self.old.last }
        ensures sessions { OnOk result ((s : Option ℕ)
            → session_last self.new s ≡ (if
            Rattle.hib_journal.specs.Sessions.same_session s session then tick
            else session_last self.old s)) }
    {
        match session {
            Some(number) => self.sessions.set(number.0, tick),
            None => Ok(()),
        }
    }

    /// Notes the tick of an entry as the last one, of its part and of its session, too. At an error it may have been
    /// noted of some of these alone.
    pub fn note(&mut self, entry: &Entry) -> Result<(), AllocError>
        ensures { OnOk result ((h : Journal) → AreLast self.old h
            → AreLast self.new (entry.now ∷ h)) }
    {
        self.last = entry.tick;
        self.note_part(entry.part, entry.tick)?;
        self.note_session(entry.session, entry.tick)
    }
}
