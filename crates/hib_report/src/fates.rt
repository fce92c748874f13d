// What became of the sessions, found in one pass over the entries: who was killed, by name or as one that was open at a
// restart, and with which outcome each ended.
ghost use Rattle.std.specs.Prelude.{◌≡◌, ◌||◌, ◌<◌, ℕ, if◌then◌else◌, true, length, slice_get, IfOk, Some, reverse};
ghost use Rattle.std.specs.Option.{option_map};
ghost use Rattle.hib_journal.specs.Sessions.{is_by};
ghost use Rattle.hib_journal.specs.Legal.{outcome_after};
ghost use Rattle.hib_report.specs.declared.fates.Fate.{Fate};
ghost use Rattle.hib_report.specs.Fates.{is_lost_at, own_noted, kill_noted, kills, restart_after, IsFateOf};

use hib_base::{Act, Commit, Entry, Outcome, Reply};
use std::alloc::{AllocError, Global};

/// What is known of a session.
#[derive(Clone, Copy)]
pub struct Fate {
    /// The place of the Begin after which it has not ended and was not killed by name.
    pub opened: Option<usize>,
    /// It was killed by name, or was open at a restart and began again.
    pub killed: bool,
    /// The outcome of its last transaction.
    pub outcome: Outcome,
}

/// The outcome of a transaction after one of its session's entries.
fn outcome_after(act: &Act, reply: &Reply, outcome: Outcome) -> Outcome
    ensures { result ≡ outcome_after act.now reply.now outcome }
{
    match act {
        Act::Rollback => Outcome::RolledBack,
        Act::Commit => match reply {
            Reply::Commit(Commit::Committed) => Outcome::Committed,
            Reply::Commit(Commit::Stale { .. }) => Outcome::Stale,
            Reply::Commit(Commit::Duplicate { .. }) => Outcome::Duplicate,
            Reply::Commit(Commit::Fault) => Outcome::Fault,
            _ => outcome,
        },
        _ => outcome,
    }
}

impl Fate {
    /// Whether it was killed, if the last restart is before this place.
    pub fn is_killed(self, restart: usize) -> bool
        ensures { result ≡ (self.killed || is_lost_at restart self.opened) }
    {
        match self.opened {
            Some(place) => self.killed || place < restart,
            None => self.killed,
        }
    }

    /// After an entry of its own.
    fn noted(self, restart: usize, place: usize, entry: &Entry) -> Fate
        ensures { result ≡ own_noted restart place entry.now.act entry.now.reply self }
    {
        match entry.act {
            Act::Begin => Fate {
                opened: Some(place),
                killed: self.is_killed(restart),
                outcome: self.outcome,
            },
            Act::End => Fate {
                opened: None,
                killed: self.is_killed(restart),
                outcome: self.outcome,
            },
            _ => Fate {
                opened: self.opened,
                killed: self.killed,
                outcome: outcome_after(&entry.act, &entry.reply, self.outcome),
            },
        }
    }

    /// After a kill that names it.
    fn after_kill(self) -> Fate
        ensures { result ≡ kill_noted self }
    {
        Fate {
            opened: None,
            killed: true,
            outcome: self.outcome,
        }
    }
}

/// Notes an entry of a session, if there is one.
fn note_own(fates: &mut Vec<Fate>, restart: usize, place: usize, entry: &Entry)
    ensures all { length fates.new.items ≡ length fates.old.items }
    ensures each { (s : ℕ) → slice_get fates.new.items s
        ≡ option_map (λ f. if is_by s entry.now
        then own_noted restart place entry.now.act entry.now.reply f else f)
        (slice_get fates.old.items s) }
{
    let Some(session) = entry.session else {
        return;
    };
    let number = session.0 as usize;
    if number < fates.len() {
        fates[number] = fates[number].noted(restart, place, entry);
    }
}

/// Notes a kill of a session by name, if an act is one.
fn note_kill(fates: &mut Vec<Fate>, act: &Act)
    ensures all { length fates.new.items ≡ length fates.old.items }
    ensures each { (s : ℕ) → slice_get fates.new.items s
        ≡ option_map (λ f. if kills s act.now then kill_noted f else f) (slice_get fates.old.items s) }
{
    let Act::Kill { session } = act else {
        return;
    };
    let number = session.0 as usize;
    if number < fates.len() {
        fates[number] = fates[number].after_kill();
    }
}

/// The place after the last restart, if `next` is the place after an act.
fn restart_after(next: usize, act: &Act, restart: usize) -> usize
    ensures { result ≡ restart_after next act.now restart }
{
    match act {
        Act::Restart => next,
        _ => restart,
    }
}

/// What became of sessions.
#[derive(Drop)]
pub struct Fates {
    /// What is known of each session, by number.
    pub fates: Vec<Fate>,
    /// The place after the last restart.
    pub restart: usize,
}

impl Fates {
    /// Of the first sessions, that many, after these entries.
    pub fn of(alloc: Global, sessions: usize, entries: &[Entry]) -> Result<Fates, AllocError>
        ensures all { IfOk result (λ x. length x.fates.items ≡ sessions) }
        ensures each { IfOk result (λ x. (s : ℕ) (f : Fate) → slice_get x.fates.items s ≡ Some f
            → IsFateOf x.restart (length entries.now) s f (reverse entries.now)) }
    {
        let fresh = Fate {
            opened: None,
            killed: false,
            outcome: Outcome::RolledBack,
        };
        let mut fates = vec![in alloc; fresh; sessions]?;
        let mut restart = 0;
        for place in 0..entries.len() {
            let entry = &entries[place];
            note_kill(&mut fates, &entry.act);
            note_own(&mut fates, restart, place, entry);
            restart = restart_after(place + 1, &entry.act, restart);
        }
        Ok(Fates { fates, restart })
    }
}
