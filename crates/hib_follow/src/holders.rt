// Who holds the lock of each key: a line of sessions.
ghost use Rattle.std.specs.Prelude.{◌≡◌, ◌∷◌, if◌then◌else◌, [], OnOk};
ghost use Rattle.hib_base.specs.Keys.{same_key};
ghost use Rattle.hib_journal.specs.Coherence.{remove};
ghost use Rattle.hib_journal.specs.Types.{Key};
ghost use Rattle.hib_follow.specs.Holders.{line_after, line_at};

use hib_base::{Act, Entry, Key, SessionNo};
use indexmap::IndexMap;
use std::alloc::{AllocError, Global};

/// Those who hold a key, from the one that locked it last on.
#[derive(Drop)]
pub struct Line {
    /// Their numbers.
    pub sessions: Vec<SessionNo>,
}

/// By key, those who hold it. A key that isn't here is held by nobody.
type Lines = IndexMap<Key, Line>;

/// The line of a key, taken out.
fn take_line(alloc: Global, lines: &mut Lines, key: &Key) -> Line
    ensures taken { result.sessions.items ≡ line_at lines.old.entries key.now }
    ensures rest { (k : Key) → line_at lines.new.entries k
        ≡ (if same_key key.now k then [] else line_at lines.old.entries k) }
{
    match lines.swap_remove(key) {
        Some(line) => line,
        None => Line {
            sessions: Vec::new(alloc),
        },
    }
}

fn put_line(lines: &mut Lines, key: &Key, line: Line) -> Result<(), AllocError>
    ensures { OnOk result ((k : Key) → line_at lines.new.entries k
        ≡ (if same_key key.now k then line.sessions.items else line_at lines.old.entries k)) }
{
    lines.insert(*key, line)?;
    Ok(())
}

/// A session comes first in a line.
fn enter(sessions: &mut Vec<SessionNo>, session: SessionNo) -> Result<(), AllocError>
    ensures { OnOk result (sessions.new.items ≡ session ∷ sessions.old.items) }
{
    sessions.insert(0, session)?;
    Ok(())
}

/// The session that is named leaves, at the first place where it stands.
fn leave(sessions: &mut Vec<SessionNo>, session: SessionNo)
    ensures { sessions.new.items ≡ remove session sessions.old.items }
{
    for place in 0..sessions.len() {
        if sessions[place] == session {
            sessions.remove(place);
            return;
        }
    }
}

/// A session takes the lock of a key. At an error its holders are lost.
fn note_lock(
    alloc: Global,
    lines: &mut Lines,
    key: &Key,
    session: SessionNo,
) -> Result<(), AllocError>
    ensures { OnOk result ((k : Key) → line_at lines.new.entries k
        ≡ (if same_key key.now k then session ∷ line_at lines.old.entries k else line_at lines.old.entries k)) }
{
    let mut line = take_line(alloc, lines, key);
    enter(&mut line.sessions, session)?;
    put_line(lines, key, line)
}

/// A session gives the lock of a key back.
fn note_release(
    alloc: Global,
    lines: &mut Lines,
    key: &Key,
    session: SessionNo,
) -> Result<(), AllocError>
    ensures { OnOk result ((k : Key) → line_at lines.new.entries k
        ≡ (if same_key key.now k then remove session (line_at lines.old.entries k) else line_at lines.old.entries k)) }
{
    let mut line = take_line(alloc, lines, key);
    leave(&mut line.sessions, session);
    put_line(lines, key, line)
}

/// Who holds the lock of each key, since the last restart.
#[derive(Drop)]
pub struct Holders {
    /// By key, those who hold it.
    pub lines: Lines,
}

impl Holders {
    /// Before any entry.
    pub fn new(alloc: Global) -> Holders
        ensures { result.lines.entries ≡ [] }
    {
        Holders {
            lines: IndexMap::new(alloc),
        }
    }

    /// Those who hold a key, from the one that locked it last on.
    pub fn of(&self, key: &Key) -> &[SessionNo]
        ensures { result.now ≡ line_at self.now.lines.entries key.now }
    {
        match self.lines.get(key) {
            Some(line) => line.sessions.as_slice(),
            None => &[],
        }
    }

    /// Takes the next entry.
    pub fn note(&mut self, alloc: Global, entry: &Entry) -> Result<(), AllocError>
        ensures { OnOk result ((k : Key) → line_at self.new.lines.entries k
            ≡ line_after k entry.now (line_at self.old.lines.entries k)) }
    {
        if matches!(entry.act, Act::Restart) {
            self.lines.clear();
            return Ok(());
        }
        let Some(session) = entry.session else {
            return Ok(());
        };
        match &entry.act {
            Act::Lock { key, .. } => note_lock(alloc, &mut self.lines, key, session),
            Act::Unlock { key, .. } => note_release(alloc, &mut self.lines, key, session),
            Act::AfterUpdate { key, .. } => note_release(alloc, &mut self.lines, key, session),
            _ => Ok(()),
        }
    }
}
