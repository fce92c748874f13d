// Which keys are unsound after the entries that were noted, by what is known of each key since the last restart:
// whether a lock on it ran out, and whether a commit inserted it after one had deleted it. Each entry is noted once.

ghost use Rattle.std.specs.Prelude.{◌≡◌, ◌∷◌, [], ℕ, if◌then◌else◌, ◌&&◌, ◌==◌, OnOk, Some, true, false};
ghost use Rattle.hib_base.specs.Keys.{same_key};
ghost use Rattle.hib_journal.specs.Types.{Key};
ghost use Rattle.hib_journal.specs.Sessions.{Journal, is_by, is_restart, committer};
ghost use Rattle.hib_journal.specs.Slot.{touch};
ghost use Rattle.hib_journal.specs.Sound.{is_sound, leaves_calm};
ghost use Rattle.hib_report.specs.Watch.{fresh, course_at, written_at, reused_if, deleted_if, calm_if, change_noted, act_noted, nothing_written, names_key, not_named, committed_by, Watches};

use hib_base::{Act, Change, Entry, Key, Seq, SessionNo};
use hib_journal::{committer, is_upset};
use hib_listeners::key_in;
use indexmap::IndexMap;
use std::alloc::{AllocError, Global};

/// What is known of a key.
#[derive(Clone, Copy)]
pub struct Course {
    /// No lock on it ran out before its time.
    pub calm: bool,
    /// A commit deleted it.
    pub deleted: bool,
    /// A commit inserted it after one had deleted it.
    pub reused: bool,
}

impl Course {
    /// After a commit that inserted the key.
    fn inserted(self) -> Course
        ensures { result ≡ reused_if true self }
    {
        Course {
            calm: self.calm,
            deleted: self.deleted,
            reused: self.reused || self.deleted,
        }
    }

    /// After a lock on the key ran out before its time.
    fn upset(self) -> Course
        ensures { result ≡ calm_if false self }
    {
        Course {
            calm: false,
            deleted: self.deleted,
            reused: self.reused,
        }
    }
}

const FRESH: Course = Course {
    calm: true,
    deleted: false,
    reused: false,
};

/// The keys that a session's changes insert and delete, since its last Begin, in order.
#[derive(Drop)]
pub struct Written {
    /// The inserted ones.
    pub inserted: Seq<Key>,
    /// The deleted ones.
    pub deleted: Seq<Key>,
}

impl Written {
    fn new(alloc: Global) -> Written
        ensures { result ≡ nothing_written }
    {
        Written {
            inserted: Seq::new(alloc),
            deleted: Seq::new(alloc),
        }
    }

    fn note(&mut self, change: &Change) -> Result<(), AllocError>
        ensures { OnOk result (self.new ≡ change_noted change.now self.old) }
    {
        match change {
            Change::Insert { key, .. } => self.inserted.push(*key),
            Change::Delete { key, .. } => self.deleted.push(*key),
            Change::Update { .. } => Ok(()),
        }
    }
}

/// What is known of the keys; of one that isn't there nothing has happened.
type Courses = IndexMap<Key, Course>;

fn course_of(courses: &Courses, key: Key) -> Course
    ensures { result ≡ course_at courses.now.entries key }
{
    match courses.get(&key) {
        Some(course) => *course,
        None => FRESH,
    }
}

fn set_course(courses: &mut Courses, key: Key, course: Course) -> Result<(), AllocError>
    ensures { OnOk result ((k : Key)
        → course_at courses.new.entries k
        ≡ (if same_key key k then course else course_at courses.old.entries k)) }
{
    courses.insert(key, course)?;
    Ok(())
}

/// A commit has inserted these keys.
#[tactic(auto, using(crate::proofs::Watched::reused_twice))]
fn insert_all(courses: &mut Courses, keys: &[Key]) -> Result<(), AllocError>
    ensures { OnOk result ((k : Key)
        → course_at courses.new.entries k
        ≡ reused_if (names_key k keys.now) (course_at courses.old.entries k)) }
{
    for key in keys {
        let course = course_of(courses, *key).inserted();
        set_course(courses, *key, course)?;
    }
    Ok(())
}

/// A commit has deleted these keys.
fn delete_all(courses: &mut Courses, keys: &[Key]) -> Result<(), AllocError>
    ensures { OnOk result ((k : Key)
        → course_at courses.new.entries k
        ≡ deleted_if (names_key k keys.now) (course_at courses.old.entries k)) }
{
    for key in keys {
        let mut course = course_of(courses, *key);
        course.deleted = true;
        set_course(courses, *key, course)?;
    }
    Ok(())
}

/// The key on which an entry tells that a lock ran out before its time, if it does.
fn upset_key(entry: &Entry) -> Option<Key>
    ensures { (k : Key) → leaves_calm (touch k entry.now) ≡ not_named k result }
{
    let key = key_in(&entry.act)?;
    if is_upset(&entry.act, &entry.reply) {
        Some(key)
    } else {
        None
    }
}

/// Notes what an entry answers of a key. A restart lets all be forgotten.
fn note_answer(courses: &mut Courses, entry: &Entry) -> Result<(), AllocError>
    ensures { OnOk result ((k : Key)
        → course_at courses.new.entries k
        ≡ (if is_restart entry.now.act then fresh
        else calm_if (leaves_calm (touch k entry.now)) (course_at courses.old.entries k))) }
{
    if matches!(entry.act, Act::Restart) {
        courses.clear();
        return Ok(());
    }
    match upset_key(entry) {
        Some(key) => upset(courses, &key),
        None => Ok(()),
    }
}

/// A lock on a key ran out before its time.
fn upset(courses: &mut Courses, key: &Key) -> Result<(), AllocError>
    ensures { OnOk result ((k : Key)
        → course_at courses.new.entries k
        ≡ calm_if (not_named k (Some key.now)) (course_at courses.old.entries k)) }
{
    let course = course_of(courses, *key).upset();
    set_course(courses, *key, course)
}

/// The keys that sessions have written since their last Begin, by the sessions' numbers.
type Writers = IndexMap<u32, Written>;

/// Notes that a session commits what it has written.
fn commit_all(
    courses: &mut Courses,
    written: &Writers,
    session: SessionNo,
) -> Result<(), AllocError>
    ensures { OnOk result ((k : Key)
        → course_at courses.new.entries k
        ≡ committed_by (Some session) written.now.entries k (course_at courses.old.entries k)) }
{
    match written.get(&session.0) {
        Some(own) => {
            insert_all(courses, own.inserted.as_slice())?;
            delete_all(courses, own.deleted.as_slice())
        }
        None => Ok(()),
    }
}

/// Notes what an entry commits.
fn note_commit(courses: &mut Courses, written: &Writers, entry: &Entry) -> Result<(), AllocError>
    ensures { OnOk result ((k : Key)
        → course_at courses.new.entries k
        ≡ committed_by (committer entry.now.act entry.now.reply entry.now.session)
        written.now.entries k (course_at courses.old.entries k)) }
{
    match committer(entry) {
        Some(session) => commit_all(courses, written, session),
        None => Ok(()),
    }
}

/// What a session has written, taken out.
fn take_written(alloc: Global, written: &mut Writers, session: SessionNo) -> Written
    ensures taken { result ≡ written_at written.old.entries session }
    ensures rest { (s : ℕ) → written_at written.new.entries s
        ≡ (if session == s then nothing_written else written_at written.old.entries s) }
{
    match written.swap_remove(&session.0) {
        Some(own) => own,
        None => Written::new(alloc),
    }
}

/// Notes a change that a session writes.
fn note_change(
    alloc: Global,
    written: &mut Writers,
    session: SessionNo,
    change: &Change,
) -> Result<(), AllocError>
    ensures { OnOk result ((s : ℕ)
        → written_at written.new.entries s
        ≡ (if session == s then change_noted change.now (written_at written.old.entries s)
        else written_at written.old.entries s)) }
{
    let mut own = take_written(alloc, written, session);
    own.note(change)?;
    written.insert(session.0, own)?;
    Ok(())
}

/// Notes what an act of a session writes, for its commit. With a Begin it has written nothing.
fn note_act(
    alloc: Global,
    written: &mut Writers,
    session: SessionNo,
    act: &Act,
) -> Result<(), AllocError>
    ensures { OnOk result ((s : ℕ)
        → written_at written.new.entries s
        ≡ (if session == s then act_noted act.now (written_at written.old.entries s)
        else written_at written.old.entries s)) }
{
    match act {
        Act::Begin => {
            let _ = take_written(alloc, written, session);
            Ok(())
        }
        Act::Write(change) => note_change(alloc, written, session, change),
        _ => Ok(()),
    }
}

/// Notes what an entry writes.
fn note_written(alloc: Global, written: &mut Writers, entry: &Entry) -> Result<(), AllocError>
    ensures { OnOk result ((s : ℕ)
        → written_at written.new.entries s
        ≡ (if is_by s entry.now then act_noted entry.now.act (written_at written.old.entries s)
        else written_at written.old.entries s)) }
{
    match entry.session {
        Some(session) => note_act(alloc, written, session, &entry.act),
        None => Ok(()),
    }
}

/// What is known of keys after the entries that were noted.
#[derive(Drop)]
pub struct Watch {
    courses: Courses,
    written: Writers,
}

impl Watch {
    /// Nothing was noted.
    pub fn new(alloc: Global) -> Watch
        ensures { Watches result.courses.entries result.written.entries [] }
    {
        Watch {
            courses: IndexMap::new(alloc),
            written: IndexMap::new(alloc),
        }
    }

    /// Notes an entry, the next one of the journal.
    pub fn note(&mut self, alloc: Global, entry: &Entry) -> Result<(), AllocError>
        ensures { OnOk result ((past : Journal)
            → Watches self.old.courses.entries self.old.written.entries past
            → Watches self.new.courses.entries self.new.written.entries (entry.now ∷ past)) }
    {
        note_answer(&mut self.courses, entry)?;
        note_commit(&mut self.courses, &self.written, entry)?;
        note_written(alloc, &mut self.written, entry)
    }

    /// Whether nothing was noted of any key, so that each one is sound.
    pub fn is_quiet(&self) -> bool
        ensures { result ≡ true → (past : Journal) (key : Key)
            → Watches self.now.courses.entries self.now.written.entries past
            → is_sound key past ≡ true }
    {
        self.courses.is_empty()
    }

    /// Whether a key is sound after the entries that were noted.
    #[tactic(auto, unfolding(hib_journal::specs::Sound::is_sound))]
    pub fn is_sound(&self, key: &Key) -> bool
        ensures { (past : Journal) → Watches self.now.courses.entries self.now.written.entries past
            → result ≡ is_sound key.now past }
    {
        let course = course_of(&self.courses, *key);
        course.calm && !course.reused
    }
}
