// A disk that stops at a call. Step by step a keeper is given rows, the disk stops, and is opened again. A row's cell
// shows the step that wrote it.
use hib_base::{Cell, Cells, Change, EntityNo, Key, Mapping, Row, Seq};
use hib_keeper_sqlite::adopt;
use hib_outside::{Applied, Keeper};
use sqlite::{Connection, Files, Options};
use sqlite_disk::{Crash, Fuse, Memory};
use std::alloc::Global;
use std::io;

/// More calls than a run makes of one of its files.
const MOST_CALLS: u64 = 1000;

const STEPS: i64 = 4;

fn key(id: u64) -> Key {
    Key {
        entity: EntityNo(1),
        id,
    }
}

fn row(alloc: Global, step: i64) -> Option<Row> {
    let mut cells = Vec::new(alloc);
    cells.push(Cell::Int(step)).ok()?;
    Some(Row {
        version: None,
        cells: Cells::from_vec(cells).ok()?,
    })
}

/// Gives a keeper two rows, which is step 1.
fn seed<K: Keeper>(alloc: Global, keeper: &mut K) -> Option<()> {
    let mut rows = Vec::new(alloc);
    rows.push((key(1), row(alloc, 1)?)).ok()?;
    rows.push((key(2), row(alloc, 1)?)).ok()?;
    let mapping: Mapping = Seq::new(alloc);
    keeper.seed(alloc, &mapping, rows.as_slice()).ok()
}

fn update(alloc: Global, id: u64, step: i64) -> Option<Change> {
    Some(Change::Update {
        key: key(id),
        expected: None,
        row: row(alloc, step)?,
    })
}

/// Gives both rows the number of the step.
fn apply<K: Keeper>(alloc: Global, keeper: &mut K, step: i64) -> Option<()> {
    let mut batch = Vec::new(alloc);
    batch.push(update(alloc, 1, step)?).ok()?;
    batch.push(update(alloc, 2, step)?).ok()?;
    match keeper.apply(alloc, batch.as_slice()) {
        Ok(Applied::Done) => Some(()),
        _ => None,
    }
}

/// The last step that was answered with Done; 0 if the seed wasn't.
fn last_done<K: Keeper>(alloc: Global, keeper: &mut K) -> i64 {
    if seed(alloc, keeper).is_none() {
        return 0;
    }
    let mut done = 1;
    for step in 2..=STEPS {
        if apply(alloc, keeper, step).is_none() {
            return done;
        }
        done = step;
    }
    done
}

/// The step that a row shows; 0 if there is no row.
fn step_of<K: Keeper>(alloc: Global, keeper: &mut K, id: u64) -> Option<i64> {
    let Some(row) = keeper.read(alloc, key(id)).ok()? else {
        return Some(0);
    };
    match row.cells.as_slice() {
        [Cell::Int(step)] => Some(*step),
        _ => None,
    }
}

/// What a stop leaves.
#[derive(Clone, Copy, PartialEq, Eq)]
enum Left {
    /// No table: the file couldn't be opened, or its table not be made, before the stop.
    Nothing,
    /// The rows after a step, and none before one that was answered.
    Step,
    /// The same, and the run came to its end.
    Last,
    /// Something else.
    Broken,
}

/// What a keeper shows after a run whose last answered step is this.
fn judge<K: Keeper>(alloc: Global, keeper: &mut K, done: i64) -> Left {
    let first = step_of(alloc, keeper, 1);
    let second = step_of(alloc, keeper, 2);
    match (first, second) {
        (Some(first), Some(second)) if first == second && done <= first => {
            if done == STEPS {
                Left::Last
            } else {
                Left::Step
            }
        }
        _ => Left::Broken,
    }
}

/// What is known of a run over files that may stop.
#[derive(Clone, Copy)]
struct Course {
    /// The last step that was answered with Done, once the run is over.
    done: Option<i64>,
    left: Left,
}

impl Course {
    /// Gives the rows their numbers at the first visit, and judges what they show at the next.
    fn visit<K: Keeper>(&mut self, alloc: Global, keeper: &mut K) {
        match self.done {
            None => self.done = Some(last_done(alloc, keeper)),
            Some(done) => self.left = judge(alloc, keeper, done),
        }
    }
}

/// Opens a keeper over files, visits it, and takes its files after a crash. It has none if they couldn't be opened, or
/// its table not be made.
fn visit<D: Crash + Drop + Send>(
    alloc: Global,
    files: Files<D>,
    course: &mut Course,
) -> Option<Files<D>> {
    if !files.may_be_used() {
        return None;
    }
    let Ok(connection) = Connection::open_files(alloc, files, Options::new(7)) else {
        return None;
    };
    let mut keeper = adopt(connection).ok()?;
    course.visit(alloc, &mut keeper);
    let mut files = keeper.into_connection()?.into_store().close();
    files.log.crash();
    files.db.crash();
    Some(files)
}

/// Runs over files that may stop, and judges what is left after a crash.
fn after_stop<D: Crash + Drop + Send>(alloc: Global, files: Files<D>) -> Left {
    let mut course = Course {
        done: None,
        left: Left::Broken,
    };
    match visit(alloc, files, &mut course) {
        Some(files) => {
            let _files = visit(alloc, files, &mut course);
            course.left
        }
        None => Left::Nothing,
    }
}

/// A disk in memory, which counts its calls and stops at one of them.
type Disk = Fuse<Memory>;

/// An empty disk that stops after this many calls.
fn fused(alloc: Global, calls: u64) -> Disk {
    Fuse::new(Memory::new(alloc), calls)
}

/// Files of which the log or the database stops at a call.
fn files(alloc: Global, of_log: bool, calls: u64) -> Files<Disk> {
    let (log, db) = if of_log {
        (calls, u64::MAX)
    } else {
        (u64::MAX, calls)
    };
    Files {
        log: fused(alloc, log),
        db: fused(alloc, db),
    }
}

/// Stops the log or the database file at each call in turn, up to a run that ends before. Answers whether each time the
/// rows are those after one step, and none before one that was answered.
pub fn holds_at_each_stop(alloc: Global, of_log: bool) -> bool {
    for calls in 0..MOST_CALLS {
        match after_stop(alloc, files(alloc, of_log, calls)) {
            Left::Nothing | Left::Step => {}
            Left::Last => return true,
            Left::Broken => return false,
        }
    }
    false
}

/// Prints the line of what holds.
pub fn tell(rt: &impl Print, name: &str, holds: bool) -> io::Result<()> {
    let end = if holds { "ok" } else { "it isn't so" };
    println!(rt; "stops of the {name}: {end}")
}
