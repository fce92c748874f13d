// How the block of a statement begins, and what follows the reply to one of its acts. `control` has the stages.
ghost use Rattle.std.specs.Prelude.{◌≡◌, ◌∷◌, [], ◌*◌, ◌<◌, slice_get, IfOk, IsOk, is_some, List, true, false, Some};
ghost use Rattle.std.specs.Option.{option_map_or};
ghost use Rattle.hib_base.specs.declared.entries.Entry.{Entry};
ghost use Rattle.hib_base.specs.declared.entries.Act.{Act};
ghost use Rattle.hib_base.specs.declared.replies.Reply.{Reply};
ghost use Rattle.hib_base.specs.declared.scripts.Script.{Script};
ghost use Rattle.hib_base.specs.declared.scripts.Mode.{Mode};
ghost use Rattle.hib_journal.specs.Sessions.{Journal};
ghost use Rattle.hib_journal.specs.Plan.{Plan, after, each};
ghost use Rattle.hib_journal.specs.Next.{find, list, load_unless_hit, put_loaded, check_found, list_unless_fresh, keep_listed, block, mode_after, first_version, is_committed_reply, completion};
ghost use Rattle.hib_session.specs.Memory.{Knows, Recalls};
ghost use Rattle.hib_session.specs.Control.{staged, queued, is_due, rank};
ghost use Rattle.hib_session.specs.Ahead.{Ends, asks_rows, has_ending};

use crate::ahead::Ending;
use crate::control::Stage;
use crate::memory::Memory;
use hib_base::{
    Act, Acts, Cells, Checked, Commit, EntityNo, Entry, Key, Mode, QueryNo, Reply, Row, Script,
    Seq, Statement, copy_cells, copy_sets,
};
use std::alloc::{AllocError, Global};

/// A list of one act.
fn only(alloc: Global, act: Act) -> Result<Acts, AllocError>
    ensures { IfOk result (λ q. q ≡ act ∷ []) }
{
    let mut queue = Seq::new(alloc);
    queue.push(act)?;
    Ok(queue)
}

/// What follows the answer to a Get.
fn got(key: Key, reply: &Reply) -> Stage
    ensures follows { (script : Script) (mode : Mode) (done : Journal) (go : Journal → Plan) →
        staged script mode result done go ≡ load_unless_hit script mode key reply.now done go }
    ensures less { rank result < rank (Stage.Getting key) }
{
    match reply {
        Reply::Hit(_) => Stage::Idle,
        _ => Stage::Loading(key),
    }
}

/// The put of a row that was loaded, if its region may be asked to take it.
fn put_row(
    alloc: Global,
    script: &Script,
    memory: &Memory,
    mode: Mode,
    key: Key,
    row: &Row,
) -> Result<Acts, AllocError>
    ensures { IfOk result (λ q. (mine : Journal) (go : Journal → Plan) → Recalls memory.now mine →
        each q mine go ≡ put_loaded script.now mode key (Reply.Row (Some row.now)) mine go) }
{
    if !memory.puts(script, mode, key) {
        return Ok(Seq::new(alloc));
    }
    let time = memory.time;
    let floor = memory.floor;
    let act = Act::Put {
        key,
        row: row.copy(alloc)?,
        time,
        floor,
    };
    only(alloc, act)
}

/// The acts that follow the answer to a Load.
fn loaded(
    alloc: Global,
    script: &Script,
    memory: &Memory,
    mode: Mode,
    key: Key,
    reply: &Reply,
) -> Result<Acts, AllocError>
    ensures { IfOk result (λ q. (mine : Journal) (go : Journal → Plan) → Recalls memory.now mine →
        each q mine go ≡ put_loaded script.now mode key reply.now mine go) }
{
    match reply {
        Reply::Row(Some(row)) => put_row(alloc, script, memory, mode, key, row),
        _ => Ok(Seq::new(alloc)),
    }
}

/// The stage that follows the answer to a Look.
fn looked(query: QueryNo, reply: &Reply) -> Stage
    ensures follows { (script : Script) (mode : Mode) (done : Journal) (go : Journal → Plan) →
        staged script mode result done go ≡ check_found script mode query reply.now done go }
    ensures less { rank result < rank (Stage.Looking query) }
{
    match reply {
        Reply::Found { time, .. } => Stage::Checking(query, *time),
        _ => Stage::Listing(query),
    }
}

/// The stage that follows the answer to a Check.
fn checked(query: QueryNo, reply: &Reply) -> Stage
    ensures follows { (script : Script) (mode : Mode) (done : Journal) (go : Journal → Plan) →
        staged script mode result done go ≡ list_unless_fresh script mode query reply.now done go }
    ensures less { rank result < 2 }
{
    match reply {
        Reply::Check(Checked::Fresh) => Stage::Idle,
        _ => Stage::Listing(query),
    }
}

/// The acts that follow the answer to a List. The list is kept if the query's results may be used: the query keeps
/// results, the mode lets the session put, and no change in its transaction is of a table of the query.
fn listed(
    alloc: Global,
    script: &Script,
    memory: &Memory,
    mode: Mode,
    query: QueryNo,
    reply: &Reply,
) -> Result<Acts, AllocError>
    ensures { IfOk result (λ q. (mine : Journal) (go : Journal → Plan) → Recalls memory.now mine →
        each q mine go ≡ keep_listed script.now mode query reply.now mine go) }
{
    match reply {
        Reply::Listed(list) => {
            if !memory.may_use_results(script, query, mode.puts()) {
                return Ok(Seq::new(alloc));
            }
            let list = copy_cells(alloc, list)?;
            let time = memory.time;
            only(alloc, Act::Keep { query, time, list })
        }
        _ => Ok(Seq::new(alloc)),
    }
}

/// Whether a reply says that a commit was applied.
fn is_committed(reply: &Reply) -> bool
    ensures { result ≡ is_committed_reply reply.now }
{
    match reply {
        Reply::Commit(Commit::Committed) => true,
        _ => false,
    }
}

/// The acts that complete a transaction: those that were made ready, or else they are made now.
fn completed(
    alloc: Global,
    script: &Script,
    memory: &Memory,
    mode: Mode,
    committed: bool,
    ending: Option<Ending>,
) -> Result<Acts, AllocError>
    ensures acts { IfOk result (λ q. (mine : Journal) → Recalls memory.now mine
        → Ends script.now mode mine ending → q ≡ completion script.now mode committed mine) }
    ensures room { is_some ending ≡ true → IsOk result }
{
    match ending {
        Some(ending) => Ok(ending.pick(committed)),
        None => memory.completion(alloc, script, mode, committed),
    }
}

/// The acts and the stage that follow an entry of the act that this stage has.
pub fn answered(
    alloc: Global,
    script: &Script,
    memory: &Memory,
    mode: Mode,
    stage: Stage,
    entry: &Entry,
    ending: Option<Ending>,
) -> Result<(Acts, Stage), AllocError>
    ensures less { is_due stage ≡ true → IfOk result (λ r. rank r.1 < rank stage) }
    ensures follows { IfOk result (λ r. (done : Journal) (go : Journal → Plan) → is_due stage ≡ true
        → Recalls memory.now (entry.now ∷ done) → Ends script.now mode (entry.now ∷ done) ending
        → queued script.now mode r.0 r.1 (entry.now ∷ done) go
        ≡ after (staged script.now mode stage done go) entry.now) }
    ensures room { asks_rows stage ≡ false → has_ending stage ending ≡ true → IsOk result }
{
    match stage {
        Stage::Getting(key) => Ok((Seq::new(alloc), got(key, &entry.reply))),
        Stage::Loading(key) => Ok((
            loaded(alloc, script, memory, mode, key, &entry.reply)?,
            Stage::Idle,
        )),
        Stage::Looking(query) => Ok((Seq::new(alloc), looked(query, &entry.reply))),
        Stage::Checking(query, _) => Ok((Seq::new(alloc), checked(query, &entry.reply))),
        Stage::Listing(query) => Ok((
            listed(alloc, script, memory, mode, query, &entry.reply)?,
            Stage::Idle,
        )),
        Stage::Committing => {
            let committed = is_committed(&entry.reply);
            let acts = completed(alloc, script, memory, mode, committed, ending)?;
            Ok((acts, Stage::Idle))
        }
        Stage::RollingBack => {
            let acts = completed(alloc, script, memory, mode, false, ending)?;
            Ok((acts, Stage::Idle))
        }
        Stage::Idle | Stage::Answering(_) => Ok((Seq::new(alloc), stage)),
    }
}

fn is_versioned(script: &Script, entity: EntityNo) -> bool
    ensures { result ≡ option_map_or (λ d. d.versioned)
        (slice_get script.now.mapping entity) false }
{
    match script.mapping.as_slice().get(entity.0 as usize) {
        Some(def) => def.versioned,
        None => false,
    }
}

/// The version that a new row of an entity has, if its rows have versions.
fn version_at_first(script: &Script, entity: EntityNo) -> Option<u32>
    ensures { result ≡ first_version script.now entity }
{
    if is_versioned(script, entity) {
        Some(0)
    } else {
        None
    }
}

/// The acts and the stage with which a find begins: what is held is answered by the session, else a region or the store
/// is asked.
fn find_taken(
    alloc: Global,
    script: &Script,
    memory: &Memory,
    mode: Mode,
    key: Key,
) -> Result<(Acts, Stage), AllocError>
    ensures { IfOk result (λ r. (mine : Journal) (go : Journal → Plan) → Knows memory.now mine →
        queued script.now mode r.0 r.1 mine go ≡ find script.now mode key mine go) }
{
    if memory.holds(key) {
        return Ok((only(alloc, Act::Find { key })?, Stage::Idle));
    }
    if memory.reads(script, mode, key) {
        return Ok((Seq::new(alloc), Stage::Getting(key)));
    }
    Ok((Seq::new(alloc), Stage::Loading(key)))
}

/// The acts and the stage with which a list begins: a flush comes first, if a change of its tables is pending.
fn list_taken(
    alloc: Global,
    script: &Script,
    memory: &Memory,
    query: QueryNo,
) -> Result<(Acts, Stage), AllocError>
    ensures { IfOk result (λ r. (mine : Journal) (mode : Mode) (go : Journal → Plan)
        → Knows memory.now mine → queued script.now mode r.0 r.1 mine go
        ≡ list script.now mode query mine go) }
{
    if memory.must_flush(alloc, script, query)? {
        return Ok((memory.flush(alloc, script)?, Stage::Answering(query)));
    }
    Ok((Seq::new(alloc), Stage::Answering(query)))
}

/// The act with which a persist begins.
fn persist_taken(
    alloc: Global,
    script: &Script,
    key: Key,
    cells: &Cells,
) -> Result<Acts, AllocError>
    ensures { IfOk result (λ q. q ≡ Act.Persist key
        (record { version = first_version script.now key.entity; cells = cells.now }) ∷ []) }
{
    let version = version_at_first(script, key.entity);
    let row = Row {
        version,
        cells: copy_cells(alloc, cells)?,
    };
    only(alloc, Act::Persist { key, row })
}

/// The acts and the stage with which the block of a statement begins.
pub fn taken(
    alloc: Global,
    script: &Script,
    memory: &Memory,
    mode: Mode,
    statement: &Statement,
) -> Result<(Acts, Stage), AllocError>
    ensures { IfOk result (λ r. (mine : Journal) (go : Journal → Plan) → Knows memory.now mine
        → queued script.now (mode_after statement.now mode) r.0 r.1 mine go
        ≡ block script.now mode statement.now mine go) }
{
    match statement {
        Statement::Find { key } => find_taken(alloc, script, memory, mode, *key),
        Statement::Persist { key, cells } => Ok((
            persist_taken(alloc, script, *key, cells)?,
            Stage::Idle,
        )),
        Statement::Set { key, cells } => {
            let cells = copy_sets(alloc, cells)?;
            Ok((only(alloc, Act::Set { key: *key, cells })?, Stage::Idle))
        }
        Statement::Remove { key } => Ok((only(alloc, Act::Remove { key: *key })?, Stage::Idle)),
        Statement::List { query } => list_taken(alloc, script, memory, *query),
        Statement::Flush => Ok((memory.flush(alloc, script)?, Stage::Idle)),
        Statement::Clear => Ok((only(alloc, Act::Clear)?, Stage::Idle)),
        Statement::Mode { .. } => Ok((Seq::new(alloc), Stage::Idle)),
        Statement::Commit => Ok((memory.flush(alloc, script)?, Stage::Committing)),
        Statement::Rollback => Ok((Seq::new(alloc), Stage::RollingBack)),
    }
}
