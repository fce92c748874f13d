// The words of acts and replies, without what stands with them: key, row, tick.
ghost use Rattle.std.specs.Prelude.{◌≡◌, option_copied};
ghost use Rattle.hib_report.specs.Lines as report;
ghost use Rattle.hib_flat.specs.Words as words;

use hib_base::{
    Act, Change, Checked, Commit, Evicted, Inserted, Miss, Outcome, Part, Put, Reply, Row,
    Unlocked, Updated,
};

/// The word of a part.
pub fn part_word(part: Part) -> &'static [u8]
    ensures { result.now ≡ report.part_text part }
{
    match part {
        Part::Registry => b"registry",
        Part::Store => b"store",
        Part::Stamps => b"stamps",
        Part::Results => b"results",
        Part::Region(_) => b"region",
        Part::Own(_) => b"own",
    }
}

/// The word of a change.
pub fn change_word(change: &Change) -> &'static [u8]
    ensures { result.now ≡ words.change_word change.now }
{
    match change {
        Change::Insert { .. } => b"insert",
        Change::Update { .. } => b"update",
        Change::Delete { .. } => b"delete",
    }
}

/// The word of an act.
pub fn act_word(act: &Act) -> &'static [u8]
    ensures { result.now ≡ words.act_word act.now }
{
    match act {
        Act::Begin => b"begin",
        Act::End => b"end",
        Act::Kill { .. } => b"kill",
        Act::Restart => b"restart",
        Act::Find { .. } => b"find",
        Act::Persist { .. } => b"persist",
        Act::Set { .. } => b"set",
        Act::Remove { .. } => b"remove",
        Act::Clear => b"clear",
        Act::Load { .. } => b"load",
        Act::List { .. } => b"list",
        Act::Write(change) => change_word(change),
        Act::Commit => b"commit",
        Act::Rollback => b"rollback",
        Act::Pre { .. } => b"pre",
        Act::Stamp { .. } => b"stamp",
        Act::Check { .. } => b"check",
        Act::Look { .. } => b"look",
        Act::Keep { .. } => b"keep",
        Act::Get { .. } => b"get",
        Act::Put { .. } => b"put",
        Act::Lock { .. } => b"lock",
        Act::Unlock { .. } => b"unlock",
        Act::AfterInsert { .. } => b"after-insert",
        Act::AfterUpdate { .. } => b"after-update",
        Act::RegionRemove { .. } => b"remove",
        Act::Evict { .. } => b"evict",
    }
}

fn outcome_word(outcome: Outcome) -> &'static [u8]
    ensures { result.now ≡ report.outcome_text outcome }
{
    match outcome {
        Outcome::Committed => b"committed",
        Outcome::RolledBack => b"rolled-back",
        Outcome::Stale => b"stale",
        Outcome::Duplicate => b"duplicate",
        Outcome::Fault => b"fault",
    }
}

/// Whether a find or a load gave a row.
fn read_word(row: &Option<Row>) -> &'static [u8]
    ensures { result.now ≡ words.read_word row.now }
{
    match row {
        None => b"none",
        Some(_) => b"row",
    }
}

fn commit_word(commit: Commit) -> &'static [u8]
    ensures { result.now ≡ words.commit_word commit }
{
    match commit {
        Commit::Committed => b"committed",
        Commit::Stale { .. } => b"stale",
        Commit::Duplicate { .. } => b"duplicate",
        Commit::Fault => b"fault",
    }
}

fn check_word(checked: Checked) -> &'static [u8]
    ensures { result.now ≡ words.check_word checked }
{
    match checked {
        Checked::Fresh => b"fresh",
        Checked::Stale { .. } => b"stale",
    }
}

fn put_word(put: Put) -> &'static [u8]
    ensures { result.now ≡ words.put_word put }
{
    match put {
        Put::Stored { .. } => b"stored",
        Put::Present { .. } => b"present",
        Put::Held { .. } => b"held",
        Put::Early { .. } => b"early",
        Put::Old { .. } => b"old",
        Put::Crowded => b"crowded",
    }
}

fn unlock_word(unlocked: Unlocked) -> &'static [u8]
    ensures { result.now ≡ words.unlock_word unlocked }
{
    match unlocked {
        Unlocked::Released { .. } => b"released",
        Unlocked::Expired => b"expired",
    }
}

fn insert_word(inserted: Inserted) -> &'static [u8]
    ensures { result.now ≡ words.insert_word inserted }
{
    match inserted {
        Inserted::Stored { .. } => b"stored",
        Inserted::Present => b"present",
        Inserted::Crowded => b"crowded",
    }
}

fn update_word(updated: Updated) -> &'static [u8]
    ensures { result.now ≡ words.update_word updated }
{
    match updated {
        Updated::Stored => b"stored",
        Updated::Shared { .. } => b"shared",
        Updated::Expired => b"expired",
    }
}

fn evict_word(evicted: Evicted) -> &'static [u8]
    ensures { result.now ≡ words.evict_word evicted }
{
    match evicted {
        Evicted::Gone => b"evicted",
        Evicted::Held => b"held",
        Evicted::Absent => b"absent",
    }
}

/// The word of a reply.
pub fn reply_word(reply: &Reply) -> &'static [u8]
    ensures { result.now ≡ words.reply_word reply.now }
{
    match reply {
        Reply::Began { .. } => b"begun",
        Reply::Ended { outcome } => outcome_word(*outcome),
        Reply::Done => b"done",
        Reply::Row(row) => read_word(row),
        Reply::New => b"new",
        Reply::Known => b"known",
        Reply::Set => b"set",
        Reply::Unknown => b"unknown",
        Reply::ReadOnly => b"read-only",
        Reply::Removed => b"removed",
        Reply::Cleared => b"cleared",
        Reply::Listed(_) => b"list",
        Reply::Fault => b"fault",
        Reply::Written => b"written",
        Reply::Commit(commit) => commit_word(*commit),
        Reply::Stamped { .. } => b"stamped",
        Reply::Check(checked) => check_word(*checked),
        Reply::Found { .. } => b"found",
        Reply::Absent => b"absent",
        Reply::Kept { .. } => b"kept",
        Reply::Hit(_) => b"hit",
        Reply::Miss(_) => b"miss",
        Reply::Put(put) => put_word(*put),
        Reply::Locked(_) => b"lock",
        Reply::Unlocked(unlocked) => unlock_word(*unlocked),
        Reply::Inserted(inserted) => insert_word(*inserted),
        Reply::Updated(updated) => update_word(*updated),
        Reply::Dropped => b"dropped",
        Reply::Evicted(evicted) => evict_word(*evicted),
    }
}

fn miss_word(miss: Miss) -> &'static [u8]
    ensures { result.now ≡ words.miss_word miss }
{
    match miss {
        Miss::Absent => b"absent",
        Miss::Locked { .. } => b"locked",
        Miss::Released { .. } => b"released",
        Miss::Young { .. } => b"young",
    }
}

/// Why a region gave no row.
pub fn cause_word(reply: &Reply) -> Option<&'static [u8]>
    ensures { option_copied result ≡ words.cause_word reply.now }
{
    match reply {
        Reply::Miss(miss) => Some(miss_word(*miss)),
        _ => None,
    }
}
