// A reply goes to two lists, that of its part and that of its session, so it is copied here.
ghost use Rattle.std.specs.Prelude.{◌≡◌, if◌then◌else◌, true, IfOk, IsOk, Some, None};
ghost use Rattle.hib_parts.specs.Copied.{is_small};

use hib_base::Reply;
use std::alloc::{AllocError, Global};

/// An equal reply, if the reply owns no memory; else none. So most replies are copied without taking memory.
fn small_copy(reply: &Reply) -> Option<Reply>
    ensures { result ≡ (if is_small reply.now then Some reply.now else None) }
{
    match reply {
        Reply::Began { floor } => Some(Reply::Began { floor: *floor }),
        Reply::Ended { outcome } => Some(Reply::Ended { outcome: *outcome }),
        Reply::Done => Some(Reply::Done),
        Reply::Row(None) => Some(Reply::Row(None)),
        Reply::New => Some(Reply::New),
        Reply::Known => Some(Reply::Known),
        Reply::Set => Some(Reply::Set),
        Reply::Unknown => Some(Reply::Unknown),
        Reply::ReadOnly => Some(Reply::ReadOnly),
        Reply::Removed => Some(Reply::Removed),
        Reply::Cleared => Some(Reply::Cleared),
        Reply::Fault => Some(Reply::Fault),
        Reply::Written => Some(Reply::Written),
        Reply::Commit(commit) => Some(Reply::Commit(*commit)),
        Reply::Stamped { value } => Some(Reply::Stamped { value: *value }),
        Reply::Check(checked) => Some(Reply::Check(*checked)),
        Reply::Absent => Some(Reply::Absent),
        Reply::Kept { dropped } => Some(Reply::Kept { dropped: *dropped }),
        Reply::Miss(miss) => Some(Reply::Miss(*miss)),
        Reply::Put(put) => Some(Reply::Put(*put)),
        Reply::Locked(locked) => Some(Reply::Locked(*locked)),
        Reply::Unlocked(unlocked) => Some(Reply::Unlocked(*unlocked)),
        Reply::Inserted(inserted) => Some(Reply::Inserted(*inserted)),
        Reply::Updated(updated) => Some(Reply::Updated(*updated)),
        Reply::Dropped => Some(Reply::Dropped),
        Reply::Evicted(evicted) => Some(Reply::Evicted(*evicted)),
        Reply::Row(Some(_)) | Reply::Listed(_) | Reply::Found { .. } | Reply::Hit(_) => None,
    }
}

/// An equal reply. It takes memory only if the reply owns some.
pub fn copied(alloc: Global, reply: &Reply) -> Result<Reply, AllocError>
    ensures copy { IfOk result (λ r. r ≡ reply.now) }
    ensures small { is_small reply.now ≡ true → IsOk result }
{
    match small_copy(reply) {
        Some(copy) => Ok(copy),
        None => reply.copy(alloc),
    }
}
