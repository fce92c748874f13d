// One entry goes to the list of a part and to that of a session. Every part's `serve` makes room for it first, has its
// engine answer, and then adds it to both.
ghost use Rattle.std.specs.Prelude.{◌≡◌, ◌<◌, ◌≤◌, ◌∷◌, true, false, IfOk, IsOk, IsSome, OnOk, OnErr, Some};
ghost use Rattle.hib_journal.specs.Kept.{past};
ghost use Rattle.hib_journal.specs.Lists.{entry_at};
ghost use Rattle.hib_journal.specs.Next.{next};
ghost use Rattle.hib_session.specs.Memory.{brings};
ghost use Rattle.hib_parts.specs.Copied.{is_small};
ghost use Rattle.hib_parts.specs.Listed.{IsDueAct, IsDueEntry, IsKept};

use crate::copied::copied;
use crate::worker::{Worker, add, entry_of};
use hib_base::{Act, Reply, Script, Tick};
use hib_engines::Name;
use hib_journal::Journal;
use std::alloc::{AllocError, Global};

/// The act that is due, twice: for the list of its part, and for that of its session.
pub struct Acts {
    /// The act.
    pub act: Act,
    /// The same act.
    pub twin: Act,
}

// By hand: so a function that lets the two go has one call for them.
impl Drop for Acts {
    fn drop(self) {
        let Acts { act: _, twin: _ } = self;
    }
}

impl Acts {
    /// The two acts, each by itself.
    fn both(self) -> (Act, Act)
        ensures act { result.0 ≡ self.act }
        ensures twin { result.1 ≡ self.twin }
    {
        let Acts { act, twin } = self;
        (act, twin)
    }
}

/// An act twice.
fn twice(alloc: Global, act: Act) -> Result<Acts, AllocError>
    ensures act { IfOk result (λ t. t.act ≡ act) }
    ensures twin { IfOk result (λ t. t.twin ≡ t.act) }
{
    let twin = act.copy(alloc)?;
    Ok(Acts { act, twin })
}

/// The act that is due, twice: once for each list. An act must be due. Room is made in both lists for its entry, and
/// the session is made ready for it. What the lists have stays.
pub fn prepared<N: Name>(
    alloc: Global,
    script: &Script,
    worker: &mut Worker<N>,
    list: &mut Journal,
) -> Result<Acts, AllocError>
    requires script { script.now ≡ N.script }
    requires due { IsSome (next N.script worker.old.number worker.old.list) }
    ensures kept { IsKept worker.old worker.new }
    ensures left { worker.new.left ≤ worker.old.left }
    ensures list { past list.new ≡ past list.old }
    ensures due { IfOk result (λ t. IsDueAct N.script worker.old t.act) }
    ensures twin { IfOk result (λ t. t.twin ≡ t.act) }
    ensures ready { OnOk result (worker.new.ready ≡ true) }
    ensures room { OnOk result (0 < list.new.spare) }
    ensures own_room { OnOk result (0 < worker.new.spare) }
{
    list.reserve()?;
    let act = worker.due(alloc, script)?;
    let acts = twice(alloc, act)?;
    worker.ready(alloc, script)?;
    Ok(acts)
}

/// Adds the entry of the act that is due to both lists, or to neither. Both must have room for it. It answers Ok if the
/// session is ready, unless the act brings something to the session: then memory may run out.
pub fn enter_both<N: Name>(
    alloc: Global,
    script: &Script,
    worker: &mut Worker<N>,
    list: &mut Journal,
    acts: Acts,
    replies: (Reply, Reply),
    now: Tick,
) -> Result<(), AllocError>
    requires script { script.now ≡ N.script }
    requires room { 0 < list.old.spare }
    requires own_room { 0 < worker.old.spare }
    requires acts { acts.twin ≡ acts.act }
    requires replies { replies.1 ≡ replies.0 }
    requires due { IsDueEntry N.script worker.old.number worker.old.list
        (entry_at now (Some worker.old.number) acts.act replies.0) }
    ensures number { worker.new.number ≡ worker.old.number }
    ensures mine { OnOk result (worker.new.list
        ≡ entry_at now (Some worker.old.number) acts.act replies.0 ∷ worker.old.list) }
    ensures list { OnOk result (past list.new
        ≡ entry_at now (Some worker.old.number) acts.act replies.0 ∷ past list.old) }
    ensures less { OnOk result (worker.new.left < worker.old.left) }
    ensures kept { OnErr result (IsKept worker.old worker.new) }
    ensures same { OnErr result (past list.new ≡ past list.old) }
    ensures brings { worker.old.ready ≡ true → brings acts.act ≡ false → IsOk result }
{
    let number = worker.number();
    let (act, twin) = acts.both();
    let (reply, spare) = replies;
    worker.enter(alloc, script, entry_of(number, act, reply, now))?;
    add(list, entry_of(number, twin, spare, now));
    Ok(())
}

/// Adds the entry of the act that is due to both lists, or to neither, and copies the reply for that. Both must have
/// room for it. It answers Ok if the session is ready and the reply owns no memory, unless the act brings something to
/// the session.
pub fn enter_answer<N: Name>(
    alloc: Global,
    script: &Script,
    worker: &mut Worker<N>,
    list: &mut Journal,
    acts: Acts,
    reply: Reply,
    now: Tick,
) -> Result<(), AllocError>
    requires script { script.now ≡ N.script }
    requires room { 0 < list.old.spare }
    requires own_room { 0 < worker.old.spare }
    requires acts { acts.twin ≡ acts.act }
    requires due { IsDueEntry N.script worker.old.number worker.old.list
        (entry_at now (Some worker.old.number) acts.act reply) }
    ensures number { worker.new.number ≡ worker.old.number }
    ensures mine { OnOk result (worker.new.list
        ≡ entry_at now (Some worker.old.number) acts.act reply ∷ worker.old.list) }
    ensures list { OnOk result (past list.new
        ≡ entry_at now (Some worker.old.number) acts.act reply ∷ past list.old) }
    ensures less { OnOk result (worker.new.left < worker.old.left) }
    ensures kept { OnErr result (IsKept worker.old worker.new) }
    ensures same { OnErr result (past list.new ≡ past list.old) }
    ensures brings { worker.old.ready ≡ true → is_small reply ≡ true → brings acts.act ≡ false
        → IsOk result }
{
    let twin = copied(alloc, &reply)?;
    enter_both(alloc, script, worker, list, acts, (reply, twin), now)
}
