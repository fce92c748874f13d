// The acts that complete a transaction, made before its end is due, so that the end itself takes no memory. They are
// made for a commit that is applied, and changed if it ends otherwise.
ghost use Rattle.std.specs.Prelude.{◌≡◌, filter, map, if◌then◌else◌};
ghost use Rattle.hib_session.specs.Ahead.{refused_act, is_kept, refused_of};

use hib_base::{Act, Acts, Seq};

/// The acts that complete a transaction, however it ends.
#[derive(Drop)]
pub struct Ending {
    /// After a commit that was applied.
    pub acts: Acts,
}

/// Turns an act for a commit that was applied into the one for another end: a lock is given back without a row.
fn refuse(act: &mut Act)
    ensures { act.new ≡ refused_act act.old }
{
    if let Act::AfterUpdate { key, lock, .. } = act {
        let (key, lock) = (*key, *lock);
        *act = Act::Unlock { key, lock };
    }
}

/// Turns all acts for a commit that was applied into those for another end.
fn refuse_all(acts: &mut [Act])
    ensures { acts.new ≡ map refused_act acts.old }
{
    for act in acts.iter_mut() {
        refuse(act);
    }
}

/// Whether an act for a commit that was applied has one in its place at another end. Else a new row would be put.
fn is_kept_act(act: &Act) -> bool
    ensures { result ≡ is_kept act.now }
{
    !matches!(act, Act::AfterInsert { .. })
}

/// Takes out the acts that have none in their place at another end.
fn retain_kept(acts: &mut Vec<Act>)
    ensures { acts.new.items ≡ filter is_kept acts.old.items }
{
    acts.retain(|act| is_kept_act(act));
}

impl Ending {
    /// The acts after an end: `committed` says whether a commit was applied. It takes no memory.
    pub fn pick(self, committed: bool) -> Acts
        ensures { result ≡ (if committed then self.acts else refused_of self.acts) }
    {
        if committed {
            return self.acts;
        }
        let mut acts = self.acts.into_vec();
        retain_kept(&mut acts);
        refuse_all(acts.as_mut_slice());
        Seq::from_vec(acts)
    }
}
