// The lists that a run over parts left, joined into one journal.
ghost use Rattle.std.specs.Prelude.{◌≢◌, map, IfSome};
ghost use Rattle.hib_base.specs.declared.entries.Part.{Part};
ghost use Rattle.hib_journal.specs.Kept.{past};
ghost use Rattle.hib_merge.specs.Merging.{AreRising, IsInOne};
ghost use Rattle.hib_joined.specs.Joined.{AreJoined, AreJoinedUnless};

use hib_base::EntityNo;
use hib_journal::Journal;
use hib_merge::{Lists, Torn, agree, merge};
use std::alloc::Global;

/// What the lists of a run came to.
#[derive(Drop)]
pub enum Joined {
    /// They fit together: the one journal of the run.
    One(Journal),
    /// A lock gave another region than the one that was asked for, or lists or ticks don't fit together. There is no
    /// journal. The keeper has the rows of the commits that were made; no clause says which.
    Torn(Torn),
    /// Memory ran out, in the run or while its lists were joined. There is no journal. The keeper has the rows of the
    /// commits that were made; no clause says which.
    NoMemory,
}

/// Merges the lists of parts into one journal, and checks that those of sessions agree with it.
fn join(alloc: Global, lists: &Lists, mine: &Lists) -> Joined
    requires apart { (p : Part) → IsInOne p (map past lists.now) }
    requires rising { AreRising (map past lists.now) }
    ensures { AreJoined (map past lists.now) mine.now result }
{
    let Ok(journal) = merge(alloc, lists) else {
        return Joined::NoMemory;
    };
    let _count = journal.len();
    match agree(alloc, &journal, mine) {
        Ok(None) => Joined::One(journal),
        Ok(Some(torn)) => Joined::Torn(torn),
        Err(_) => Joined::NoMemory,
    }
}

/// Joins the lists of a run as `join` does, unless a lock gave another region than the one that was asked for, or
/// memory ran out in the run.
pub fn join_unless(
    alloc: Global,
    strange: &Option<(EntityNo, EntityNo)>,
    out_of_memory: bool,
    lists: &Lists,
    mine: &Lists,
) -> Joined
    requires apart { (p : Part) → IsInOne p (map past lists.now) }
    requires rising { AreRising (map past lists.now) }
    requires strange { IfSome strange.now (λ p. p.0 ≢ p.1) }
    ensures { AreJoinedUnless strange.now out_of_memory (map past lists.now) mine.now result }
{
    if let Some((asked, found)) = strange {
        return Joined::Torn(Torn::Region {
            asked: *asked,
            found: *found,
        });
    }
    if out_of_memory {
        return Joined::NoMemory;
    }
    join(alloc, lists, mine)
}
