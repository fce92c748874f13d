// The part that answers an act, by which a step finds it.
ghost use Rattle.std.specs.Prelude.{◌≡◌};
ghost use Rattle.hib_journal.specs.Legal;

use hib_base::{Act, Part, SessionNo};

/// The part that answers an act of this session.
pub fn part_of(act: &Act, session: SessionNo) -> Part
    ensures { result ≡ Legal.part_of act.now session }
{
    match act {
        Act::Begin | Act::End | Act::Kill { .. } | Act::Restart => Part::Registry,
        Act::Find { .. }
        | Act::Persist { .. }
        | Act::Set { .. }
        | Act::Remove { .. }
        | Act::Clear => Part::Own(session),
        Act::Load { .. } | Act::List { .. } | Act::Write(_) | Act::Commit | Act::Rollback => {
            Part::Store
        }
        Act::Pre { .. } | Act::Stamp { .. } | Act::Check { .. } => Part::Stamps,
        Act::Look { .. } | Act::Keep { .. } => Part::Results,
        Act::Get { key, .. }
        | Act::Put { key, .. }
        | Act::Lock { key, .. }
        | Act::Unlock { key, .. }
        | Act::AfterInsert { key, .. }
        | Act::AfterUpdate { key, .. }
        | Act::RegionRemove { key }
        | Act::Evict { key } => Part::Region(key.entity),
    }
}
