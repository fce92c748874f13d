// A lock that gave another region than the one that was asked for. What stands behind a lock is known by its type
// alone, so proofs can't exclude it, and it is checked.
ghost use Rattle.std.specs.Prelude.{◌≡◌, ◌≢◌, ◌==◌, false, OnOk};

use hib_base::EntityNo;

/// The entity whose region was asked for, and the one that was found instead.
#[derive(Drop)]
pub struct Strange {
    asked: EntityNo,
    found: EntityNo,
    ghost apart: { (found == asked) ≡ false },
}

impl Strange {
    /// The entity that was asked for, and then the one that was found.
    pub fn pair(&self) -> (EntityNo, EntityNo)
        ensures { result.0 ≢ result.1 }
    {
        (self.asked, self.found)
    }
}

/// Compares the entity of the region that a lock gave with the one that was asked for.
pub fn compared(asked: EntityNo, found: EntityNo) -> Result<(), Strange>
    ensures { OnOk result (found ≡ asked) }
{
    if found == asked {
        return Ok(());
    }
    Err(Strange { asked, found })
}
