// The sessions of `collect`, each with its notes. Members of collections stand elsewhere, in `owners` and `at_owners`.
ghost use Rattle.std.specs.Prelude.{◌<◌, ◌^◌, [], length, IfOk};
ghost use Rattle.hib_collections.specs.Gatherers.{AreGatherers};

use crate::notes::Notes;
use hib_base::{Script, SessionNo};
use hib_session::Session;
use std::alloc::{AllocError, Global};

/// A session, with what is noted of its entries beside what it remembers itself.
#[derive(Drop)]
pub struct Gatherer {
    /// The session.
    pub session: Session,
    /// What is noted of it.
    pub notes: Notes,
}

/// The sessions of a script, each at its number, which have done nothing. Fails for want of memory alone.
pub fn open_all(alloc: Global, script: &Script) -> Result<Vec<Gatherer>, AllocError>
    requires few { length script.now.sessions < 2 ^ 32 }
    ensures { IfOk result (λ v. AreGatherers script.now [] v.items) }
{
    let mut gatherers = Vec::new(alloc);
    for number in 0..script.sessions.len() {
        gatherers.push(Gatherer {
            session: Session::open(alloc, SessionNo(number as u32)),
            notes: Notes::new(alloc),
        })?;
    }
    Ok(gatherers)
}
