//! What a read-write region does is what the journal's definitions say. Each function has an empty body; its clauses
//! are the laws, for those who keep a region beside a journal.
ghost use Rattle.hib_rw_region.specs.Laws.{Gets, Puts, Locks, Unlocks, Updates, Inserts, Evicts, GetGrows, PutGrows, LockGrows, UnlockGrows, UpdateGrows, InsertGrows, EvictGrows, Stays, Restarts, Begins, HasFew};

/// The region answers as is due.
pub fn answers()
    ensures get { Gets }
    ensures put { Puts }
    ensures lock { Locks }
    ensures unlock { Unlocks }
    ensures after_update { Updates }
    ensures after_insert { Inserts }
    ensures evict { Evicts }
{}

/// After each call the region stands for the journal with that entry.
pub fn grows()
    ensures get { GetGrows }
    ensures put { PutGrows }
    ensures lock { LockGrows }
    ensures unlock { UnlockGrows }
    ensures after_update { UpdateGrows }
    ensures after_insert { InsertGrows }
    ensures evict { EvictGrows }
{}

/// An entry elsewhere leaves the region standing, a restart empties it, it begins empty, and locks have few holders.
pub fn stays()
    ensures elsewhere { Stays }
    ensures restart { Restarts }
    ensures begin { Begins }
    ensures few { HasFew }
{}
