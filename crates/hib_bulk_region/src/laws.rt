//! What a region does that bulk lines may lock is what the definitions say over a journal with bulk lines. Each
//! function has an empty body; its clauses are the laws, for those who keep a region beside such a journal.
ghost use Rattle.hib_bulk_region.specs.Laws.{Gets, Puts, Locks, Unlocks, Updates, Inserts, LocksAll, UnlocksAll, FindsOld, GetGrows, PutGrows, LockGrows, UnlockGrows, UpdateGrows, InsertGrows, SweepGrows, LockAllGrows, UnlockAllGrows, Stays, Begins};

/// The region answers as is due, and finds the items that are old.
pub fn answers()
    ensures get { Gets }
    ensures put { Puts }
    ensures lock { Locks }
    ensures unlock { Unlocks }
    ensures after_update { Updates }
    ensures after_insert { Inserts }
    ensures lock_all { LocksAll }
    ensures unlock_all { UnlocksAll }
    ensures old { FindsOld }
{}

/// After each call the region stands for the journal with that entry.
pub fn grows()
    ensures get { GetGrows }
    ensures put { PutGrows }
    ensures lock { LockGrows }
    ensures unlock { UnlockGrows }
    ensures after_update { UpdateGrows }
    ensures after_insert { InsertGrows }
    ensures sweep { SweepGrows }
    ensures lock_all { LockAllGrows }
    ensures unlock_all { UnlockAllGrows }
{}

/// An entry elsewhere leaves the region standing, and it begins empty.
pub fn stays()
    ensures elsewhere { Stays }
    ensures begin { Begins }
{}
