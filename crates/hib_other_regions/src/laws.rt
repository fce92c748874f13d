//! What a region of items does is what the journal's definitions say. Each function has an empty body; its clauses
//! are the laws, for those who keep a region beside a journal.
ghost use Rattle.hib_journal.specs.Types.{Strategy};
ghost use Rattle.hib_other_regions.specs.Laws.{ReadOnlyGets, NonstrictGets, Puts, Inserts, Removes, Evicts, GetGrows, PutGrows, InsertGrows, RemoveGrows, EvictGrows, Stays, Restarts, Begins};

/// A read-only region answers as is due.
pub fn read_only_answers()
    ensures get { ReadOnlyGets }
    ensures put { Puts Strategy.ReadOnly }
    ensures after_insert { Inserts Strategy.ReadOnly }
    ensures remove { Removes }
    ensures evict { Evicts Strategy.ReadOnly }
{}

/// A nonstrict region answers as is due.
pub fn nonstrict_answers()
    ensures get { NonstrictGets }
    ensures put { Puts Strategy.Nonstrict }
    ensures remove { Removes }
    ensures evict { Evicts Strategy.Nonstrict }
{}

/// After each call the region stands for the journal with that entry.
pub fn grows()
    ensures get { GetGrows }
    ensures put { PutGrows }
    ensures after_insert { InsertGrows }
    ensures remove { RemoveGrows }
    ensures evict { EvictGrows }
{}

/// An entry elsewhere leaves the region standing, a restart empties it, and it begins empty.
pub fn stays()
    ensures elsewhere { Stays }
    ensures restart { Restarts }
    ensures begin { Begins }
{}
