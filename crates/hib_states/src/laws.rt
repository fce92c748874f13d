// What is told gives the state.
ghost use Rattle.hib_base.specs.Tables.{Tables};
ghost use Rattle.hib_journal.specs.Sessions.{Journal};
ghost use Rattle.hib_journal.specs.Types.{Script};
ghost use Rattle.hib_states.specs.Last.{IsToldWhole};

/// What is told of a journal, taken one thing after the other from the state at the start, is the state after the
/// journal, but for the results of queries.
pub fn states_are_whole()
    ensures { (script : Script) (start : Tables) (h : Journal) → IsToldWhole script start h }
{}
