// How many entries a session has at most, so that runs are short.
ghost use Rattle.std.specs.Prelude.{◌≤◌, ℕ, length, slice_get, []};
ghost use Rattle.std.specs.Option.{option_map_or};
ghost use Rattle.hib_journal.specs.Types.{Script};
ghost use Rattle.hib_journal.specs.Sessions.{Journal};
ghost use Rattle.hib_journal.specs.Plan.{InOrder};
ghost use Rattle.hib_journal.specs.Next.{plan_of};
ghost use Rattle.hib_session.specs.Bound.{most_entries};

/// A session that does each act that is due, once and in order, has few entries, whatever it is answered. It does
/// nothing; hib_core bounds its runs by it.
#[tactic(auto, using(crate::proofs::Few::entries_few))]
pub fn entries_are_few()
    ensures { (script : Script) (s : ℕ) (mine : Journal) → InOrder (plan_of script s) mine
        → length mine ≤ most_entries (length
        (option_map_or (λ d. d.statements) (slice_get script.sessions s) [])) }
{}
