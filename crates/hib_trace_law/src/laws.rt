//! What is certain: false in every explanation of the commits of a key.
ghost use Rattle.hib_trace_law.specs.Certain.{IsAmong, IsCommittedAt, IsExplained, IsPlaced, Placed, is_free, is_old, may_pass};
ghost use Rattle.hib_trace_law.specs.Pairs.{RestsOn, may_follow, may_rest};
ghost use Rattle.hib_trace_law.specs.declared.commits.Answer.{Answer};
ghost use Rattle.hib_trace_law.specs.declared.commits.Commit.{Commit};
ghost use Rattle.std.specs.List.{list_all};
ghost use Rattle.std.specs.Prelude.{◌≡◌, ◌≤◌, ℕ, false, true, List};

/// An answer that is refused is false in every explanation of the commits.
pub fn refusals_are_sound()
    ensures sound { (cs : List Commit) (a : Answer) → may_pass cs a ≡ false
        → (xs : List Placed) → IsPlaced cs xs → IsExplained xs a → ⊥ }
{}

/// If nothing is known of the order but what the calls say, an answer that passes is right in an explanation.
pub fn refusals_are_complete()
    ensures complete { (cs : List Commit) (a : Answer) → list_all is_free cs ≡ true → a.since ≤ a.end
        → may_pass cs a ≡ true → (xs : List Placed) × IsPlaced cs xs × IsExplained xs a }
{}

/// A row that is too old at an instant was replaced before it in every explanation: so an answer is as old as that at
/// least.
pub fn ages_are_least()
    ensures least { (cs : List Commit) (xs : List Placed) → IsPlaced cs xs → (x : Placed) (t u : ℕ)
        → is_old cs x.commit t ≡ true → t ≤ u → IsCommittedAt xs x u → ⊥ }
{}

/// Of two answers of which the later one went back to an older row no explanation explains both.
pub fn answers_went_back()
    ensures back { (cs : List Commit) (a b : Answer) → may_follow cs a b ≡ false
        → (xs : List Placed) → IsPlaced cs xs → IsExplained xs a → IsExplained xs b → ⊥ }
{}

/// An update that was lost took effect in no explanation on the row that the write over it names as its base.
pub fn updates_were_lost()
    ensures lost { (cs : List Commit) (c : Commit) (row : ℕ) → may_rest cs c row ≡ false
        → (xs : List Placed) → IsPlaced cs xs → (x : Placed) → IsAmong x xs → x.commit ≡ c → RestsOn xs x row → ⊥ }
{}
