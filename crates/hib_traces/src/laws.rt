//! What the verdicts come to under the law of traces.
ghost use Rattle.hib_trace_law.specs.Certain.{IsExplained, IsPlaced, Placed, may_pass};
ghost use Rattle.hib_trace_law.specs.declared.commits.Answer.{Answer};
ghost use Rattle.hib_trace_law.specs.declared.commits.Commit.{Commit};
ghost use Rattle.hib_traces.specs.Verdicts.{IsNew, IsOld, IsVerdict};
ghost use Rattle.hib_traces.specs.declared.kinds.Verdict.TheVariants.{Possible};
ghost use Rattle.std.specs.Prelude.{◌≡◌, ℕ, true, List};

/// A row that is called old, or new, is so in every explanation of the commits; and one that is called possible is what
/// the law lets pass.
pub fn verdicts_are_certain()
    ensures old { (cs : List Commit) (a : Answer) (t : ℕ) → IsOld cs a t cs
        → (xs : List Placed) → IsPlaced cs xs → IsExplained xs a → ⊥ }
    ensures new { (cs : List Commit) (a : Answer) → IsNew cs a cs
        → (xs : List Placed) → IsPlaced cs xs → IsExplained xs a → ⊥ }
    ensures possible { (cs : List Commit) (a : Answer) → IsVerdict cs a cs Possible → may_pass cs a ≡ true }
{}
