// What the findings come to under the law of traces.
ghost use Rattle.hib_trace_findings.specs.Updates.{IsLost};
ghost use Rattle.hib_trace_law.specs.Certain.{IsAmong, IsPlaced, Placed};
ghost use Rattle.hib_trace_law.specs.Pairs.{RestsOn};
ghost use Rattle.hib_trace_law.specs.declared.commits.Commit.{Commit};
ghost use Rattle.std.specs.Prelude.{◌≡◌, ℕ, List, Some};

/// An update that is called lost took effect in no explanation of the commits on the row that it rests on.
pub fn lost_updates_are_certain()
    ensures { (cs : List Commit) (c : Commit) (row t : ℕ) → IsLost cs c row (Some t)
        → (xs : List Placed) → IsPlaced cs xs → (x : Placed) → IsAmong x xs → x.commit ≡ c → RestsOn xs x row → ⊥ }
{}
