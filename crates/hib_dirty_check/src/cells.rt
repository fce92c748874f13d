// When two lists of cells are the same, so that an instance has no update pending.
ghost use Rattle.std.specs.Prelude.{◌≡◌};
ghost use Rattle.hib_journal.specs.Held.{same_cells};

use hib_base::Cells;

/// Whether two lists of cells are equal.
#[tactic(auto, using(crate::proofs::Compared::cells_compared))]
pub fn are_same_cells(a: &Cells, b: &Cells) -> bool
    ensures { result ≡ same_cells a.now b.now }
{
    *a == *b
}
