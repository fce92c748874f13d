// What stamps that stand for a journal promise; for proofs. These functions do nothing.
ghost use Rattle.std.specs.Prelude.{◌≡◌, ◌<◌, ℕ, List, [], ◌∷◌, length, false};
ghost use Rattle.std.specs.List.{All};
ghost use Rattle.hib_journal.specs.Types.{Part, Entry};
ghost use Rattle.hib_journal.specs.Sessions.{Journal, is_restart, same_part};
ghost use Rattle.hib_journal.specs.Legal.{part_of};
ghost use Rattle.hib_journal.specs.Stamps.{check};
ghost use Rattle.hib_update_stamps.specs.Stamped.{Stamped, unstamped, checked};
ghost use Rattle.hib_update_stamps.specs.Standing.{IsStamps, stamps_after};

/// Stamps without a stamp stand for the empty journal.
pub fn unstamped_stand_for_no_entry()
    ensures { (timeout : ℕ) (tables : ℕ) → IsStamps timeout (unstamped tables) [] }
{}

/// If stamps stand for a journal, what an act leaves stands for the journal with the act's entry.
pub fn stamps_follow()
    ensures { (timeout : ℕ) (stamps : Stamped) (h : Journal) (e : Entry) → IsStamps timeout stamps h
        → IsStamps timeout (stamps_after timeout e.tick e.act stamps) (e ∷ h) }
{}

/// Acts of other parts, but for a restart, leave every stamp.
pub fn other_acts_leave_stamps()
    ensures { (timeout : ℕ) (stamps : Stamped) (h : Journal) (e : Entry) (s : ℕ)
        → IsStamps timeout stamps h → same_part (part_of e.act s) Part.Stamps ≡ false
        → is_restart e.act ≡ false → IsStamps timeout stamps (e ∷ h) }
{}

/// If stamps stand for a journal, a check of tables that have a place answers what the journal says.
pub fn stamps_answer()
    ensures { (timeout : ℕ) (stamps : Stamped) (h : Journal) → IsStamps timeout stamps h
        → (time : ℕ) (tables : List ℕ) → All (λ t. t < length stamps) tables
        → checked time tables stamps ≡ check timeout time tables h }
{}
