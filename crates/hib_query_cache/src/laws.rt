// What kept results that stand for a journal promise; for proofs. These functions do nothing.
ghost use Rattle.std.specs.Prelude.{◌≡◌, ◌<◌, ℕ, [], ◌∷◌, false};
ghost use Rattle.hib_journal.specs.Types.{Part, Entry};
ghost use Rattle.hib_journal.specs.Sessions.{Journal, is_restart, same_part};
ghost use Rattle.hib_journal.specs.Legal.{part_of};
ghost use Rattle.hib_journal.specs.Results.{result as kept_result, dropped};
ghost use Rattle.hib_query_cache.specs.Ranked.{Ranked, result_of, dropped_for};
ghost use Rattle.hib_query_cache.specs.Standing.{IsResults, results_after, IsAnswered};

/// If nothing is kept, results stand for the empty journal.
pub fn no_results_stand_for_no_entry()
    ensures { (queries capacity : ℕ) → 0 < capacity
        → IsResults queries (record { capacity = capacity; kept = [] }) [] }
{}

/// If results stand for a journal, what an act that they answer leaves stands for the journal with the act's entry.
pub fn results_follow()
    ensures { (queries : ℕ) (r : Ranked) (h : Journal) (e : Entry) → IsResults queries r h
        → IsAnswered queries r e.act e.reply
        → IsResults queries (results_after e.act e.reply r) (e ∷ h) }
{}

/// Acts of other parts, but for a restart, leave every result and the order.
pub fn other_acts_leave_results()
    ensures { (queries : ℕ) (r : Ranked) (h : Journal) (e : Entry) (s : ℕ) → IsResults queries r h
        → same_part (part_of e.act s) Part.Results ≡ false → is_restart e.act ≡ false
        → IsResults queries r (e ∷ h) }
{}

/// If results stand for a journal, the result of a query is the one that the journal tells.
pub fn results_answer()
    ensures { (queries : ℕ) (r : Ranked) (h : Journal) → IsResults queries r h
        → (q : ℕ) → result_of q r.kept ≡ kept_result r.capacity q h }
{}

/// If results stand for a journal, the query whose result goes for another is the one that the journal tells.
pub fn results_name_the_dropped()
    ensures { (queries : ℕ) (r : Ranked) (h : Journal) → IsResults queries r h
        → (q : ℕ) → dropped_for q r ≡ dropped r.capacity queries q h }
{}
