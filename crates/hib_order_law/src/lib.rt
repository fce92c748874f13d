//! The law of orders: what an order of steps makes of a script, and that a search of orders misses none and tries none
//! twice.
//!
//! Beside `Step`, `Turn` and `Verdicts` the crate has no code. Each other function has an empty body, and its `ensures`
//! is a theorem over all scripts, all rows at the start and all journals. `specs/Orders` says what an order is, what
//! its switches are and what its kills, `specs/Search` what a search of them has tried, `specs/Judged` what ends badly,
//! and `proofs/` has the proofs.
#![tactic(auto)]

ghost use Rattle.hib_base.specs.Tables.{Tables, row_at};
ghost use Rattle.hib_journal.specs.Sessions.{Journal, committed};
ghost use Rattle.hib_journal.specs.Types.{Act, Entry, Key, Reply, Row, Script};
ghost use Rattle.hib_order_law.specs.Judged.{is_stale_hit, same_row};
ghost use Rattle.hib_order_law.specs.Orders.{IsOther, IsRun, IsUndisturbed, begins, can_begin, cost, is_unkilled, kills, made, steps_in, switches};
ghost use Rattle.hib_order_law.specs.Search.{AreOthers, AreTried, IsSearch, IsTest, with_run};
ghost use Rattle.hib_order_law.specs.declared.step.Step.{Step};
ghost use Rattle.std.specs.Prelude.{◌≡◌, ◌≤◌, ◌<◌, ◌+◌, ◌++◌, ◌⊎◌, ℕ, Bool, not, false, true, List, [], ◌∷◌, length};

mod step;
mod verdicts;

pub use step::{Step, Turn};
pub use verdicts::Verdicts;

/// A legal journal of sessions and kills alone, without faults, is the one that its order makes of the script and the
/// rows at the start: who makes each step, and who is killed when, decides all of it.
pub fn orders_decide()
    ensures makes { (script : Script) (start : Tables) (h : Journal)
        → IsUndisturbed script start h → h ≡ made script start (steps_in h) }
    ensures once { (script : Script) (start : Tables) (h g : Journal)
        → IsUndisturbed script start h → IsUndisturbed script start g → steps_in h ≡ steps_in g
        → h ≡ g }
{}

/// Of two runs that begin with the same steps, and of which the first kills no session after these, one is the other,
/// or it begins as another order of that one does, and leaves it at a step after these. So whoever has played one, and
/// will play an order for each of those beginnings, misses none; nor does he miss one with few switches and few kills
/// if he plays those beginnings alone that have as few.
pub fn others_cover()
    ensures covered { (script : Script) (start : Tables) (most_kills : ℕ) (begun : List Step)
        (es ds : List Entry) → IsRun script start most_kills es → IsRun script start most_kills ds
        → is_unkilled (length begun) (steps_in es) ≡ true → begins begun (steps_in es) ≡ true
        → begins begun (steps_in ds) ≡ true
        → (es ≡ ds) ⊎ ((other : List Step) × IsOther script [] (length begun) es other
        × (begins other (steps_in ds) ≡ true) × (kills other ≤ most_kills)
        × (cost (steps_in es) other ≤ switches (steps_in ds))) }
{}

/// An order doesn't begin as another order of it does, no order begins as two of these do, and each of these goes on
/// from the steps that all share.
pub fn others_are_apart()
    ensures differ { (script : Script) (n : ℕ) (es : List Entry) (other : List Step)
        → IsOther script [] n es other → begins other (steps_in es) ≡ true → ⊥ }
    ensures apart { (script : Script) (n : ℕ) (es : List Entry) (one other both : List Step)
        → IsOther script [] n es one → IsOther script [] n es other → begins one both ≡ true
        → begins other both ≡ true → one ≡ other }
    ensures longer { (script : Script) (begun : List Step) (es : List Entry) (other : List Step)
        → begins begun (steps_in es) ≡ true → IsOther script [] (length begun) es other
        → begins begun other ≡ true }
{}

/// The first steps of another order of a run can be made: each may come at its turn.
pub fn others_can_begin()
    ensures due { (script : Script) (start : Tables) (most_kills n : ℕ) (es : List Entry)
        (other : List Step) → IsRun script start most_kills es → IsOther script [] n es other
        → can_begin script start [] other ≡ true }
{}

/// A search in which the empty beginning waits at first, which plays at each step a run that begins as one that waits
/// and kills no session after that, and then lets those beginnings of its other orders wait that cost no more switches
/// than its level and have no more kills than are let, and tries those runs that make just as many switches, misses no
/// run within its level, and tries none twice; what waits can begin, and has no more kills than are let. If nothing
/// waits any more, and it goes on to the next level with the empty beginning, then it has tried all within the levels
/// before. If it was never told of an order that makes more, then it has tried all that there are.
pub fn searches_are_complete()
    ensures begins { (script : Script) (start : Tables) (most_kills most : ℕ)
        → IsSearch script start most_kills most 0 [] [] ([] ∷ []) false }
    ensures goes_on { (script : Script) (start : Tables) (most_kills most level : ℕ)
        (runs seen : List (List Entry)) (rest more : List (List Step)) (begun : List Step)
        (es : List Entry) (here few beyond cut on : Bool)
        → IsSearch script start most_kills most level runs seen (rest ++ begun ∷ []) beyond
        → IsRun script start most_kills es → begins begun (steps_in es) ≡ true
        → is_unkilled (length begun) (steps_in es) ≡ true
        → AreOthers script most_kills level (length begun) es more cut
        → IsTest (switches (steps_in es) ≡ level) here
        → IsTest (switches (steps_in es) ≤ level) few
        → (beyond ≡ true → on ≡ true) → (cut ≡ true → on ≡ true) → (few ≡ false → on ≡ true)
        → IsSearch script start most_kills most level (with_run here es runs)
        (with_run few es seen) (rest ++ more) on }
    ensures rises { (script : Script) (start : Tables) (most_kills most level : ℕ)
        (runs seen : List (List Entry)) (beyond : Bool)
        → IsSearch script start most_kills most level runs seen [] beyond → level < most
        → IsSearch script start most_kills most (level + 1) runs [] ([] ∷ []) false }
    ensures ends { (script : Script) (start : Tables) (most_kills most level : ℕ)
        (runs seen : List (List Entry)) (beyond : Bool)
        → IsSearch script start most_kills most level runs seen [] beyond
        → (level ≡ most) ⊎ (beyond ≡ false)
        → AreTried script start most_kills most (most + 1) runs }
    ensures stops { (script : Script) (start : Tables) (most_kills most level : ℕ)
        (runs seen : List (List Entry)) (waiting : List (List Step)) (beyond : Bool)
        → IsSearch script start most_kills most level runs seen waiting beyond
        → AreTried script start most_kills most level runs }
    ensures due { (script : Script) (start : Tables) (most_kills most level : ℕ)
        (runs seen : List (List Entry)) (rest : List (List Step)) (begun : List Step)
        (beyond : Bool)
        → IsSearch script start most_kills most level runs seen (rest ++ begun ∷ []) beyond
        → (can_begin script start [] begun ≡ true) × (kills begun ≤ most_kills) }
{}

/// A hit that isn't judged stale answers the committed row, by version and cells; and one that is answers another.
pub fn hits_are_judged()
    ensures judged { (start : Tables) (h : Journal) (e : Entry) (k : Key) (t : ℕ) (r : Row)
        → e.act ≡ Act.Get k t → e.reply ≡ Reply.Hit r
        → is_stale_hit start h e ≡ not (same_row (row_at (committed start h) k) r) }
{}
