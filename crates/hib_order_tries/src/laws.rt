// What follows from what a search tells.
ghost use Rattle.hib_base.specs.Tables.{Tables};
ghost use Rattle.hib_base.specs.declared.entries.Entry.{Entry};
ghost use Rattle.hib_base.specs.declared.scripts.Script.{Script};
ghost use Rattle.hib_order_law.specs.Orders.{IsRun, IsWithin, steps_in};
ghost use Rattle.hib_order_law.specs.Search.{AreTried};
ghost use Rattle.hib_order_tries.specs.Found.{IsFound};
ghost use Rattle.hib_order_tries.specs.declared.found.Found.{Found};
ghost use Rattle.std.specs.Prelude.{◌≡◌, ◌+◌, ℕ, Bool, List, IfNone, IfSome, false, true};

/// If all orders within a number of switches and one of kills were tried and none is told to have something, then no
/// run within these has it, whoever made it. And an order that is told to have it is that of a run that has it.
pub fn what_is_told_is_so()
    ensures none { (script : Script) (start : Tables) (has : List Entry → Bool) (most_kills most : ℕ)
        (runs : List (List Entry)) (found : Found)
        → AreTried script start most_kills most (most + 1) runs → IsFound has runs found
        → IfNone found.first ((es : List Entry) → IsWithin script start most_kills most es
        → has es ≡ false) }
    ensures first { (script : Script) (start : Tables) (has : List Entry → Bool) (most_kills most done : ℕ)
        (runs : List (List Entry)) (found : Found)
        → AreTried script start most_kills most done runs → IsFound has runs found
        → IfSome found.first (λ f. (es : List Entry) × IsRun script start most_kills es
        × (f.order.items ≡ steps_in es) × (has es ≡ true)) }
{}
