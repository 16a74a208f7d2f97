//! Laws of orders, cycles and closures, as functions with empty bodies: a caller cites one by calling it.

ghost use Rattle.std.specs.Prelude.{◌≡◌, ℕ, ◌<◌, IsTrue, List, length};
ghost use Rattle.order.specs.BuildOrder.{AreEdges, file_order, Ordered, Cyclic, IsBuildOrder, IsCycle};
ghost use Rattle.order.specs.LinkedGraph.{reaches, IsWay};

/// Where there is an order, each file comes once and after all that it depends on; where a cycle is reported, it is one.
/// Not both can be, so a cycle is reported exactly where no order of any kind has each file after what it depends on.
pub fn laws_of_orders()
    ensures ordered { (edges : List (List ℕ)) (order : List ℕ) → AreEdges edges →
        file_order edges ≡ Ordered order → IsBuildOrder edges order }
    ensures cyclic { (edges : List (List ℕ)) (files : List ℕ) → AreEdges edges →
        file_order edges ≡ Cyclic files → IsCycle edges files }
    ensures apart { (edges : List (List ℕ)) (order files : List ℕ) →
        IsBuildOrder edges order → IsCycle edges files → ⊥ }
{}

/// A file depends on another, directly or not, exactly where there is a way over files that each depend on the next.
pub fn laws_of_closures()
    ensures way { (edges : List (List ℕ)) (order : List ℕ) (file other : ℕ) →
        IsBuildOrder edges order → file < length edges → IsTrue (reaches edges file other) →
        (way : List ℕ) × IsWay edges file way other }
    ensures reached { (edges : List (List ℕ)) (order way : List ℕ) (file other : ℕ) →
        IsBuildOrder edges order → file < length edges → IsWay edges file way other →
        IsTrue (reaches edges file other) }
{}
