//! A law of finish orders. The function does nothing: its contract is the law.

ghost use Rattle.std.specs.Prelude.{◌≡◌, ℕ, List};
ghost use Rattle.graph_base.specs.Edges.{IsInRange};
ghost use Rattle.graph_base.specs.Finish.{IsBehindTargets, IsFinishOrder};
ghost use Rattle.graph_base.specs.Reach.{IsAcyclic};

/// A graph has at most one order in which its nodes are finished. Where the graph is acyclic, that
/// order has every node once, behind the targets of its edges.
pub fn finish_order_is_unique()
    ensures unique { (g : List (List ℕ)) (order other : List ℕ)
        → IsFinishOrder g order → IsFinishOrder g other → order ≡ other }
    ensures behind { (g : List (List ℕ)) (order : List ℕ) → IsAcyclic g → IsInRange g
        → IsFinishOrder g order → IsBehindTargets g order }
{}
