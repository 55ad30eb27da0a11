//! Laws of kept edges. Each is a function that does nothing: its contract is the law.

ghost use Rattle.std.specs.Prelude.{◌≡◌, ◌↔◌, ℕ, ◌<◌, ◌≤◌, ◌++◌, List, Bool};
ghost use Rattle.std.specs.Prelude.{true, false, length};
ghost use Rattle.std.specs.List.{All, Contains};
ghost use Rattle.graph_base.specs.EdgeList.{Edge, IsEdgeWithin, graph_of, targets_of};
ghost use Rattle.graph_base.specs.Edges.{IsInRange};
ghost use Rattle.graph_base.specs.Reach.{IsAcyclic, Reaches};
ghost use Rattle.pm_lower_crates.specs.ClosedFront.{IsBetweenPassing, IsClosedBy, IsClosedFront, IsOneToOne};
ghost use Rattle.pm_lower_crates.specs.ClosedFront.{edges_of_passing, edges_of, renamed_edges};
ghost use Rattle.pm_lower_crates.specs.KeptFrom.{PairClosesCycle, KeepsPairs, kept_pairs, pairs_kept_from};

/// What is kept from a front is the front and those wanted edges of which each in turn closes no
/// cycle over the edges before it, and nothing else. Where the front has no cycle, a wanted edge is
/// kept exactly where its target does not reach its source over all edges that are.
pub fn kept_edges_close_no_cycle()
    ensures kept { (count : ℕ) (front wanted : List Edge)
        → All (IsEdgeWithin count) front → All (IsEdgeWithin count) wanted
        → KeepsPairs count front wanted (pairs_kept_from front wanted) }
    ensures unique { (count : ℕ) (front wanted a b : List Edge)
        → KeepsPairs count front wanted a → KeepsPairs count front wanted b → a ≡ b }
    ensures acyclic { (count : ℕ) (front wanted : List Edge)
        → All (IsEdgeWithin count) front → All (IsEdgeWithin count) wanted
        → IsAcyclic (graph_of count front)
        → IsAcyclic (graph_of count (pairs_kept_from front wanted)) }
    ensures exactly { (count : ℕ) (front wanted : List Edge) (e : Edge)
        → All (IsEdgeWithin count) front → All (IsEdgeWithin count) wanted
        → IsAcyclic (graph_of count front) → Contains wanted e
        → Contains (pairs_kept_from front wanted) e
        ↔ (PairClosesCycle count (pairs_kept_from front wanted) e → ⊥) }
{}

/// What is kept behind a closed front is what is kept without it, and each wanted edge into the
/// front is kept.
pub fn a_front_changes_nothing_behind_it()
    ensures apart { (in_front : ℕ → Bool) (front wanted : List Edge)
        → IsClosedFront in_front front wanted
        → pairs_kept_from front wanted ≡ front ++ kept_pairs wanted }
    ensures into { (in_front : ℕ → Bool) (front wanted : List Edge) (e : Edge)
        → IsClosedFront in_front front wanted → Contains wanted e → in_front e.1 ≡ true
        → Contains (pairs_kept_from front wanted) e }
    ensures in_front { (in_front : ℕ → Bool) (front wanted : List Edge) (a : ℕ)
        → IsClosedFront in_front front wanted → in_front a ≡ true
        → targets_of (pairs_kept_from front wanted) a ≡ targets_of front a }
    ensures behind { (in_front : ℕ → Bool) (front wanted : List Edge) (a : ℕ)
        → IsClosedFront in_front front wanted → All (IsBetweenPassing in_front) front → in_front a ≡ false
        → targets_of (pairs_kept_from front wanted) a ≡ targets_of (kept_pairs wanted) a }
    ensures in_parts { (front first second : List Edge)
        → pairs_kept_from front (first ++ second) ≡ pairs_kept_from (pairs_kept_from front first) second }
{}

/// A node of a closed front reaches what it reached before, and so no node behind the front.
pub fn a_front_reaches_nothing_behind_it()
    ensures same { (in_front : ℕ → Bool) (count : ℕ) (front wanted : List Edge) (a b : ℕ)
        → IsClosedFront in_front front wanted
        → All (IsEdgeWithin count) front → All (IsEdgeWithin count) wanted → in_front a ≡ true
        → Reaches (graph_of count (pairs_kept_from front wanted)) a b
        ↔ Reaches (graph_of count front) a b }
    ensures stays { (in_front : ℕ → Bool) (count : ℕ) (front wanted : List Edge) (a b : ℕ)
        → IsClosedFront in_front front wanted → in_front a ≡ true
        → Reaches (graph_of count (pairs_kept_from front wanted)) a b → in_front b ≡ true }
    ensures below { (size count : ℕ) (front wanted : List Edge) (a b : ℕ)
        → All (λ (e : Edge). e.1 < size) front → All (λ (e : Edge). size ≤ e.0) wanted
        → a < size → Reaches (graph_of count (pairs_kept_from front wanted)) a b → b < size }
{}

/// Keeping commutes with a one-to-one renaming of the nodes, and with leaving out nodes to which no
/// kept edge leads from those that stay.
pub fn keeping_commutes()
    ensures renamed { (passes : ℕ → Bool) (name : ℕ → ℕ) (front wanted : List Edge)
        → IsOneToOne passes name → All (IsBetweenPassing passes) front → All (IsBetweenPassing passes) wanted
        → pairs_kept_from (renamed_edges name front) (renamed_edges name wanted)
        ≡ renamed_edges name (pairs_kept_from front wanted) }
    ensures pruned { (stays : ℕ → Bool) (front wanted : List Edge)
        → IsClosedBy stays (pairs_kept_from front wanted)
        → pairs_kept_from (edges_of_passing stays front) (edges_of_passing stays wanted)
        ≡ edges_of_passing stays (pairs_kept_from front wanted) }
    ensures joined { (stays : ℕ → Bool) (name : ℕ → ℕ) (first second : List Edge)
        → IsOneToOne stays name → IsClosedBy stays (kept_pairs first)
        → All (IsBetweenPassing stays) second
        → let front = renamed_edges name (edges_of_passing stays (kept_pairs first)) in
        pairs_kept_from front (renamed_edges name second)
        ≡ renamed_edges name (edges_of_passing stays (kept_pairs (first ++ second))) }
{}

/// A graph is that of its edges, so that any graph whose edges lead to its nodes can be a front.
pub fn a_graph_is_that_of_its_edges()
    ensures graph { (g : List (List ℕ)) → graph_of (length g) (edges_of g) ≡ g }
    ensures within { (g : List (List ℕ)) → IsInRange g → All (IsEdgeWithin (length g)) (edges_of g) }
{}
