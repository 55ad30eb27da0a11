//! Laws of the definitions. Each is a function that does nothing: its contract is the law.

ghost use Rattle.std.specs.Prelude.{◌≡◌, ◌↔◌, ℕ, ◌<◌, Bool, ◌++◌, List, Ok, length, map};
ghost use Rattle.std.specs.List.{All};
ghost use Rattle.crate_graph.specs.Graph.{Graph};
ghost use Rattle.pm_lower_crates.specs.KeptColumns.{among_by};
ghost use Rattle.pm_lower_crates.specs.ClosedFront.{IsBetweenPassing, IsClosedBy, IsClosedFront, IsOneToOne, renamed_edge};
ghost use Rattle.pm_cargo.specs.Workspace.{Workspace};
ghost use Rattle.pm_lower_crates.specs.Loader.{FileNumbers};
ghost use Rattle.pm_lower_crates.specs.Facts.{Facts};
ghost use Rattle.pm_lower_crates.specs.KeptEdges.{AreKept, IsWithinRows, ends, kept_edges, kept_from};
ghost use Rattle.pm_lower_crates.specs.Lowering.{Crate, HasCrates, ProjectPart, cargo_rows, lowered, lowered_behind, no_project_part};
ghost use Rattle.pm_lower_crates.specs.Ranks.{AreInOrder};
ghost use Rattle.pm_lower_crates.specs.Shown.{ShowsRows, none_sorted, own_order};
ghost use Rattle.pm_lower_crates.specs.WantedEdges.{Edge, Public};

/// The kept edges are those of which each in turn closes no cycle over the edges kept before it, and
/// there are no others.
pub fn kept_edges_close_no_cycle()
    ensures kept { (count : ℕ) (wanted : List Edge) → All (IsWithinRows count) wanted
        → AreKept count wanted (kept_edges wanted) }
    ensures unique { (count : ℕ) (wanted a b : List Edge) → AreKept count wanted a
        → AreKept count wanted b → a ≡ b }
{}

/// Edges of a front that no edge leaves settle nothing of what is kept behind it.
pub fn a_front_changes_nothing_behind_it()
    ensures { (in_front : ℕ → Bool) (front wanted : List Edge)
        → IsClosedFront in_front (map ends front) (map ends wanted)
        → kept_from front wanted ≡ front ++ kept_edges wanted }
{}

/// Keeping commutes with a one-to-one renaming of rows, with leaving out rows to which no kept edge leads from
/// those that stay, and with both at once where the edges of a first part are kept before.
pub fn keeping_commutes()
    ensures renamed { (passes : ℕ → Bool) (name : ℕ → ℕ) (rename : Edge → Edge)
        (front wanted : List Edge) → IsOneToOne passes name
        → ((e : Edge) → ends (rename e) ≡ renamed_edge name (ends e))
        → All (IsBetweenPassing passes) (map ends front) → All (IsBetweenPassing passes) (map ends wanted)
        → kept_from (map rename front) (map rename wanted)
        ≡ map rename (kept_from front wanted) }
    ensures pruned { (stays : ℕ → Bool) (front wanted : List Edge)
        → IsClosedBy stays (map ends (kept_from front wanted))
        → kept_from (among_by ends stays front) (among_by ends stays wanted)
        ≡ among_by ends stays (kept_from front wanted) }
    ensures joined { (stays : ℕ → Bool) (name : ℕ → ℕ) (rename : Edge → Edge)
        (first second : List Edge) → IsOneToOne stays name
        → ((e : Edge) → ends (rename e) ≡ renamed_edge name (ends e))
        → IsClosedBy stays (map ends (kept_edges first)) → All (IsBetweenPassing stays) (map ends second)
        → kept_from (map rename (among_by ends stays (kept_edges first))) (map rename second)
        ≡ map rename (among_by ends stays (kept_edges (first ++ second))) }
{}

/// The wanted edges of a workspace stand in the order of their ranks, and no two have one rank.
pub fn wanted_edges_are_ranked()
    ensures { (files : FileNumbers) (facts : Facts) (public : Public) (n : ℕ) (w : Workspace)
        → AreInOrder (cargo_rows files facts public n w).wanted }
{}

/// Rows in their own order are the crates of a graph under their own numbers.
pub fn rows_in_their_own_order_keep_their_numbers()
    ensures { (limit : ℕ) (crates : List Crate) (graph : Graph)
        → All (λ c. All (λ d. d.target < length crates) c.deps) crates
        → ShowsRows limit (own_order crates) none_sorted crates graph
        ↔ HasCrates limit graph (Ok crates) }
{}

/// A project without a toolchain's libraries is refused for its own rows or its own names, and else has its own
/// crates.
pub fn no_libraries_change_nothing()
    ensures { (limit : ℕ) (project : ProjectPart)
        → lowered limit no_project_part 0 project ≡ lowered_behind limit 0 project }
{}
