//! Laws of the definitions. Each is a function that does nothing: its contract is the law.

ghost use Rattle.std.specs.Prelude.{ℕ, List, Option};
ghost use Rattle.pm_lower_crates.specs.Ranks.{AreInOrder};
ghost use Rattle.pm_lower_crates.specs.WantedEdges.{Public};
ghost use Rattle.pm_lower_crates.specs.JsonRows.{JsonRow};
ghost use Rattle.pm_lower_crates.specs.JsonWantedEdges.{json_ranked_edges};

/// The wanted edges of a part stand in the order of their ranks, and no two have one rank.
pub fn wanted_edges_are_ranked()
    ensures { (part : ℕ) (public : Public) (rows : List (Option JsonRow))
        → AreInOrder (json_ranked_edges part public rows) }
{}
