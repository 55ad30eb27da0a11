//! What the rows of a project are put behind.

ghost use Rattle.std.specs.Prelude.{◌≡◌, [], length, map};
ghost use Rattle.std.specs.Option.{option_map};
ghost use Rattle.base_text_paths.specs.Arena.{number_of};
ghost use Rattle.crate_graph.specs.Graph.{IsWellMadeGraph};
ghost use Rattle.pm_lower_crates.specs.Front.{IsPublicIn};
ghost use Rattle.pm_lower_crates.specs.Lowering.{dep_seen};
ghost use Rattle.pm_lower_crates.specs.WantedEdges.{no_public};

use base_text_paths::Items;
use crate_graph::CrateGraphBuilder;
use crate_graph_values::{CrateBuilderId, DependencyBuilder};
use std::alloc::Global;
use std::marker::Model;

/// The crates of a toolchain's libraries that each crate of a project may name: the public ones in the order of
/// their rows, and the library of procedural macros.
#[derive(Drop)]
pub struct PublicRows {
    rows: Items<DependencyBuilder>,
    macros: Option<CrateBuilderId>,
}

impl Model for PublicRows {
    ghost use Rattle.std.specs.Prelude.{map};
    ghost use Rattle.std.specs.Option.{option_map};
    ghost use Rattle.base_text_paths.specs.Arena.{number_of};
    ghost use Rattle.pm_lower_crates.specs.Lowering.{dep_seen};
    ghost use Rattle.pm_lower_crates.specs.WantedEdges as seen;

    ghost Value = { seen.Public };

    ghost view = { λ a. record { rows = map dep_seen a.rows; macros = option_map number_of a.macros } };
}

impl PublicRows {
    /// These crates. Each names itself as code does, with its marks.
    pub fn new(rows: Items<DependencyBuilder>, macros: Option<CrateBuilderId>) -> Self
        ensures { result ≡ record {
          rows = map dep_seen rows;
          macros = option_map number_of macros;
        } }
    {
        PublicRows { rows, macros }
    }

    /// No crates.
    pub fn none(alloc: Global) -> Self
        ensures { result ≡ no_public }
    {
        PublicRows::new(Items::empty(alloc), None)
    }

    /// The public ones.
    pub(crate) fn rows(&self) -> &[DependencyBuilder]
        ensures { map dep_seen result.now ≡ self.now.rows }
    {
        self.rows.as_slice()
    }

    /// The library of procedural macros.
    pub fn macros(&self) -> Option<CrateBuilderId>
        ensures { option_map number_of result ≡ self.now.macros }
    {
        self.macros
    }
}

/// A graph of crates that a project's own are put behind, and which of them these may name.
#[derive(Drop)]
pub struct Front {
    graph: CrateGraphBuilder,
    public: PublicRows,
    size: u32,
}

impl Model for Front {
    ghost use Rattle.std.specs.Prelude.{◌≡◌, length};
    ghost use Rattle.pm_lower_crates.specs.Front as seen;

    ghost Value = { seen.Front };

    ghost view = { λ a. record { graph = a.graph; public = a.public } };

    ghost invariant = { λ a. (a.size ≡ length a.graph.crates)
        × seen.IsFront (record { graph = a.graph; public = a.public }) };
}

impl Front {
    /// A graph without crates, which takes as many as the limit.
    pub fn empty(alloc: Global, limit: u32) -> Self
        ensures limit { result.graph.limit ≡ limit }
        ensures crates { result.graph.crates ≡ [] }
        ensures public { result.public ≡ no_public }
    {
        let graph = CrateGraphBuilder::new(alloc, limit);
        let public = PublicRows::none(alloc);
        Front::new(graph, public)
    }

    /// A graph, of whose crates these may be named. `CrateGraphBuilder::contains` tells which it has.
    pub fn new(graph: CrateGraphBuilder, public: PublicRows) -> Self
        requires { IsPublicIn (length graph.crates) public }
        ensures { result ≡ record { graph = graph; public = public } }
    {
        let size = graph.len() as u32;
        Front {
            graph,
            public,
            size,
        }
    }

    /// How many crates there are: the number of the first one behind them.
    pub fn size(&self) -> u32
        ensures { result ≡ length self.now.graph.crates }
    {
        self.size
    }

    /// The graph, and its public crates. The graph is acyclic and within its limit, and has these crates.
    pub fn into_parts(self) -> (CrateGraphBuilder, PublicRows)
        ensures graph { result.0 ≡ self.graph }
        ensures public { result.1 ≡ self.public }
        ensures well_made { IsWellMadeGraph self.graph.crates self.graph.limit }
        ensures within { IsPublicIn (length self.graph.crates) self.public }
    {
        (self.graph, self.public)
    }
}
