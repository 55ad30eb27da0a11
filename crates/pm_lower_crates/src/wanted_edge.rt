//! An edge that a row wants.

ghost use Rattle.std.specs.Prelude.{◌≡◌, true, false};
ghost use Rattle.base_text_paths.specs.Arena.{number_of};
ghost use Rattle.pm_lower_crates.specs.Lowering.{dep_seen};

use base_text_paths::TryClone;
use crate_graph_values::{CrateBuilderId, CrateName, Dependency, DependencyBuilder};
use std::alloc::{AllocError, Global};
use std::marker::Model;

/// A dependency that a row wants.
#[derive(Drop)]
pub struct WantedEdge {
    source: CrateBuilderId,
    dep: DependencyBuilder,
}

impl Model for WantedEdge {
    ghost use Rattle.base_text_paths.specs.Arena.{number_of};
    ghost use Rattle.pm_lower_crates.specs.Lowering.{dep_seen};
    ghost use Rattle.pm_lower_crates.specs.WantedEdges as seen;

    ghost Value = { seen.Edge };

    ghost view = { λ a. record { source = number_of a.source; dep = dep_seen a.dep } };
}

impl WantedEdge {
    /// An edge between the rows of two numbers, under the name that the first knows the other by.
    pub fn new(source: u32, name: CrateName, target: u32) -> Self
        ensures { result ≡ record {
          source = source;
          dep = record { name = name; target = target; prelude = true; sysroot = false };
        } }
    {
        WantedEdge {
            source: CrateBuilderId::from_raw(source),
            dep: Dependency::new(name, CrateBuilderId::from_raw(target)),
        }
    }

    /// An edge from the row of a number, with this dependency and its marks.
    pub fn of_dep(source: u32, dep: DependencyBuilder) -> Self
        ensures { result ≡ record { source = source; dep = dep_seen dep } }
    {
        WantedEdge {
            source: CrateBuilderId::from_raw(source),
            dep,
        }
    }

    /// The row that wants the dependency, and the dependency.
    pub(crate) fn into_parts(self) -> (CrateBuilderId, DependencyBuilder)
        ensures source { number_of result.0 ≡ self.source }
        ensures dep { dep_seen result.1 ≡ self.dep }
    {
        (self.source, self.dep)
    }
}

impl TryClone for WantedEdge {
    fn try_clone(&self, alloc: Global) -> Result<Self, AllocError> {
        Ok(WantedEdge {
            source: self.source,
            dep: self.dep.try_clone(alloc)?,
        })
    }
}
