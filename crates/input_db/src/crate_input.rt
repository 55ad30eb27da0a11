//! Crates as a database holds them: what each is, under a number that stays.

ghost use Rattle.std.specs.Prelude.{◌≡◌};

use base_text_paths::{Boxed, CfgOptions, FileId, Shared, TryClone};
use crate_graph_values::{CrateData, CrateWorkspaceData, Dependency, Env, ExtraCrateData};
use input_db_files::Durability;
use std::alloc::{AllocError, Global};
use std::marker::Model;

/// A crate of a database: its place among all crates that the database was ever given. A later one
/// is greater.
#[derive(Clone, Copy, Debug, PartialEq, Eq, PartialOrd, Ord, Hash)]
pub struct Crate {
    place: usize,
}

impl Model for Crate {
    ghost use Rattle.std.specs.Prelude.{ℕ};

    ghost Value = { ℕ };

    ghost view = { λ a. a.place };

    ghost inverse = { λ n. record { place = n } };
}

impl Crate {
    /// The crate at a place.
    pub(crate) fn at(place: usize) -> Self
        ensures { result ≡ place }
    {
        Crate { place }
    }

    /// The place of the crate.
    pub(crate) fn place(self) -> usize
        ensures { result ≡ self }
    {
        self.place
    }
}

impl TryClone for Crate {
    fn try_clone(&self, _alloc: Global) -> Result<Self, AllocError> {
        Ok(*self)
    }
}

/// A crate of a database that another one names.
pub type BuiltDependency = Dependency<Crate>;

/// What distinguishes a crate of a database from others of its root file.
pub type BuiltCrateData = CrateData<Crate>;

/// What a database holds of a crate.
#[derive(Debug, Drop, PartialEq, Eq)]
pub struct CrateInput {
    pub crate_data: BuiltCrateData,
    pub extra_data: ExtraCrateData,
    /// Shared by the crates of a workspace.
    pub workspace_data: Shared<CrateWorkspaceData>,
    pub cfg_options: CfgOptions,
    pub env: Env,
    pub durability: Durability,
}

impl TryClone for CrateInput {
    fn try_clone(&self, alloc: Global) -> Result<Self, AllocError> {
        let workspace_data = self.workspace_data.try_clone(alloc)?;
        let cfg_options = self.cfg_options.try_clone(alloc)?;
        let env = self.env.try_clone(alloc)?;
        let extra_data = self.extra_data.try_clone(alloc)?;
        let crate_data = self.crate_data.try_clone(alloc)?;
        Ok(CrateInput {
            crate_data,
            extra_data,
            workspace_data,
            cfg_options,
            env,
            durability: self.durability,
        })
    }
}

/// What distinguishes a crate from all others, at every time: its root file alone, or with it its data and
/// its conditional compilation. These are equal, ordered and hashed by what they hold.
#[derive(Debug, Drop, PartialEq, Eq, PartialOrd, Ord, Hash)]
pub struct UniqueCrateData {
    pub root_file_id: FileId,
    /// None of the crate of a root file that is finished first.
    pub disambiguator: Option<Boxed<(BuiltCrateData, CfgOptions)>>,
}

impl TryClone for UniqueCrateData {
    fn try_clone(&self, alloc: Global) -> Result<Self, AllocError> {
        let disambiguator = self.disambiguator.try_clone(alloc)?;
        Ok(UniqueCrateData {
            root_file_id: self.root_file_id,
            disambiguator,
        })
    }
}
