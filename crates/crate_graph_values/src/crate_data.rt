//! The data that identifies a crate, over any type of number by which it names others.

ghost use Rattle.std.specs.Prelude.{◌≡◌, ◌↔◌, true, false, IfOk};
ghost use Rattle.crate_graph_values.specs.CrateData.{prelude_of, is_of_sysroot};

use crate::names::CrateName;
use crate::origin::CrateOrigin;
use crate::target_kind::TargetKind;
use base_text_paths::{AbsPathBuf, Edition, FileId, Idx, Items, Text, TryClone};
use std::alloc::{AllocError, Global};

/// The tag of the numbers by which a builder knows its crates.
pub enum CrateTag {}

/// The number of a crate in its builder.
pub type CrateBuilderId = Idx<CrateTag>;

/// A crate that another crate names.
#[derive(Drop)]
#[derive_where(Debug, PartialEq, Eq, PartialOrd, Ord, Hash; Id)]
pub struct Dependency<Id> {
    pub crate_id: Id,
    pub name: CrateName,
    prelude: bool,
    sysroot: bool,
}

/// A dependency between the crates of a builder.
pub type DependencyBuilder = Dependency<CrateBuilderId>;

impl Dependency<CrateBuilderId> {
    /// A dependency of the crate's own choice, which its code names with no `extern crate`.
    pub fn new(name: CrateName, crate_id: CrateBuilderId) -> Self
        ensures names { result.crate_id ≡ crate_id }
        ensures under { result.name ≡ name }
        ensures prelude { prelude_of result ≡ true }
        ensures sysroot { is_of_sysroot result ≡ false }
    {
        Dependency {
            crate_id,
            name,
            prelude: true,
            sysroot: false,
        }
    }
}

impl<Id> Dependency<Id> {
    pub fn with_prelude(name: CrateName, crate_id: Id, prelude: bool, sysroot: bool) -> Self
        ensures names { result.crate_id ≡ crate_id }
        ensures under { result.name ≡ name }
        ensures prelude { prelude_of result ≡ prelude }
        ensures sysroot { is_of_sysroot result ≡ sysroot }
    {
        Dependency {
            crate_id,
            name,
            prelude,
            sysroot,
        }
    }

    /// Whether the crate's code names it with no `extern crate`.
    pub fn is_prelude(&self) -> bool
        ensures { result ≡ prelude_of self.now }
    {
        self.prelude
    }

    /// Whether it comes with the language.
    pub fn is_sysroot(&self) -> bool
        ensures { result ≡ is_of_sysroot self.now }
    {
        self.sysroot
    }
}

impl<Id: Copy> Dependency<Id> {
    /// A copy that names a crate by another number.
    pub fn with_id(&self, alloc: Global, crate_id: Id) -> Result<Self, AllocError>
        ensures { IfOk result (λ copy. copy ≡ record self.now { crate_id = crate_id }) }
    {
        let name = self.name.try_clone(alloc)?;
        Ok(Dependency {
            crate_id,
            name,
            prelude: self.prelude,
            sysroot: self.sysroot,
        })
    }
}

impl<Id: Copy> TryClone for Dependency<Id> {
    fn try_clone(&self, alloc: Global) -> Result<Self, AllocError> {
        let name = self.name.try_clone(alloc)?;
        Ok(Dependency {
            crate_id: self.crate_id,
            name,
            prelude: self.prelude,
            sysroot: self.sysroot,
        })
    }
}

/// The data that identifies a crate among those of its root file.
#[derive(Debug, PartialEq, Eq, PartialOrd, Ord, Hash, Drop)]
pub struct CrateData<Id> {
    pub root_file_id: FileId,
    pub edition: Edition,
    pub dependencies: Items<Dependency<Id>>,
    pub origin: CrateOrigin,
    /// Attributes beside those of the code, each in its `#![]`.
    pub crate_attrs: Items<Text>,
    pub target_kind: TargetKind,
    /// Where the crate's procedural macros run.
    pub proc_macro_cwd: AbsPathBuf,
}

/// The data of a crate in its builder.
pub type CrateDataBuilder = CrateData<CrateBuilderId>;

impl<Id: Copy> TryClone for CrateData<Id> {
    fn try_clone(&self, alloc: Global) -> Result<Self, AllocError> {
        let dependencies = self.dependencies.try_clone(alloc)?;
        let crate_attrs = self.crate_attrs.try_clone(alloc)?;
        let proc_macro_cwd = self.proc_macro_cwd.try_clone(alloc)?;
        let origin = self.origin.try_clone(alloc)?;
        Ok(CrateData {
            root_file_id: self.root_file_id,
            edition: self.edition,
            dependencies,
            origin,
            crate_attrs,
            target_kind: self.target_kind,
            proc_macro_cwd,
        })
    }
}
