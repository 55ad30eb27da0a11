//! A crate of a project, with paths that are absolute.

ghost use Rattle.std.specs.Prelude.{◌≡◌, map};
ghost use Rattle.std.specs.Iterator.{YieldsFirstBy, item_count};
ghost use Rattle.pm_json.specs.Crates.{stated_build};

use crate::crate_parts::{copy_head, copy_tail, crate_of};
use crate::dep::{CrateArrayIdx, Dep};
use crate::parts::BuildData;
use base_text_paths::{AbsPathBuf, ByText, CfgAtom, Edition, Items, Text, TryClone};
use crate_graph_values::{CrateDisplayName, TargetKind};
use std::alloc::{AllocError, Global};
use std::marker::Model;

/// A crate, with the places in the project's list of those that it depends on.
#[derive(Debug, PartialEq, Eq, Drop)]
pub struct Crate {
    pub display_name: Option<CrateDisplayName>,
    /// The file that the crate begins in.
    pub root_module: AbsPathBuf,
    pub edition: Edition,
    pub version: Option<Text>,
    pub deps: Items<Dep>,
    /// The atoms of the crate's groups, and then its own.
    pub cfg: Items<CfgAtom>,
    /// The target that the crate is compiled for.
    pub target: Option<Text>,
    pub env: ByText<Text>,
    /// Attributes of the whole crate, each without what stands round it in code.
    pub crate_attrs: Items<Text>,
    pub proc_macro_dylib_path: Option<AbsPathBuf>,
    pub is_workspace_member: bool,
    /// The directories that the crate's files are in.
    pub include: Items<AbsPathBuf>,
    /// The directories below them that are left out.
    pub exclude: Items<AbsPathBuf>,
    pub is_proc_macro: bool,
    /// The directory that procedural macros run in.
    pub proc_macro_cwd: Option<AbsPathBuf>,
    pub repository: Option<Text>,
    pub build: Option<Build>,
}

impl Crate {
    /// The places of the crates that this one depends on, in order.
    pub fn iter_deps(&self) -> DepIter<'_>
        ensures { result ≡ map (λ dep. dep.krate) self.now.deps }
    {
        DepIter {
            left: self.deps.as_slice(),
        }
    }
}

impl TryClone for Crate {
    fn try_clone(&self, alloc: Global) -> Result<Self, AllocError> {
        let head = copy_head(alloc, self)?;
        Ok(crate_of(head, copy_tail(alloc, self)?))
    }
}

/// How a build system knows a crate.
#[derive(Debug, PartialEq, Eq, Drop)]
pub struct Build {
    /// The name of the target, as `//ide/rust:analyzer`. Its form is the build system's own.
    pub label: Text,
    /// The file that describes the target, as a `BUCK` or a `BUILD` file.
    pub build_file: Text,
    pub target_kind: TargetKind,
}

impl TryClone for Build {
    fn try_clone(&self, alloc: Global) -> Result<Self, AllocError> {
        Ok(Build {
            label: self.label.try_clone(alloc)?,
            build_file: self.build_file.try_clone(alloc)?,
            target_kind: self.target_kind,
        })
    }
}

impl From<BuildData> for Build {
    ghost from_gives = { λ stated build. build ≡ stated_build stated };

    fn from(stated: BuildData) -> Build {
        Build {
            label: stated.label,
            build_file: stated.build_file,
            target_kind: TargetKind::from(stated.target_kind),
        }
    }
}

/// The places of a crate's dependencies that are left, from the first on.
#[derive(Drop)]
pub struct DepIter<'a> {
    left: &'a [Dep],
}

impl<'a> Model for DepIter<'a> {
    ghost use Rattle.std.specs.Prelude.{List, map};
    ghost use Rattle.pm_json.specs.declared.dep.CrateArrayIdx.{CrateArrayIdx};

    ghost Value = { List CrateArrayIdx };

    ghost view = { λ it. map (λ dep. dep.krate) it.left.now };
}

impl<'a> Iterator for DepIter<'a> {
    type Item = CrateArrayIdx;

    ghost next_gives = { YieldsFirstBy (λ place. place) (λ left. left) };

    ghost remaining = { item_count (λ left. left) };

    fn next(&mut self) -> Option<CrateArrayIdx> {
        let (first, others) = self.left.split_first()?;
        self.left = others;
        Some(first.krate)
    }
}
