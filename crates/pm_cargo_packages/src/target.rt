//! Targets of packages, each under its number.

ghost use Rattle.std.specs.Prelude.{◌≡◌};
ghost use Rattle.pm_cargo_packages.specs.TargetKinds.{known_kind, target_kind};

use crate::package::Package;
use base_text_paths::{AbsPathBuf, Idx, Items, Text, TryClone};
use crate_graph_values::TargetKind;
use std::alloc::{AllocError, Global};

/// The tag of the numbers of targets.
pub enum TargetTag {}

/// The number of a target in its workspace.
pub type Target = Idx<TargetTag>;

/// A crate that a package builds.
#[derive(Debug, PartialEq, Eq, Drop)]
pub struct TargetData {
    pub package: Package,
    pub name: Text,
    /// The file that the crate begins in.
    pub root: AbsPathBuf,
    pub kind: TargetKind,
    /// The features without which the target is not built.
    pub required_features: Items<Text>,
}

impl TryClone for TargetData {
    fn try_clone(&self, alloc: Global) -> Result<Self, AllocError> {
        Ok(TargetData {
            package: self.package,
            name: self.name.try_clone(alloc)?,
            root: self.root.try_clone(alloc)?,
            kind: self.kind,
            required_features: self.required_features.try_clone(alloc)?,
        })
    }
}

// What a kind of a document is, where it is known.
fn known_kind(kind: &cargo_meta_values::TargetKind) -> Option<TargetKind>
    ensures { result ≡ known_kind kind.now }
{
    match kind {
        cargo_meta_values::TargetKind::Bin => Some(TargetKind::Bin),
        cargo_meta_values::TargetKind::Test => Some(TargetKind::Test),
        cargo_meta_values::TargetKind::Bench => Some(TargetKind::Bench),
        cargo_meta_values::TargetKind::Example => Some(TargetKind::Example),
        cargo_meta_values::TargetKind::CustomBuild => Some(TargetKind::BuildScript),
        cargo_meta_values::TargetKind::ProcMacro => Some(TargetKind::Lib {
            is_proc_macro: true,
        }),
        cargo_meta_values::TargetKind::Lib
        | cargo_meta_values::TargetKind::DyLib
        | cargo_meta_values::TargetKind::CDyLib
        | cargo_meta_values::TargetKind::StaticLib
        | cargo_meta_values::TargetKind::RLib => Some(TargetKind::Lib {
            is_proc_macro: false,
        }),
        cargo_meta_values::TargetKind::Unknown(_) => None,
    }
}

/// The kind of a target, by the first of its kinds that is known.
pub fn target_kind_new(kinds: &[cargo_meta_values::TargetKind]) -> TargetKind
    ensures { result ≡ target_kind kinds.now }
{
    for kind in kinds {
        if let Some(known) = known_kind(kind) {
            return known;
        }
    }
    TargetKind::Other
}
