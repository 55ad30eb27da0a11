//! Copies of paths, and how paths are compared, hashed and written. A real path never equals a virtual one.

ghost use Rattle.std.specs.Prelude.{◌≡◌};

use crate::vfs_path::VfsPath;
use crate::vfs_path::repr::VfsPathRepr;
use base_text_paths::TryClone;
use std::alloc::{AllocError, Global};
use std::cmp::Ordering;
use std::fmt;
use std::hash::{Hash, Hasher};

impl TryClone for VfsPath {
    fn try_clone(&self, alloc: Global) -> Result<Self, AllocError> {
        match &self.repr {
            VfsPathRepr::Real(path) => {
                let path = path.try_clone(alloc)?;
                Ok(VfsPath::of_real(path))
            }
            VfsPathRepr::Virtual(path) => {
                let path = path.try_clone(alloc)?;
                Ok(VfsPath::of_virtual(path))
            }
        }
    }
}

impl PartialEq for VfsPath {
    ghost use Rattle.std.proofs.Common.{rules};
    ghost use Rattle.std.specs.Cmp.Rules.{comparing};
    ghost use Rattle.vfs_core.specs.VfsPath.{vfs_path_eq};

    ghost eq = { vfs_path_eq };

    ghost laws = { Prim.search (comparing, rules) };

    fn eq(&self, other: &Self) -> bool {
        self.is_virtual() == other.is_virtual() && self.as_str() == other.as_str()
    }
}

impl Eq for VfsPath {
    ghost use Rattle.std.proofs.Common.{rules};
    ghost use Rattle.std.specs.Cmp.Rules.{comparing};

    ghost laws = { Prim.search (comparing, rules) };
}

impl PartialOrd for VfsPath {
    ghost use Rattle.std.specs.Ordering.{as_partial_cmp};
    ghost use Rattle.vfs_core.specs.VfsPath.{vfs_path_cmp};
    ghost use Rattle.vfs_core.specs.VfsPathOrder.{vfs_path_po};

    ghost partial_cmp = { as_partial_cmp vfs_path_cmp };

    ghost laws = { vfs_path_po };

    fn partial_cmp(&self, other: &Self) -> Option<Ordering> {
        Some(self.cmp(other))
    }
}

impl Ord for VfsPath {
    ghost use Rattle.std.specs.Prelude.{refl};
    ghost use Rattle.vfs_core.specs.VfsPath.{vfs_path_cmp};
    ghost use Rattle.vfs_core.specs.VfsPathOrder.{vfs_path_cmp_total, vfs_path_ties};

    ghost cmp = { vfs_path_cmp };

    ghost total = { vfs_path_cmp_total };

    ghost matches_partial_cmp = { λ x y. refl };

    ghost matches_eq = { vfs_path_ties };

    fn cmp(&self, other: &Self) -> Ordering {
        match (&self.repr, &other.repr) {
            (VfsPathRepr::Real(path), VfsPathRepr::Real(other)) => path.cmp_to(other),
            (VfsPathRepr::Virtual(path), VfsPathRepr::Virtual(other)) => path.cmp_to(other),
            (VfsPathRepr::Real(_), VfsPathRepr::Virtual(_)) => Ordering::Less,
            (VfsPathRepr::Virtual(_), VfsPathRepr::Real(_)) => Ordering::Greater,
        }
    }
}

impl Hash for VfsPath {
    ghost use Rattle.std.specs.Prelude.{◌++◌};
    ghost use Rattle.std.specs.Hash as fed;
    ghost use Rattle.std.specs.Cmp.Rules.{hashing};
    ghost use Rattle.std.proofs.Common.{rules};

    ghost hash_input = { λ p. fed.bool p.is_virtual ++ fed.str p.text };

    ghost respects_eq = { Prim.search (hashing, rules) };

    fn hash<H: Hasher>(&self, state: &mut H) {
        self.is_virtual().hash(state);
        self.as_str().hash(state);
    }
}

impl fmt::Display for VfsPath {
    ghost use Rattle.std.specs.Prelude.{Some};
    ghost use Rattle.std.specs.Fmt.{padded};

    ghost output = { λ path. Some path.text };

    ghost styled_output = { λ path spec. Some (padded spec path.text) };

    fn fmt<W: fmt::Write>(&self, f: &mut fmt::Formatter<W>) -> fmt::Result {
        f.pad(self.as_str())
    }
}
