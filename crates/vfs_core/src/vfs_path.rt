//! Paths of the file system: real ones, which are normal and absolute, and virtual ones, which are texts.
//! No call takes one kind for the other.

ghost use Rattle.std.specs.Prelude.{◌≡◌, ◌↔◌, IfOk, IsFalse, None, Some, codes, if◌then◌else◌, is_some, string_bytes, unwrap_or};
ghost use Rattle.std.specs.Option.{option_copied, option_map};
ghost use Rattle.std.specs.Result.{IsErrOf};
ghost use Rattle.base_text_paths.specs.Paths.{components, normal, path_text, IsAbsolute};

mod repr;
mod traits;

use crate::real_path::RealPath;
use crate::vfs_path::repr::VfsPathRepr;
use crate::virtual_path::VirtualPath;
use base_text_paths::{AbsPath, AbsPathBuf, PathError, RelPath};
use std::alloc::{AllocError, Global};
use std::marker::Model;

/// A path of the file system. Contracts see its content.
#[derive(Debug, Drop)]
pub struct VfsPath {
    repr: VfsPathRepr,
}

impl Model for VfsPath {
    ghost use Rattle.vfs_core.specs.VfsPath.{path_content, PathContent};

    ghost Value = { PathContent };

    ghost view = { λ a. path_content a.repr };
}

impl VfsPath {
    ghost use Rattle.base_text_paths.specs.AbsPath.{abs_text, rel_text};
    ghost use Rattle.vfs_core.specs.RealPath.{name_texts, real_rest, stem_and_extension, IsNormal};
    ghost use Rattle.vfs_core.specs.VfsPath.{is_path_prefix, parts_above, real, real_above, text_above, virtual, virtual_above};
    ghost use Rattle.vfs_core.specs.VfsPath.{AreOfTwoKinds, AreReal, AreVirtual, IsReal, IsVirtual, JoinsReal, JoinsVirtual};
    ghost use Rattle.vfs_core.specs.VirtualPath.{virtual_parent, virtual_stem_and_extension, virtual_rest};

    /// The virtual path of a text, which stays as it is.
    pub fn new_virtual_path(path: String) -> Self
        requires { IsAbsolute (string_bytes path) }
        ensures { result ≡ virtual (string_bytes path) }
    {
        VfsPath {
            repr: VfsPathRepr::Virtual(VirtualPath::new(path)),
        }
    }

    /// The real path of a text, which is cleaned and normalized.
    pub fn new_real_path(alloc: Global, path: &str) -> Result<Self, PathError>
        ensures ok { IfOk result (λ made. made ≡ real (path_text (normal path.now))) }
        ensures same_components { IfOk result (λ made. components made.text ≡ normal path.now) }
        ensures not_absolute { IsErrOf result PathError.NotAbsolute ↔ ¬ (IsAbsolute path.now) }
    {
        let path = AbsPathBuf::new(alloc, path)?;
        Ok(VfsPath::from_abs(alloc, path)?)
    }

    /// The real path of an absolute path, which is normalized.
    pub fn from_abs(alloc: Global, path: AbsPathBuf) -> Result<Self, AllocError>
        ensures ok { IfOk result (λ made. made ≡ real (path_text (normal path))) }
        ensures same_components { IfOk result (λ made. components made.text ≡ normal path) }
    {
        let path = RealPath::of_abs(alloc, path)?;
        Ok(VfsPath::of_real(path))
    }

    fn of_real(path: RealPath) -> Self
        ensures { result ≡ real path }
    {
        VfsPath {
            repr: VfsPathRepr::Real(path),
        }
    }

    fn of_virtual(path: VirtualPath) -> Self
        ensures { result ≡ virtual path }
    {
        VfsPath {
            repr: VfsPathRepr::Virtual(path),
        }
    }

    /// Whether the path is virtual.
    pub fn is_virtual(&self) -> bool
        ensures { result ≡ self.now.is_virtual }
    {
        match &self.repr {
            VfsPathRepr::Real(_) => false,
            VfsPathRepr::Virtual(_) => true,
        }
    }

    /// The path itself, where it is real.
    pub fn as_path(&self) -> Option<AbsPath<'_>>
        ensures { option_map abs_text result
            ≡ (if self.now.is_virtual then None else Some self.now.text) }
    {
        match &self.repr {
            VfsPathRepr::Real(path) => Some(path.as_path()),
            VfsPathRepr::Virtual(_) => None,
        }
    }

    /// The text held.
    pub fn as_str(&self) -> &str
        ensures text { result.now ≡ self.now.text }
        ensures normal { IsReal self.now → IsNormal result.now }
    {
        match &self.repr {
            VfsPathRepr::Real(path) => path.as_str(),
            VfsPathRepr::Virtual(path) => path.as_str(),
        }
    }

    /// The path itself, where it is real.
    pub fn into_abs_path(self) -> Option<AbsPathBuf>
        ensures { result ≡ (if self.is_virtual then None else Some self.text) }
    {
        match self.repr {
            VfsPathRepr::Real(path) => Some(path.into_abs_path()),
            VfsPathRepr::Virtual(_) => None,
        }
    }

    /// The path with a tail behind it.
    /// A real path always has one: it is normalized, and an absolute tail stands alone.
    pub fn join(&self, alloc: Global, path: &str) -> Result<Option<VfsPath>, AllocError>
        ensures real { IfOk result (JoinsReal self.now path.now) }
        ensures virtual_path { IfOk result (JoinsVirtual self.now path.now) }
    {
        match &self.repr {
            VfsPathRepr::Real(base) => {
                let path = base.join(alloc, path)?;
                Ok(Some(VfsPath::of_real(path)))
            }
            VfsPathRepr::Virtual(base) => {
                let path = base.join(alloc, path)?;
                Ok(path.map(VfsPath::of_virtual))
            }
        }
    }

    /// Drops the last component of a real path, or what follows the last slash of a virtual one.
    /// Answers whether there was one.
    pub fn pop(&mut self) -> bool
        ensures path { IsReal self.old → self.new ≡ real (path_text (parts_above self.old)) }
        ensures components { IsReal self.old → components self.new.text ≡ parts_above self.old }
        ensures at_root { IsReal self.old → IsFalse result ↔ (self.old.text ≡ codes "/") }
        ensures virtual_path { IsVirtual self.old
            → self.new ≡ virtual (unwrap_or (virtual_parent self.old.text) self.old.text) }
        ensures cut { IsVirtual self.old → result ≡ is_some (virtual_parent self.old.text) }
    {
        match &mut self.repr {
            VfsPathRepr::Real(path) => path.pop(),
            VfsPathRepr::Virtual(path) => path.pop(),
        }
    }

    /// What `pop` leaves, where it drops something.
    pub fn parent(&self, alloc: Global) -> Result<Option<VfsPath>, AllocError>
        ensures real { IsReal self.now → IfOk result (λ above. above ≡ real_above self.now) }
        ensures virtual_path { IsVirtual self.now
            → IfOk result (λ above. above ≡ virtual_above self.now) }
    {
        match &self.repr {
            VfsPathRepr::Real(path) => {
                let above = path.parent(alloc)?;
                Ok(above.map(VfsPath::of_real))
            }
            VfsPathRepr::Virtual(path) => {
                let above = path.parent(alloc)?;
                Ok(above.map(VfsPath::of_virtual))
            }
        }
    }

    /// The text of the path above, for which no memory is taken.
    pub fn parent_text(&self) -> Option<&str>
        ensures { option_copied result ≡ text_above self.now }
    {
        match &self.repr {
            VfsPathRepr::Real(path) => path.parent_text(),
            VfsPathRepr::Virtual(path) => path.parent_text(),
        }
    }

    /// Whether `other` is of one kind with the path, and the first components are those of `other`.
    pub fn starts_with(&self, other: &VfsPath) -> bool
        ensures { result ≡ is_path_prefix other.now self.now }
    {
        match (&self.repr, &other.repr) {
            (VfsPathRepr::Real(path), VfsPathRepr::Real(front)) => path.starts_with(front),
            (VfsPathRepr::Virtual(path), VfsPathRepr::Virtual(front)) => path.starts_with(front),
            _ => false,
        }
    }

    /// What is left behind the components of `other`, where it is of one kind with the path, and they come first.
    pub fn strip_prefix(&self, other: &VfsPath) -> Option<RelPath<'_>>
        ensures real { AreReal self.now other.now
            → option_map rel_text result ≡ real_rest other.now.text self.now.text }
        ensures virtual_path { AreVirtual self.now other.now
            → option_map rel_text result ≡ virtual_rest other.now.text self.now.text }
        ensures of_two_kinds { AreOfTwoKinds self.now other.now → result ≡ None }
    {
        match (&self.repr, &other.repr) {
            (VfsPathRepr::Real(path), VfsPathRepr::Real(front)) => path.strip_prefix(front),
            (VfsPathRepr::Virtual(path), VfsPathRepr::Virtual(front)) => {
                let rest = path.strip_prefix(front)?;
                Some(RelPath::new(rest))
            }
            _ => None,
        }
    }

    /// The last name as a stem and an extension. A dot that comes first begins no extension.
    /// In a virtual path one slash at the end plays no part, and an empty name is none.
    pub fn name_and_extension(&self) -> Option<(&str, Option<&str>)>
        ensures real { IsReal self.now
            → option_map name_texts result ≡ stem_and_extension self.now.text }
        ensures virtual_path { IsVirtual self.now
            → option_map name_texts result ≡ virtual_stem_and_extension self.now.text }
    {
        match &self.repr {
            VfsPathRepr::Real(path) => path.name_and_extension(),
            VfsPathRepr::Virtual(path) => path.name_and_extension(),
        }
    }
}
