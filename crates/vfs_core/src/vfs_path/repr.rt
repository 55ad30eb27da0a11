//! The two kinds of paths.

use crate::real_path::RealPath;
use crate::virtual_path::VirtualPath;

/// What a path of the file system holds.
#[derive(Debug, Drop)]
pub(crate) enum VfsPathRepr {
    Real(RealPath),
    Virtual(VirtualPath),
}
