//! The text by which a path is placed.

ghost use Rattle.std.specs.Prelude.{◌≡◌};
ghost use Rattle.vfs_sets.specs.Placement.{placed_text};

use vfs_core::VfsPath;

/// The text by which a path is placed: that of the path above, or its own where there is none.
pub(crate) fn placed_text(path: &VfsPath) -> &str
    ensures { result.now ≡ placed_text path.now }
{
    match path.parent_text() {
        None => path.as_str(),
        Some(text) => text,
    }
}
