//! Trees, which say what files there are. A path is asked at its normal form.

ghost use Rattle.std.specs.Prelude.{◌≡◌, IfOk};
ghost use Rattle.base_text_paths.specs.AbsPath.{abs_text};
ghost use Rattle.base_text.specs.Tree.{TreeFiles, holds_path, names_in, file_text};

use base_text_paths::{AbsPath, Items, Text};
use std::alloc::{AllocError, Global};

/// A finite map from normal paths to texts. A directory is a path above a file, so none is empty.
pub trait Tree {
    // The path and the text of each file.
    ghost files: { Self → TreeFiles };

    /// Whether the path is a file or a directory.
    fn holds(&self, alloc: Global, path: AbsPath<'_>) -> Result<bool, AllocError>
        ensures { IfOk result (λ answer. answer ≡ holds_path (files self.now) (abs_text path.entry)) };

    /// The names of the entries of a directory, in the order of their bytes, or None where the path
    /// is none.
    fn lists(&self, alloc: Global, path: AbsPath<'_>) -> Result<Option<Items<Text>>, AllocError>
        ensures { IfOk result (λ answer. answer ≡ names_in (files self.now) (abs_text path.entry)) };

    /// A copy of the text of a file, or None where the path is none.
    fn reads(&self, alloc: Global, path: AbsPath<'_>) -> Result<Option<Text>, AllocError>
        ensures { IfOk result (λ answer. answer ≡ file_text (files self.now) (abs_text path.entry)) };
}
