//! The parts of a path: its parent, its file name, and what is left of it below another.

ghost use Rattle.std.specs.Prelude.{◌≡◌, ◌-◌, drop, length, IfSome};
ghost use Rattle.std.specs.Option.{option_and_then, option_copied, option_map};
ghost use Rattle.base_text_paths.specs.FileName.{extension_of, stem_of};
ghost use Rattle.base_text_paths.specs.Paths.{components, file_name, is_prefix, parent_text};
ghost use Rattle.base_text_paths.specs.Paths.{text_below, without_last, IsResolved};
ghost use Rattle.base_text_paths.specs.AbsPath.{abs_text, rel_text};

use crate::paths::abs_path::AbsPath;
use crate::paths::clean::{below_slash, parent_len, rest_below, row_of, split_last};
use crate::paths::file_name;
use crate::paths::rel_path::RelPath;

impl<'a> AbsPath<'a> {
    /// The path without its last component.
    pub fn parent(self) -> Option<AbsPath<'a>>
        ensures text { option_map abs_text result ≡ parent_text (abs_text self.entry) }
        ensures components { IfSome result (λ parent.
            components (abs_text parent) ≡ without_last (components (abs_text self.entry))) }
        ensures resolved { IsResolved (abs_text self.entry)
            → IfSome result (λ parent. IsResolved (abs_text parent)) }
    {
        let path = self.as_str();
        let end = parent_len(path)?;
        Some(AbsPath::new(&path[..end]))
    }

    /// Whether the first components are those of `other`.
    pub fn starts_with(self, other: AbsPath<'_>) -> bool
        ensures { result
            ≡ is_prefix (components (abs_text other.entry)) (components (abs_text self.entry)) }
    {
        rest_below(row_of(self.as_str()), row_of(other.as_str())).is_some()
    }

    /// What is left behind the components of `other`, where they come first.
    pub fn strip_prefix(self, other: AbsPath<'_>) -> Option<RelPath<'a>>
        ensures text { option_map rel_text result
            ≡ text_below (components (abs_text other.entry)) (components (abs_text self.entry)) }
        ensures components { IfSome result (λ rest. components (rel_text rest)
            ≡ drop (length (components (abs_text other.entry)))
            (components (abs_text self.entry))) }
    {
        let rest = rest_below(row_of(self.as_str()), row_of(other.as_str()))?;
        Some(RelPath::new(below_slash(rest)))
    }

    /// The last component, unless it is `..`.
    pub fn file_name(self) -> Option<&'a str>
        ensures { option_copied result ≡ file_name (abs_text self.entry) }
    {
        let (_, name) = split_last(self.as_str(), '/')?;
        if name.is_empty() || name == ".." {
            None
        } else {
            Some(name)
        }
    }

    /// The file name up to its last dot, or all of it where that dot comes first or there is none.
    pub fn file_stem(self) -> Option<&'a str>
        ensures { option_copied result ≡ option_map stem_of (file_name (abs_text self.entry)) }
    {
        let name = self.file_name()?;
        Some(file_name::stem_of(name))
    }

    /// What follows the last dot of the file name, unless that dot comes first.
    pub fn extension(self) -> Option<&'a str>
        ensures { option_copied result
            ≡ option_and_then extension_of (file_name (abs_text self.entry)) }
    {
        let name = self.file_name()?;
        file_name::extension_of(name)
    }
}
