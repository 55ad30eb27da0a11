//! The stem and the extension of a file name.

ghost use Rattle.std.specs.Prelude.{◌≡◌};
ghost use Rattle.std.specs.Option.{option_copied};
ghost use Rattle.base_text_paths.specs.FileName.{extension_of, stem_of};

use crate::paths::clean::split_last;

/// What stands before the last dot of a name, unless that dot comes first.
pub(crate) fn stem_of(name: &str) -> &str
    ensures { result.now ≡ stem_of name.now }
{
    match split_last(name, '.') {
        Some((stem, _)) if !stem.is_empty() => stem,
        _ => name,
    }
}

/// What follows the last dot of a name, unless that dot comes first.
pub(crate) fn extension_of(name: &str) -> Option<&str>
    ensures { option_copied result ≡ extension_of name.now }
{
    let (stem, extension) = split_last(name, '.')?;
    if stem.is_empty() {
        None
    } else {
        Some(extension)
    }
}
