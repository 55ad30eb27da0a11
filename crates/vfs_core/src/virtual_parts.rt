//! How the text of a virtual path is cut: at its last slash, behind `../` and `./`, into names, and by components.

ghost use Rattle.std.specs.Prelude.{◌≡◌, ◌<◌, [], MatchOption};
ghost use Rattle.std.specs.Option.{option_copied, option_map};
ghost use Rattle.base_text_paths.specs.FileName.{extension_of, stem_of};
ghost use Rattle.base_text_paths.specs.Paths.{components};
ghost use Rattle.vfs_core.specs.RealPath.{name_texts};
ghost use Rattle.vfs_core.specs.VirtualPath.{trim_back, both_texts, climb, trim_front, last_name, virtual_parent};
ghost use Rattle.vfs_core.specs.VirtualPath.{virtual_without_end_slash, virtual_stem_and_extension, virtual_rest, without_dots};
ghost use Rattle.vfs_core.specs.VirtualPath.{TakesComponent};

use base_text_paths::paths::{is_component, split_last};

/// What stands before the last slash.
pub(crate) fn parent_of(text: &str) -> Option<&str>
    ensures { option_copied result ≡ virtual_parent text.now }
{
    let (front, _) = split_last(text, '/')?;
    Some(front)
}

/// Takes each leading `../` off a tail, and as many last names off a base, where it has them.
pub(crate) fn climb<'a, 'b>(base: &'a str, tail: &'b str) -> Option<(&'a str, &'b str)>
    ensures { option_map both_texts result ≡ climb base.now tail.now }
{
    let mut above = base;
    let mut rest = tail;
    while let Some(more) = rest.strip_prefix("../") {
        above = parent_of(above)?;
        rest = more;
    }
    Some((above, rest))
}

/// Takes each leading `./` off a tail.
pub(crate) fn without_dots(tail: &str) -> &str
    ensures { result.now ≡ without_dots tail.now }
{
    let mut rest = tail;
    while let Some(more) = rest.strip_prefix("./") {
        rest = more;
    }
    rest
}

/// The text without one slash at its end.
fn virtual_without_end_slash(text: &str) -> &str
    ensures { result.now ≡ virtual_without_end_slash text.now }
{
    match text.strip_suffix('/') {
        Some(front) => front,
        None => text,
    }
}

/// What follows the last slash, or the whole text where there is none.
fn last_name(text: &str) -> &str
    ensures { result.now ≡ last_name text.now }
{
    match split_last(text, '/') {
        Some((_, name)) => name,
        None => text,
    }
}

/// The last name as a stem and an extension, where it is not empty. One slash at the end plays no part.
pub(crate) fn name_and_extension(text: &str) -> Option<(&str, Option<&str>)>
    ensures { option_map name_texts result ≡ virtual_stem_and_extension text.now }
{
    let name = last_name(virtual_without_end_slash(text));
    if name.is_empty() {
        None
    } else {
        Some(stem_and_extension(name))
    }
}

/// A name as a stem and an extension, which follows the last dot unless that dot comes first.
fn stem_and_extension(name: &str) -> (&str, Option<&str>)
    ensures { name_texts result ≡ (stem_of name.now, extension_of name.now) }
{
    match split_last(name, '.') {
        Some((stem, extension)) if !stem.is_empty() => (stem, Some(extension)),
        _ => (name, None),
    }
}

/// The first component of a text, and what follows the slash that ends it.
fn first_component(text: &str) -> Option<(&str, &str)>
    ensures { MatchOption result (components text.now ≡ [])
        (λ parts. TakesComponent text.now parts.0.now parts.1.now) }
{
    let mut rest = text;
    while let Some((part, more)) = rest.split_once('/') {
        if is_component(part) {
            return Some((part, more));
        }
        rest = more;
    }
    if is_component(rest) {
        Some((rest, ""))
    } else {
        None
    }
}

/// What follows the components of `front`, where they come first.
pub(crate) fn rest_below<'a>(front: &str, whole: &'a str) -> Option<&'a str>
    ensures { option_copied result ≡ virtual_rest front.now whole.now }
{
    let mut wanted = front;
    let mut rest = whole;
    while let Some((part, more)) = first_component(wanted) {
        let (first, behind) = first_component(rest)?;
        if first != part {
            return None;
        }
        wanted = more;
        rest = behind;
    }
    Some(trim_back(trim_front(rest)))
}

/// The text without the slashes and dots before its first component.
fn trim_front(text: &str) -> &str
    ensures { result.now ≡ trim_front text.now }
{
    let mut rest = text;
    while let Some((part, more)) = rest.split_once('/') {
        if is_component(part) {
            return rest;
        }
        rest = more;
    }
    if is_component(rest) { rest } else { "" }
}

/// The text without the slashes and dots behind its last component.
fn trim_back(text: &str) -> &str
    ensures { result.now ≡ trim_back text.now }
{
    let mut rest = text;
    while let Some((more, part)) = split_last(rest, '/') {
        if is_component(part) {
            return rest;
        }
        rest = more;
    }
    if is_component(rest) { rest } else { "" }
}
