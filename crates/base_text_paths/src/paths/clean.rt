//! Clean texts, in which each component follows one slash, are built here piece by piece.

ghost use Rattle.std.specs.Prelude.{◌≡◌, ◌<◌, ◌==◌, [], ◌++◌, drop, is_some, length};
ghost use Rattle.std.specs.Prelude.{slice_index_or, string_bytes, IfOk, IfSome, MatchOption, OnOk};
ghost use Rattle.base_text_paths.specs.Paths.{components, is_component, is_prefix, path_text};
ghost use Rattle.base_text_paths.specs.Paths.{resolve, without_last, IsClean};
ghost use Rattle.base_text_paths.specs.Rows.{IsCutAtLast, IsParentLen, IsRow, IsSlashed, Lacks};
ghost use Rattle.std.specs.List.{fold, join_with_byte};

use std::alloc::AllocError;

/// Whether a part between slashes is a component.
pub fn is_component(part: &str) -> bool
    ensures { result ≡ is_component part.now }
{
    !part.is_empty() && part != "."
}

/// Puts each component of `tail` behind a slash at the end of `text`.
pub(crate) fn push_components(text: &mut String, tail: &str) -> Result<(), AllocError>
    requires { IsSlashed (string_bytes text.old) }
    ensures { OnOk result (IsRow (string_bytes text.new)
        (components (string_bytes text.old) ++ components tail.now)) }
{
    for part in tail.split('/') {
        if is_component(part) {
            text.push('/')?;
            text.push_str(part)?;
        }
    }
    Ok(())
}

/// What stands before and behind the last `at` of a text.
pub fn split_last(text: &str, at: char) -> Option<(&str, &str)>
    requires { at < 128 }
    ensures { MatchOption result (Lacks at text.now)
        (λ halves. IsCutAtLast at text.now halves.0.now halves.1.now) }
{
    text.rsplit_once(at)
}

/// Drops the last component of `text`, if there is one.
fn pop_component(text: &mut String)
    requires { IsSlashed (string_bytes text.old) }
    ensures { IsRow (string_bytes text.new) (without_last (components (string_bytes text.old))) }
{
    if let Some((front, _)) = split_last(text.as_str(), '/') {
        let end = front.len();
        text.truncate(end);
    }
}

/// How long the parent's text is, which begins a clean text.
pub(crate) fn parent_len(path: &str) -> Option<usize>
    requires { IsClean path.now }
    ensures { MatchOption result (components path.now ≡ []) (IsParentLen path.now) }
{
    let (front, name) = split_last(path, '/')?;
    if name.is_empty() {
        None
    } else if front.is_empty() {
        Some(1)
    } else {
        Some(front.len())
    }
}

/// The row of the components of a clean text, which is empty for `/`.
pub(crate) fn row_of(path: &str) -> &str
    requires { IsClean path.now }
    ensures { IsRow result.now (components path.now) }
{
    if path == "/" { "" } else { path }
}

/// What follows the row `front` in the row `whole`, where its components come first.
pub(crate) fn rest_below<'a>(whole: &'a str, front: &str) -> Option<&'a str>
    requires whole { IsSlashed whole.now }
    requires front { IsSlashed front.now }
    ensures is { is_some result ≡ is_prefix (components front.now) (components whole.now) }
    ensures rest { IfSome result (λ rest.
        IsRow rest.now (drop (length (components front.now)) (components whole.now))) }
{
    let rest = whole.strip_prefix(front)?;
    if is_row_end(rest) { Some(rest) } else { None }
}

/// Whether a component may end before `rest`.
fn is_row_end(rest: &str) -> bool
    ensures { result ≡ (slice_index_or rest.now 0 47 == 47) }
{
    rest.is_empty() || rest.starts_with('/')
}

/// The components of a row with a slash between each two, and none before the first.
pub(crate) fn below_slash(row: &str) -> &str
    requires { IsSlashed row.now }
    ensures text { result.now ≡ join_with_byte 47 (components row.now) }
    ensures same_components { components result.now ≡ components row.now }
{
    match row.strip_prefix('/') {
        Some(names) => names,
        None => row,
    }
}

/// Takes each component of `path` after those of `text`, where a `..` drops the last one.
pub(crate) fn push_resolved(text: &mut String, path: &str) -> Result<(), AllocError>
    requires { IsSlashed (string_bytes text.old) }
    ensures { OnOk result (IsRow (string_bytes text.new)
        (fold resolve (components (string_bytes text.old)) (components path.now))) }
{
    for part in path.split('/') {
        if part == ".." {
            pop_component(text);
        } else if is_component(part) {
            text.push('/')?;
            text.push_str(part)?;
        }
    }
    Ok(())
}

/// The text of the path whose components follow slashes in `text`.
pub(crate) fn text_or_root(mut text: String) -> Result<String, AllocError>
    requires { IsSlashed (string_bytes text) }
    ensures { IfOk result (λ path.
        string_bytes path ≡ path_text (components (string_bytes text))) }
{
    if text.is_empty() {
        text.push('/')?;
        Ok(text)
    } else {
        Ok(text)
    }
}
