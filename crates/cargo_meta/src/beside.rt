//! The files that a manifest names, at the place of its last component.

ghost use Rattle.std.specs.Prelude.{◌≡◌, ◌<◌, ◌++◌, IfOk, MatchOption, length};
ghost use Rattle.std.specs.Path as paths;
ghost use Rattle.base_text_paths.specs.Rows.{IsCutAtLast, Lacks};
ghost use Rattle.cargo_meta.specs.Beside as spec;

use base_values::Text;
use std::alloc::{AllocError, Global};

/// The file in the manifest's folder. An absolute file stands alone.
#[tactic(auto, unfolding(crate::specs::Beside::beside))]
pub(crate) fn beside(alloc: Global, manifest: &str, file: &str) -> Result<Text, AllocError>
    ensures { IfOk result (λ whole. whole ≡ spec.beside manifest.now file.now) }
{
    if file.starts_with('/') {
        Text::of_str(alloc, file)
    } else {
        in_folder(alloc, manifest, file)
    }
}

/// The file behind the manifest's text before its last component, or behind the whole text where it has none.
#[tactic(auto, unfolding(crate::specs::Beside::folder))]
fn in_folder(alloc: Global, manifest: &str, file: &str) -> Result<Text, AllocError>
    ensures { IfOk result (λ whole. whole ≡ spec.folder manifest.now ++ file.now) }
{
    let trimmed = trim_trailing(manifest);
    if trimmed.is_empty() || trimmed == "/" {
        let whole = format!(in alloc; "{manifest}{file}")?;
        Ok(Text::new(whole))
    } else {
        behind_slash(alloc, trimmed, file)
    }
}

/// The path without the slashes and lone dots at its end. A leading `/` or `.` stays.
fn trim_trailing(path: &str) -> &str
    ensures { result.now ≡ paths.trim_trailing path.now }
{
    let bytes = path.as_bytes();
    let mut end = bytes.len();
    while end > 0 && is_trailing(bytes, end - 1) {
        end -= 1;
    }
    &path[..end]
}

fn is_trailing(path: &[u8], at: usize) -> bool
    requires { at < length path.now }
    ensures { result ≡ paths.is_trailing path.now at }
{
    0 < at && (path[at] == b'/' || (path[at] == b'.' && path[at - 1] == b'/'))
}

/// The file behind the text up to its last slash.
fn behind_slash(alloc: Global, text: &str, file: &str) -> Result<Text, AllocError>
    ensures { IfOk result (λ whole. whole ≡ spec.up_to_slash text.now ++ file.now) }
{
    match cut_at_slash(text) {
        Some((front, _)) => {
            let whole = format!(in alloc; "{front}/{file}")?;
            Ok(Text::new(whole))
        }
        None => Text::of_str(alloc, file),
    }
}

/// What stands before and behind the last slash.
fn cut_at_slash(text: &str) -> Option<(&str, &str)>
    ensures { MatchOption result (Lacks 47 text.now)
        (λ halves. IsCutAtLast 47 text.now halves.0.now halves.1.now) }
{
    text.rsplit_once('/')
}
