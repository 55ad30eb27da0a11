//! Marks: what was said of files. They are the plain account by which the file system is judged.

ghost use Rattle.std.specs.Prelude.{◌≡◌};
ghost use Rattle.std.specs.Option.{option_copied};
ghost use Rattle.vfs_core.specs.Marks.{is_out, kept_text, text_after_mark, leaves_out, live_text, merged_text, same_hash};

use crate::hash::content_hash;
use crate::vfs_path::VfsPath;
use base_text_paths::{Text, TryClone};
use std::alloc::{AllocError, Global};

/// What a mark says of its file.
#[derive(Debug, Drop, PartialEq, Eq)]
pub enum MarkKind {
    /// The file has this text.
    Text(Text),
    /// The file is deleted.
    Gone,
    /// The file is left out, for good.
    Out,
}

/// One thing that was said of a file.
#[derive(Debug, Drop, PartialEq, Eq)]
pub struct Mark {
    pub path: VfsPath,
    pub kind: MarkKind,
}

impl TryClone for MarkKind {
    fn try_clone(&self, alloc: Global) -> Result<Self, AllocError> {
        match self {
            MarkKind::Text(text) => {
                let copy = text.try_clone(alloc)?;
                Ok(MarkKind::Text(copy))
            }
            MarkKind::Gone => Ok(MarkKind::Gone),
            MarkKind::Out => Ok(MarkKind::Out),
        }
    }
}

impl TryClone for Mark {
    fn try_clone(&self, alloc: Global) -> Result<Self, AllocError> {
        let path = self.path.try_clone(alloc)?;
        let kind = self.kind.try_clone(alloc)?;
        Ok(Mark { path, kind })
    }
}

/// The text of a path after some marks, which stand newest first, or None where it is not live.
/// It goes over all marks at each call: programs keep states instead, and tests compare.
#[tactic(auto, unfolding(crate::specs::Marks::live_text))]
pub fn live_text<'a>(marks: &'a [Mark], path: &VfsPath) -> Option<&'a Text>
    ensures { option_copied result ≡ live_text marks.now path.now }
{
    if is_out(marks, path) {
        None
    } else {
        kept_text(marks, path)
    }
}

// Whether a path was left out by some mark.
fn is_out(marks: &[Mark], path: &VfsPath) -> bool
    ensures { result ≡ is_out marks.now path.now }
{
    marks
        .iter()
        .any(|mark| *path == mark.path && leaves_out(&mark.kind))
}

fn leaves_out(kind: &MarkKind) -> bool
    ensures { result ≡ leaves_out kind.now }
{
    matches!(kind, MarkKind::Out)
}

// The text that counts at a path, whether or not it was left out.
#[tactic(auto, using(crate::proofs::MarkLemmas::kept_text_empty))]
fn kept_text<'a>(marks: &'a [Mark], path: &VfsPath) -> Option<&'a Text>
    ensures { option_copied result ≡ kept_text marks.now path.now }
{
    match marks {
        [] => None,
        [mark, older @ ..] => {
            let before = kept_text(older, path);
            if *path == mark.path {
                text_after_mark(&mark.kind, before)
            } else {
                before
            }
        }
    }
}

fn text_after_mark<'a>(kind: &'a MarkKind, before: Option<&'a Text>) -> Option<&'a Text>
    ensures { option_copied result ≡ text_after_mark kind.now (option_copied before.entry) }
{
    match kind {
        MarkKind::Gone => None,
        MarkKind::Out => before,
        MarkKind::Text(text) => Some(merged_text(text, before)),
    }
}

fn merged_text<'a>(text: &'a Text, before: Option<&'a Text>) -> &'a Text
    ensures { result.now ≡ merged_text text.now (option_copied before.entry) }
{
    match before {
        Some(earlier) if same_hash(text, earlier) => earlier,
        _ => text,
    }
}

fn same_hash(text: &Text, other: &Text) -> bool
    ensures { result ≡ same_hash text.now other.now }
{
    content_hash(text.as_str().as_bytes()) == content_hash(other.as_str().as_bytes())
}
