//! How a change is made.

ghost use Rattle.std.specs.Prelude.{◌≡◌, ◌<◌, ◌^◌, IfOk, OnOk, length};
ghost use Rattle.input_db.specs.Applied.{with_changed_files, with_given_root, with_members, with_roots};
ghost use Rattle.input_db.specs.Applied.{with_roots_from};
ghost use Rattle.input_db.specs.Change.{fits_file, is_in_some, keeps_root, numbers_of};
ghost use Rattle.input_db.specs.Database.{with_files};
ghost use Rattle.input_db_files.specs.Files.{durability_of_file};
ghost use Rattle.input_db_files.specs.SourceRoot.{files_in};

use crate::source_database::SourceDatabase;
use base_text_paths::{FileId, Items, Text};
use input_db_files::{Durability, Files, LibraryRoots, LocalRoots, SourceRoot, SourceRootId};
use std::alloc::{AllocError, Global};
use std::collections::BTreeSet;

/// Whether a file will have a source root that is there. Only a file that has none yet is looked for in
/// the sets of the given roots.
pub(crate) fn fits_file(files: &Files, roots: &[SourceRoot], file: FileId) -> bool
    ensures { result ≡ fits_file files.now roots.now file }
{
    keeps_root(files, roots, file) || is_in_some(roots, file)
}

// Whether a file has a source root already that is there or is given.
fn keeps_root(files: &Files, roots: &[SourceRoot], file: FileId) -> bool
    ensures { result ≡ keeps_root files.now roots.now file }
{
    if !files.has_file_root(file) {
        return false;
    }
    let root = files.file_source_root(file).source_root_id;
    files.has_root(root) || (root.0 as usize) < roots.len()
}

// Whether a file is in one of the roots.
fn is_in_some(roots: &[SourceRoot], file: FileId) -> bool
    ensures { result ≡ is_in_some roots.now file }
{
    roots.iter().any(|root| root.has_file(file))
}

/// Puts the given roots in, with the roots of their files and the lists of roots.
pub(crate) fn give_roots<D: SourceDatabase>(
    alloc: Global,
    db: &mut D,
    roots: Items<SourceRoot>,
) -> Result<(), AllocError>
    requires { length roots < 2 ^ 32 }
    ensures { OnOk result (D.seen db.new ≡ with_roots (D.seen db.old) roots) }
{
    let local = LocalRoots {
        roots: numbers_of(alloc, roots.as_slice(), false)?,
    };
    let library = LibraryRoots {
        roots: numbers_of(alloc, roots.as_slice(), true)?,
    };
    give_each(db, roots)?;
    db.set_root_lists(local, library);
    Ok(())
}

// The numbers of the roots that are libraries, or of those that are not.
fn numbers_of(
    alloc: Global,
    roots: &[SourceRoot],
    is_library: bool,
) -> Result<BTreeSet<SourceRootId>, AllocError>
    requires { length roots.now < 2 ^ 32 }
    ensures { IfOk result (λ numbers. numbers.keys ≡ numbers_of is_library roots.now) }
{
    let mut numbers = BTreeSet::new(alloc);
    for (number, root) in roots.iter().enumerate() {
        if root.is_library == is_library {
            numbers.insert(SourceRootId(number as u32))?;
        }
    }
    Ok(numbers)
}

// Puts each root in, in order.
fn give_each<D: SourceDatabase>(db: &mut D, roots: Items<SourceRoot>) -> Result<(), AllocError>
    requires { length roots < 2 ^ 32 }
    ensures { OnOk result (D.seen db.new
        ≡ with_files (D.seen db.old) (with_roots_from 0 (D.seen db.old).files roots)) }
{
    let mut number = 0;
    for root in roots.into_inner() {
        give_root(db, SourceRootId(number), root)?;
        number += 1;
    }
    Ok(())
}

// Puts one root in, which its files then have.
fn give_root<D: SourceDatabase>(
    db: &mut D,
    id: SourceRootId,
    root: SourceRoot,
) -> Result<(), AllocError>
    ensures { OnOk result (D.seen db.new
        ≡ with_files (D.seen db.old) (with_given_root (D.seen db.old).files id root)) }
{
    let durability = root.durability();
    set_members(db, &root, id, durability)?;
    db.set_source_root_with_durability(id, root, durability)
}

// Gives each file of a root that root.
fn set_members<D: SourceDatabase>(
    db: &mut D,
    root: &SourceRoot,
    id: SourceRootId,
    durability: Durability,
) -> Result<(), AllocError>
    ensures { OnOk result (D.seen db.new ≡ with_files (D.seen db.old)
        (with_members (D.seen db.old).files (files_in root.now) id durability)) }
{
    for member in root.iter() {
        db.set_file_source_root_with_durability(member, id, durability)?;
    }
    Ok(())
}

/// Sets the texts of the files that changed, in order. A file that was deleted has no bytes.
pub(crate) fn set_texts<D: SourceDatabase>(
    db: &mut D,
    changed: Items<(FileId, Option<Text>)>,
) -> Result<(), AllocError>
    ensures { OnOk result (D.seen db.new ≡ with_files (D.seen db.old)
        (with_changed_files (D.seen db.old).files changed)) }
{
    for (file, text) in changed.into_inner() {
        let durability = durability_of(db.files(), file);
        let text = match &text {
            Some(text) => text.as_str(),
            None => "",
        };
        db.set_file_text_with_durability(file, text, durability)?;
    }
    Ok(())
}

// How durable the text of a file is: by the source root that it is in.
fn durability_of(files: &Files, file: FileId) -> Durability
    ensures { result ≡ durability_of_file files.now file }
{
    if !files.has_file_root(file) {
        return Durability::Low;
    }
    let root = files.file_source_root(file).source_root_id;
    if !files.has_root(root) {
        return Durability::Low;
    }
    files.source_root(root).source_root.text_durability()
}
