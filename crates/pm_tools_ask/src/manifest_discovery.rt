//! Which manifests are found from a path: the one in it or in the nearest directory above it, by their names in turn, and else those
//! of its entries.

ghost use Rattle.std.specs.Prelude.{◌≡◌, ◌++◌, ◌<◌, IfOk, OnOk, flat_map, length};
ghost use Rattle.base_text_paths.specs.AbsPath.{abs_text};
ghost use Rattle.base_text_paths.specs.ManifestPath.{HasParent};
ghost use Rattle.base_text_paths.specs.Paths.{components};
ghost use Rattle.pm_tools_ask.specs.DiscoverErrors.{AnswersSearch};
ghost use Rattle.pm_tools_ask.specs.ManifestDiscovery.{discovered, discovered_from_all, entry_path, found_from, found_or_none, json_above, manifest_above, manifest_below, manifest_named, manifests_below, nearest_entry, only_discovered, only_manifest};
ghost use Rattle.pm_tools_ask.specs.Sysroot.{held_path};

use crate::discover_error::DiscoverError;
use crate::project_manifest::{ProjectManifest, has_name};
use base_text::{AbsPath, AbsPathBuf, Items, ManifestPath, Text, Tree, sort_all};
use std::alloc::{AllocError, Global};

impl ProjectManifest {
    /// The manifests of the projects that a path belongs to. For `rust-project.json`, `.rust-project.json` and `Cargo.toml` in turn
    /// it is the path itself, where that is its name, or else the nearest one in the path or above it. Where there is none of these,
    /// it is each `Cargo.toml` one level below, in order. A tree is asked at normal paths; what is found keeps each `..`.
    pub fn discover<T: Tree>(
        alloc: Global,
        path: AbsPath<'_>,
        tree: &T,
    ) -> Result<Vec<ProjectManifest>, DiscoverError>
        ensures { AnswersSearch (λ found. found.items) result
            (discovered (T.files tree.now) (abs_text path.entry)) }
    {
        match found_from(alloc, path, tree)? {
            Some(found) => Ok(found.into_inner()),
            None => Err(DiscoverError::NoDirectory),
        }
    }

    /// The manifest that is discovered, where it is the only one.
    pub fn discover_single<T: Tree>(
        alloc: Global,
        path: AbsPath<'_>,
        tree: &T,
    ) -> Result<ProjectManifest, DiscoverError>
        ensures { AnswersSearch (λ manifest. manifest) result
            (only_discovered (discovered (T.files tree.now) (abs_text path.entry))) }
    {
        let found = ProjectManifest::discover(alloc, path, tree)?;
        only_manifest(found)
    }

    /// The manifests that are discovered from any of some paths, in order and each once. A path from which none is discovered gives
    /// none.
    pub fn discover_all<T: Tree>(
        alloc: Global,
        paths: &[AbsPathBuf],
        tree: &T,
    ) -> Result<Vec<ProjectManifest>, AllocError>
        ensures { IfOk result (λ found.
            found.items ≡ discovered_from_all (T.files tree.now) paths.now) }
    {
        let mut found = found_from_each(alloc, paths, tree)?;
        sort_all(&mut found)?;
        found.dedup();
        Ok(found)
    }
}

// What is found from a path, or None where nothing is found in it or above it and it is no directory.
#[tactic(auto, unfolding(crate::specs::ManifestDiscovery::found_from))]
fn found_from<T: Tree>(
    alloc: Global,
    path: AbsPath<'_>,
    tree: &T,
) -> Result<Option<Items<ProjectManifest>>, AllocError>
    ensures { IfOk result (λ found. found ≡ found_from (T.files tree.now) (abs_text path.entry)) }
{
    if let Some(manifest) = manifest_above(alloc, path, tree)? {
        return Ok(Some(Items::new(vec![in alloc; manifest]?)));
    }
    match tree.lists(alloc, path)? {
        Some(names) => {
            let found = manifests_below(alloc, path, names.as_slice(), tree)?;
            Ok(Some(found))
        }
        None => Ok(None),
    }
}

// The manifest that is found in a path or above it.
#[tactic(auto, unfolding(crate::specs::ManifestDiscovery::manifest_above), using(crate::proofs::ManifestSearch::table_name_counts))]
fn manifest_above<T: Tree>(
    alloc: Global,
    path: AbsPath<'_>,
    tree: &T,
) -> Result<Option<ProjectManifest>, AllocError>
    ensures { IfOk result (λ found.
        found ≡ manifest_above (T.files tree.now) (abs_text path.entry)) }
{
    if let Some(manifest) = json_above(alloc, path, tree)? {
        return Ok(Some(ProjectManifest::ProjectJson(manifest)));
    }
    match manifest_named(alloc, path, "Cargo.toml", tree)? {
        Some(manifest) => Ok(Some(ProjectManifest::CargoToml(manifest))),
        None => Ok(None),
    }
}

// The manifest of a JSON project that is found in a path or above it.
#[tactic(auto, unfolding(crate::specs::ManifestDiscovery::json_above), using(crate::proofs::ManifestSearch::json_name_counts, crate::proofs::ManifestSearch::hidden_name_counts))]
fn json_above<T: Tree>(
    alloc: Global,
    path: AbsPath<'_>,
    tree: &T,
) -> Result<Option<ManifestPath>, AllocError>
    ensures { IfOk result (λ found. found ≡ json_above (T.files tree.now) (abs_text path.entry)) }
{
    match manifest_named(alloc, path, "rust-project.json", tree)? {
        Some(manifest) => Ok(Some(manifest)),
        None => manifest_named(alloc, path, ".rust-project.json", tree),
    }
}

// The manifest of a name: the path itself where that is its name, or else the nearest.
#[tactic(auto, unfolding(crate::specs::ManifestDiscovery::manifest_named))]
fn manifest_named<T: Tree>(
    alloc: Global,
    path: AbsPath<'_>,
    name: &str,
    tree: &T,
) -> Result<Option<ManifestPath>, AllocError>
    requires { 0 < length (components name.now) }
    ensures { IfOk result (λ found.
        found ≡ manifest_named (T.files tree.now) name.now (abs_text path.entry)) }
{
    if has_name(path, name) {
        let file = path.to_path_buf(alloc)?;
        return Ok(Some(manifest_at(file)));
    }
    nearest_entry(alloc, path, name, tree)
}

// The nearest entry of a name, in a path or in a directory above it, that the tree holds.
fn nearest_entry<T: Tree>(
    alloc: Global,
    path: AbsPath<'_>,
    name: &str,
    tree: &T,
) -> Result<Option<ManifestPath>, AllocError>
    requires { 0 < length (components name.now) }
    ensures { IfOk result (λ found.
        found ≡ nearest_entry (T.files tree.now) name.now (abs_text path.entry)) }
{
    let mut above = Some(path);
    while let Some(directory) = above {
        match held_entry(alloc, directory, name, tree)? {
            Some(manifest) => return Ok(Some(manifest)),
            None => above = directory.parent(),
        }
    }
    Ok(None)
}

// The entry of a name in a directory, where the tree holds it.
fn held_entry<T: Tree>(
    alloc: Global,
    directory: AbsPath<'_>,
    name: &str,
    tree: &T,
) -> Result<Option<ManifestPath>, AllocError>
    requires { 0 < length (components name.now) }
    ensures { IfOk result (λ found. found
        ≡ held_path (T.files tree.now) (entry_path name.now (abs_text directory.entry))) }
{
    let path = directory.join(alloc, name)?;
    if tree.holds(alloc, path.as_path())? {
        Ok(Some(manifest_at(path)))
    } else {
        Ok(None)
    }
}

// A path with a directory above it, as that of a manifest.
fn manifest_at(path: AbsPathBuf) -> ManifestPath
    requires { HasParent path }
    ensures { result ≡ path }
{
    match ManifestPath::new(path) {
        Ok(manifest) => manifest,
        Err(_) => unreachable!(),
    }
}

// The manifests of Cargo projects in some entries of a directory, in the order of the entries.
fn manifests_below<T: Tree>(
    alloc: Global,
    directory: AbsPath<'_>,
    names: &[Text],
    tree: &T,
) -> Result<Items<ProjectManifest>, AllocError>
    ensures { IfOk result (λ found. found
        ≡ manifests_below (T.files tree.now) (abs_text directory.entry) names.now) }
{
    let mut found = Vec::new(alloc);
    for name in names {
        if let Some(manifest) = manifest_below(alloc, directory, name.as_str(), tree)? {
            found.push(manifest)?;
        }
    }
    Ok(Items::new(found))
}

// The manifest of a Cargo project in an entry of a directory, where the tree holds it.
#[tactic(auto, unfolding(crate::specs::ManifestDiscovery::manifest_below), using(crate::proofs::ManifestSearch::table_name_counts))]
fn manifest_below<T: Tree>(
    alloc: Global,
    directory: AbsPath<'_>,
    name: &str,
    tree: &T,
) -> Result<Option<ProjectManifest>, AllocError>
    ensures { IfOk result (λ found. found
        ≡ manifest_below (T.files tree.now) (abs_text directory.entry) name.now) }
{
    let entry = directory.join(alloc, name)?;
    match held_entry(alloc, entry.as_path(), "Cargo.toml", tree)? {
        Some(manifest) => Ok(Some(ProjectManifest::CargoToml(manifest))),
        None => Ok(None),
    }
}

// The manifest that stands alone.
fn only_manifest(found: Vec<ProjectManifest>) -> Result<ProjectManifest, DiscoverError>
    ensures { AnswersSearch (λ manifest. manifest) result (only_manifest found.items) }
{
    let mut found = found;
    let Some(manifest) = found.pop() else {
        return Err(DiscoverError::NoProject);
    };
    if found.is_empty() {
        Ok(manifest)
    } else {
        Err(DiscoverError::Several)
    }
}

// What is found from each of some paths, in their order and with repeats.
fn found_from_each<T: Tree>(
    alloc: Global,
    paths: &[AbsPathBuf],
    tree: &T,
) -> Result<Vec<ProjectManifest>, AllocError>
    ensures { IfOk result (λ found.
        found.items ≡ flat_map (found_or_none (T.files tree.now)) paths.now) }
{
    let mut found = Vec::new(alloc);
    for path in paths {
        push_found(alloc, &mut found, path.as_path(), tree)?;
    }
    Ok(found)
}

// Puts what is found from a path behind the others.
fn push_found<T: Tree>(
    alloc: Global,
    found: &mut Vec<ProjectManifest>,
    path: AbsPath<'_>,
    tree: &T,
) -> Result<(), AllocError>
    ensures { OnOk result (found.new.items
        ≡ found.old.items ++ found_or_none (T.files tree.now) (abs_text path.entry)) }
{
    if let Some(more) = found_from(alloc, path, tree)? {
        found.append(&mut more.into_inner())?;
    }
    Ok(())
}
