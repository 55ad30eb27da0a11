//! What a project is asked. Each search takes the first that is meant, in the order of the list.

ghost use Rattle.std.specs.Prelude.{◌≡◌, ◌<◌, None, Some, find, length, option_map, slice_get};
ghost use Rattle.std.specs.Iterator.{YieldsFirstBy, item_count};
ghost use Rattle.std.specs.List.{enumerate_from};
ghost use Rattle.std.specs.Option.{option_and_then, option_copied, unwrap_or};
ghost use Rattle.base_text_paths.specs.AbsPath.{abs_text};
ghost use Rattle.pm_json.specs.Queries.{begins_in, crates_in, first_member, has_build, has_label};
ghost use Rattle.pm_json.specs.Queries.{is_described_in, document_path, project_base, runnables_in};
ghost use Rattle.pm_json.specs.declared.project_json.ProjectJson.{out-ProjectJson};

use crate::dep::CrateArrayIdx;
use crate::kinds::RunnableKind;
use crate::krate::{Build, Crate};
use crate::parts::Runnable;
use crate::project_json::ProjectJson;
use base_text_paths::{AbsPath, Boxed, ManifestPath};
use std::marker::Model;
use std::ops::Index;

impl ProjectJson {
    pub fn n_crates(&self) -> usize
        ensures { result ≡ length (crates_in self.now) }
    {
        self.crates.len()
    }

    /// The crates with their places, from the first on.
    pub fn crates(&self) -> CrateIter<'_>
        ensures { result ≡ enumerate_from 0 (crates_in self.now) }
    {
        CrateIter {
            left: self.crates.as_slice(),
            count: self.crates.len(),
        }
    }

    /// The base directory, as `project_root`.
    pub fn path(&self) -> AbsPath<'_>
        ensures { abs_text result ≡ project_base self.now }
    {
        self.project_root.as_path()
    }

    /// The base directory.
    pub fn project_root(&self) -> AbsPath<'_>
        ensures { abs_text result ≡ project_base self.now }
    {
        self.project_root.as_path()
    }

    pub fn manifest(&self) -> Option<&ManifestPath>
        ensures { option_copied result ≡ document_path self.now }
    {
        self.manifest.as_ref()
    }

    /// The document's path, or the base directory where it has none.
    pub fn manifest_or_root(&self) -> AbsPath<'_>
        ensures { abs_text result ≡ unwrap_or (document_path self.now) (project_base self.now) }
    {
        match &self.manifest {
            Some(manifest) => manifest.as_path(),
            None => self.project_root.as_path(),
        }
    }

    pub fn sysroot(&self) -> Option<AbsPath<'_>>
        ensures { option_map abs_text result ≡ (out-ProjectJson self.now).sysroot }
    {
        match &self.sysroot {
            Some(sysroot) => Some(sysroot.as_path()),
            None => None,
        }
    }

    pub fn sysroot_src(&self) -> Option<AbsPath<'_>>
        ensures { option_map abs_text result ≡ (out-ProjectJson self.now).sysroot_src }
    {
        match &self.sysroot_src {
            Some(source) => Some(source.as_path()),
            None => None,
        }
    }

    /// Takes the project of the standard library, so that there is none left.
    pub fn take_sysroot_project(&mut self) -> Option<Boxed<ProjectJson>>
        ensures taken { result ≡ (out-ProjectJson self.old).sysroot_project }
        ensures left { out-ProjectJson self.new
            ≡ record (out-ProjectJson self.old) { sysroot_project = None } }
    {
        self.sysroot_project.take()
    }

    pub fn runnables(&self) -> &[Runnable]
        ensures { result.now ≡ runnables_in self.now }
    {
        self.runnables.as_slice()
    }

    /// The first member that begins in the file.
    pub fn crate_by_root(&self, root: AbsPath<'_>) -> Option<&Crate>
        ensures { option_copied result ≡ first_member (begins_in (abs_text root.entry)) self.now }
    {
        let mut crates = self.crates.as_slice().iter();
        crates.find(|krate| krate.is_workspace_member && krate.root_module.as_path() == root)
    }

    /// The build of the first member that the file describes. What a document states is compared with the
    /// path byte for byte.
    pub fn crate_by_buildfile(&self, path: AbsPath<'_>) -> Option<&Build>
        ensures { option_copied result ≡ option_and_then (λ krate. krate.build)
            (first_member (has_build (is_described_in (abs_text path.entry))) self.now) }
    {
        match self.crate_described_in(path) {
            Some(krate) => krate.build.as_ref(),
            None => None,
        }
    }

    // The first member whose build the file describes.
    fn crate_described_in(&self, path: AbsPath<'_>) -> Option<&Crate>
        ensures { option_copied result
            ≡ first_member (has_build (is_described_in (abs_text path.entry))) self.now }
    {
        let mut crates = self.crates.as_slice().iter();
        crates.find(|krate| krate.is_workspace_member && is_described_in(krate, path))
    }

    /// The first member that the build system knows by the label.
    pub fn crate_by_label(&self, label: &str) -> Option<&Crate>
        ensures { option_copied result ≡ first_member (has_build (has_label label.now)) self.now }
    {
        let mut crates = self.crates.as_slice().iter();
        crates.find(|krate| krate.is_workspace_member && has_label(krate, label))
    }

    /// The first runnable of the kind.
    pub fn runnable_template(&self, kind: RunnableKind) -> Option<&Runnable>
        ensures { option_copied result ≡ find
            (λ found. ⟦<RunnableKind as PartialEq>⟧.eq found.kind kind) (runnables_in self.now) }
    {
        self.runnables()
            .iter()
            .find(|runnable| runnable.kind == kind)
    }
}

fn is_described_in(krate: &Crate, file: AbsPath<'_>) -> bool
    ensures { result ≡ has_build (is_described_in (abs_text file.entry)) krate.now }
{
    match &krate.build {
        Some(build) => build.build_file.as_str() == file.as_str(),
        None => false,
    }
}

fn has_label(krate: &Crate, label: &str) -> bool
    ensures { result ≡ has_build (has_label label.now) krate.now }
{
    match &krate.build {
        Some(build) => build.label.as_str() == label,
        None => false,
    }
}

impl Index<CrateArrayIdx> for ProjectJson {
    type Output = Crate;

    ghost can_index = { λ project place. place.0 < length (crates_in project) };

    ghost index_gives = { λ project place krate. slice_get (crates_in project) place.0 ≡ Some krate };

    fn index(&self, place: CrateArrayIdx) -> &Crate {
        &self.crates.as_slice()[place.0]
    }
}

/// The crates that are left with their places, from the first on.
#[derive(Drop)]
pub struct CrateIter<'a> {
    left: &'a [Crate],
    // How many crates the project has, of which those of `left` are the last.
    count: usize,
}

impl<'a> Model for CrateIter<'a> {
    ghost use Rattle.std.specs.Prelude.{ℕ, List, length, ◌-◌, ◌≤◌};
    ghost use Rattle.std.specs.List.{enumerate_from};
    ghost use Rattle.pm_json.specs.declared.krate.Crate.{Crate};

    ghost Value = { List (ℕ × Crate) };

    ghost view = { λ it. enumerate_from (it.count - length it.left.now) it.left.now };

    ghost invariant = { λ it. length it.left.now ≤ it.count };
}

impl<'a> Iterator for CrateIter<'a> {
    type Item = (CrateArrayIdx, &'a Crate);

    ghost next_gives = { YieldsFirstBy (λ item. (item.0.0, item.1.now)) (λ left. left) };

    ghost remaining = { item_count (λ left. left) };

    fn next(&mut self) -> Option<(CrateArrayIdx, &'a Crate)> {
        let place = self.count - self.left.len();
        let (first, others) = self.left.split_first()?;
        self.left = others;
        Some((CrateArrayIdx(place), first))
    }
}
