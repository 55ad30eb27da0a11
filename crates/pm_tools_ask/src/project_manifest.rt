//! Which kind of project a manifest begins, by its file name alone.

ghost use Rattle.std.specs.Prelude.{◌≡◌, IfErr, IfOk, Some, None};
ghost use Rattle.base_text_paths.specs.AbsPath.{abs_text};
ghost use Rattle.pm_tools_ask.specs.Manifest.{has_name, is_project_json, manifest_of, manifest_path};

use base_text::{AbsPath, AbsPathBuf, ManifestPath, TryClone};
use std::alloc::{AllocError, Global};
use std::fmt;

/// The manifest of a project. The kinds are ordered as they are searched for.
#[derive(Debug, Drop, PartialEq, Eq, PartialOrd, Ord, Hash)]
pub enum ProjectManifest {
    ProjectJson(ManifestPath),
    CargoToml(ManifestPath),
    /// A Rust file that holds its own manifest.
    CargoScript(ManifestPath),
}

/// A path whose name is that of no manifest.
#[derive(Debug, Drop, PartialEq, Eq)]
pub struct BadManifest {
    pub path: AbsPathBuf,
}

/// Whether the file name of a path is `name`.
#[tactic(auto, unfolding(crate::specs::Manifest::has_name))]
pub(crate) fn has_name(path: AbsPath<'_>, name: &str) -> bool
    ensures { result ≡ has_name name.now (abs_text path.entry) }
{
    match path.file_name() {
        Some(file) => file == name,
        None => false,
    }
}

// Whether the file name of a path is that of a JSON project.
#[tactic(auto, unfolding(crate::specs::Manifest::is_project_json))]
fn is_project_json(path: AbsPath<'_>) -> bool
    ensures { result ≡ is_project_json (abs_text path.entry) }
{
    has_name(path, "rust-project.json") || has_name(path, ".rust-project.json")
}

impl ProjectManifest {
    /// The manifest that a path names. Any other path is given back, and so is `/`.
    pub fn from_manifest_file(path: AbsPathBuf) -> Result<ProjectManifest, BadManifest>
        ensures ok { IfOk result (λ manifest. manifest_of path ≡ Some manifest) }
        ensures bad { IfErr result (λ _. manifest_of path ≡ None) }
        ensures back { IfErr result (λ bad. bad.path ≡ path) }
    {
        let manifest = match ManifestPath::new(path) {
            Ok(manifest) => manifest,
            Err(path) => return Err(BadManifest { path }),
        };
        let path = manifest.as_path();
        if is_project_json(path) {
            return Ok(ProjectManifest::ProjectJson(manifest));
        }
        if has_name(path, "Cargo.toml") {
            return Ok(ProjectManifest::CargoToml(manifest));
        }
        if manifest.is_rust_manifest() {
            return Ok(ProjectManifest::CargoScript(manifest));
        }
        Err(BadManifest {
            path: manifest.into_path(),
        })
    }

    pub fn manifest_path(&self) -> &ManifestPath
        ensures { result.now ≡ manifest_path self.now }
    {
        match self {
            ProjectManifest::ProjectJson(path)
            | ProjectManifest::CargoToml(path)
            | ProjectManifest::CargoScript(path) => path,
        }
    }
}

impl TryClone for ProjectManifest {
    fn try_clone(&self, alloc: Global) -> Result<Self, AllocError> {
        match self {
            ProjectManifest::ProjectJson(path) => {
                Ok(ProjectManifest::ProjectJson(path.try_clone(alloc)?))
            }
            ProjectManifest::CargoToml(path) => {
                Ok(ProjectManifest::CargoToml(path.try_clone(alloc)?))
            }
            ProjectManifest::CargoScript(path) => {
                Ok(ProjectManifest::CargoScript(path.try_clone(alloc)?))
            }
        }
    }
}

impl TryClone for BadManifest {
    fn try_clone(&self, alloc: Global) -> Result<Self, AllocError> {
        let path = self.path.try_clone(alloc)?;
        Ok(BadManifest { path })
    }
}

/// Prints the path.
impl fmt::Display for ProjectManifest {
    ghost use Rattle.std.specs.Prelude.{Some};
    ghost use Rattle.pm_tools_ask.specs.Manifest.{manifest_path};

    ghost output = { λ manifest. Some (manifest_path manifest) };

    fn fmt<W: fmt::Write>(&self, f: &mut fmt::Formatter<W>) -> fmt::Result {
        self.manifest_path().fmt(f)
    }
}
