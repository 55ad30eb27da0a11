//! Manifests of projects by their names.

use base_text::{AbsPathBuf, PathError};
use cases::{Case, Fault, List, Object, error_answer};
use pm_tools_ask::ProjectManifest;
use serde_json::Value;
use std::alloc::Global;

/// The kind of a manifest and its path.
pub fn answer(alloc: Global, case: Case<'_>) -> Result<Value, Fault> {
    match AbsPathBuf::new(alloc, case.text("path")) {
        Ok(path) => of_path(alloc, path),
        Err(PathError::NotAbsolute) => error_answer(alloc, "NotAbsolute"),
        Err(PathError::OutOfMemory) => Err(Fault::OutOfMemory),
    }
}

fn of_path(alloc: Global, path: AbsPathBuf) -> Result<Value, Fault> {
    match ProjectManifest::from_manifest_file(path) {
        Ok(manifest) => manifest_answer(alloc, &manifest),
        Err(bad) => Object::new(alloc)
            .text("BadManifest", bad.path.as_str())
            .answer(),
    }
}

/// A manifest as it is compared: its kind and its path.
pub fn manifest_answer(alloc: Global, manifest: &ProjectManifest) -> Result<Value, Fault> {
    let path = manifest.manifest_path().as_path().as_str();
    let kind = match manifest {
        ProjectManifest::ProjectJson(_path) => "ProjectJson",
        ProjectManifest::CargoToml(_path) => "CargoToml",
        ProjectManifest::CargoScript(_path) => "CargoScript",
    };
    List::new(alloc).text(kind).text(path).answer()
}
