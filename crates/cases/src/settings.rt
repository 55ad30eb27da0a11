//! Manifests, versions and features of cases.

use crate::case::{Case, Fault};
use crate::values::{absolute, texts};
use base_text::{ManifestPath, Version};
use pm_cargo_config::CargoFeatures;
use std::alloc::{AllocError, Global};

/// A manifest, which the path has to be one of.
pub fn manifest_of(alloc: Global, text: &str) -> Result<ManifestPath, Fault> {
    match ManifestPath::new(absolute(alloc, text)?) {
        Ok(manifest) => Ok(manifest),
        Err(_root) => Err(Fault::Condition),
    }
}

/// A version, which the text has to be.
pub fn version_of(alloc: Global, text: &str) -> Result<Version, Fault> {
    match semver::Version::parse(alloc, text) {
        Ok(version) => Ok(Version::new(version)),
        Err(error) if error == semver::Error::from(AllocError) => Err(Fault::OutOfMemory),
        Err(_error) => Err(Fault::Member("version")),
    }
}

/// The version of a case, if it has one.
pub fn optional_version(alloc: Global, case: Case<'_>) -> Result<Option<Version>, Fault> {
    match case.optional_text("version") {
        Some(text) => Ok(Some(version_of(alloc, text)?)),
        None => Ok(None),
    }
}

/// The features of a case: all of them, or those that it selects.
pub fn features_of(alloc: Global, case: Case<'_>) -> Result<CargoFeatures, Fault> {
    if case.flag("all_features") {
        return Ok(CargoFeatures::All);
    }
    Ok(CargoFeatures::Selected {
        features: texts(alloc, case, "features")?,
        no_default_features: case.flag("no_default_features"),
    })
}
