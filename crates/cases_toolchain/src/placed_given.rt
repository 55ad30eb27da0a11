//! A toolchain of a case, and where it is asked.

use base_text::{AbsPathBuf, ManifestPath};
use cases::{Case, CaseAsk, Fault, Given, absolute, manifest_of, usual_tools};
use pm_tools_ask::CargoConfigFile;
use pm_tools_info::QueryConfig;
use std::alloc::Global;

/// A toolchain with tools of the usual names, and where it is asked.
#[derive(Drop)]
pub struct PlacedGiven {
    given: Box<Given>,
    place: Place,
}

// Where questions are asked: for a manifest and the configuration that is printed for it, or in a directory.
#[derive(Drop)]
enum Place {
    Manifest(ManifestPath, Option<CargoConfigFile>),
    Directory(AbsPathBuf),
}

impl PlacedGiven {
    pub fn of_case(alloc: Global, case: Case<'_>) -> Result<PlacedGiven, Fault> {
        let given = Given::of_case(alloc, case, usual_tools(alloc)?)?;
        let place = place_of(alloc, case)?;
        Ok(PlacedGiven { given, place })
    }

    pub fn ask(&self) -> CaseAsk<'_> {
        self.given.ask()
    }

    pub fn config(&self) -> QueryConfig<'_> {
        let sysroot = &self.given.sysroot;
        match &self.place {
            Place::Manifest(manifest, printed) => {
                QueryConfig::Cargo(sysroot, manifest, printed.as_ref())
            }
            Place::Directory(dir) => QueryConfig::Rustc(sysroot, dir.as_path()),
        }
    }
}

fn place_of(alloc: Global, case: Case<'_>) -> Result<Place, Fault> {
    match case.optional_text("manifest") {
        Some(manifest) => {
            let manifest = manifest_of(alloc, manifest)?;
            Ok(Place::Manifest(manifest, printed_of(alloc, case)?))
        }
        None => Ok(Place::Directory(absolute(alloc, case.text("dir"))?)),
    }
}

fn printed_of(alloc: Global, case: Case<'_>) -> Result<Option<CargoConfigFile>, Fault> {
    match case.optional_text("config") {
        Some(text) => {
            let text = String::from_str(alloc, text)?;
            Ok(Some(CargoConfigFile::from_text(text)))
        }
        None => Ok(None),
    }
}
