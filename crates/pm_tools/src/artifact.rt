//! What an artifact says of its package: whether anything is built, and the library of a macro.

ghost use Rattle.std.specs.Prelude.{◌≡◌, find, option_copied};
ghost use Rattle.pm_tools.specs.Artifact.{after_build, dylib_after, gives_library, is_macro, is_path, library_among, output_after_artifact};
ghost use Rattle.pm_tools.specs.Library.{is_library};
ghost use Rattle.pm_tools.specs.Reading.{Gives, Leaves};

use crate::build_error::BuildError;
use crate::library::{absolute_path, is_library};
use base_text::Text;
use cargo_msgs::Artifact;
use pm_cargo::{BuildScriptOutput, ProcMacroDylibPath};
use std::alloc::Global;
use std::mem;

// Whether the artifact is that of a procedural macro.
fn is_macro(artifact: &Artifact) -> bool
    ensures { result ≡ is_macro artifact.now }
{
    artifact.target.is_proc_macro()
}

// Whether the path of a library is known.
fn is_path(path: &ProcMacroDylibPath) -> bool
    ensures { result ≡ is_path path.now }
{
    matches!(path, ProcMacroDylibPath::Path(_))
}

// What is known of a library once something of its package is built.
fn after_build(path: ProcMacroDylibPath) -> ProcMacroDylibPath
    ensures { result ≡ after_build path }
{
    match path {
        ProcMacroDylibPath::NotBuilt => ProcMacroDylibPath::NotProcMacro,
        known => known,
    }
}

// The first file that is a library.
fn first_library(files: &[Text]) -> Option<&Text>
    ensures { option_copied result ≡ find is_library files.now }
{
    files.iter().find(|file| is_library(file.as_str()))
}

// The library among the files of a macro.
fn library_among(alloc: Global, files: &[Text]) -> Result<ProcMacroDylibPath, BuildError>
    ensures { Gives result (library_among files.now) }
{
    match first_library(files) {
        Some(file) => Ok(ProcMacroDylibPath::Path(absolute_path(alloc, file.as_str())?)),
        None => Ok(ProcMacroDylibPath::DylibNotFound),
    }
}

/// Whether an artifact gives a package its library, where this is known of it so far.
pub(crate) fn gives_library(artifact: &Artifact, path: &ProcMacroDylibPath) -> bool
    ensures { result ≡ gives_library artifact.now path.now }
{
    is_macro(artifact) && !is_path(path)
}

// What is known of a library after an artifact.
#[tactic(auto, unfolding(crate::specs::Artifact::dylib_after))]
fn dylib_after(
    alloc: Global,
    artifact: &Artifact,
    path: ProcMacroDylibPath,
) -> Result<ProcMacroDylibPath, BuildError>
    ensures { Gives result (dylib_after artifact.now path) }
{
    if gives_library(artifact, &path) {
        library_among(alloc, artifact.filenames.as_slice())
    } else {
        Ok(after_build(path))
    }
}

/// Takes an artifact of a package that has this output.
pub(crate) fn take_artifact(
    alloc: Global,
    artifact: &Artifact,
    output: &mut BuildScriptOutput,
) -> Result<(), BuildError>
    ensures { Leaves result output.new (output_after_artifact artifact.now output.old) }
{
    let before = mem::replace(
        &mut output.proc_macro_dylib_path,
        ProcMacroDylibPath::NotBuilt,
    );
    output.proc_macro_dylib_path = dylib_after(alloc, artifact, before)?;
    Ok(())
}
