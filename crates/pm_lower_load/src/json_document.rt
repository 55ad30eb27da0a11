//! The document of a JSON project: the file that it is in, and the project that it states.

ghost use Rattle.std.specs.Prelude.{◌≡◌, IfOk, option_copied};
ghost use Rattle.pm_lower_load.specs.JsonDocument as spec;
ghost use Rattle.pm_lower_load.specs.JsonDocument.{document_at, json_content, stated_sysroot, toolchain_member, without_toolchain};
ghost use Rattle.pm_lower_load.specs.Loading.{Gives};

use crate::load_error::LoadError;
use base_text::{Limits, ManifestPath, Text, Tree, TryClone};
use json_fields::of_text;
use pm_json::{ProjectJson, ProjectJsonData};
use pm_tools_ask::Sysroot;
use std::alloc::{AllocError, Global};

// The text of the document at a path.
fn document_text<T: Tree>(alloc: Global, path: &ManifestPath, tree: &T) -> Result<Text, LoadError>
    ensures { Gives result (spec.document_text (T.files tree.now) path.now) }
{
    match tree.reads(alloc, path.as_path())? {
        Some(text) => Ok(text),
        None => {
            let path = Text::of_str(alloc, path.as_path().as_str())?;
            Err(LoadError::NoSuchFile(path))
        }
    }
}

// The document at a path.
#[tactic(auto, unfolding(crate::specs::JsonDocument::document_at))]
fn document_at<T: Tree>(
    alloc: Global,
    path: &ManifestPath,
    tree: &T,
) -> Result<ProjectJsonData, LoadError>
    ensures { Gives result (document_at (T.files tree.now) path.now) }
{
    let text = document_text(alloc, path, tree)?;
    Ok(of_text(alloc, text.as_str())?)
}

// The first of the members that state a toolchain, if one does.
#[tactic(auto, unfolding(crate::specs::JsonDocument::toolchain_member))]
fn toolchain_member(stated: &ProjectJsonData) -> Option<&'static str>
    ensures { option_copied result ≡ toolchain_member stated.now }
{
    if stated.sysroot.is_some() {
        return Some("sysroot");
    }
    if stated.sysroot_src.is_some() {
        return Some("sysroot_src");
    }
    if stated.sysroot_project.is_some() {
        return Some("sysroot_project");
    }
    None
}

// Refuses a document by the first of its members that states a toolchain.
fn refuse_toolchain(alloc: Global, member: Option<&str>) -> Result<(), LoadError>
    ensures { Gives result (without_toolchain (option_copied member.entry) tt) }
{
    match member {
        Some(member) => Err(LoadError::Json {
            field: Text::of_str(alloc, member)?,
        }),
        None => Ok(()),
    }
}

/// The project of the document at a path. One that states a toolchain is refused after all other checks.
#[tactic(auto, unfolding(crate::specs::JsonDocument::json_content))]
pub fn json_content<T: Tree>(
    alloc: Global,
    path: &ManifestPath,
    limits: &Limits,
    tree: &T,
) -> Result<ProjectJson, LoadError>
    ensures { Gives result (json_content path.now limits.now (T.files tree.now)) }
{
    let manifest = Some(path.try_clone(alloc)?);
    let stated = document_at(alloc, path, tree)?;
    let toolchain = toolchain_member(&stated);
    let project = ProjectJson::new(alloc, manifest, path.parent(), stated, limits)?;
    refuse_toolchain(alloc, toolchain)?;
    Ok(project)
}

/// The toolchain that a project states.
pub fn stated_sysroot(alloc: Global, project: &ProjectJson) -> Result<Sysroot, AllocError>
    ensures { IfOk result (λ sysroot. sysroot ≡ stated_sysroot project.now) }
{
    let root = project.sysroot.try_clone(alloc)?;
    let src = project.sysroot_src.try_clone(alloc)?;
    Ok(Sysroot::new(root, src))
}
