//! What is known of a row's crate beside its root file and its dependencies.

ghost use Rattle.std.specs.Prelude.{◌≡◌, map, option_map, string_bytes, IfOk};
ghost use Rattle.crate_graph.specs.Graph.{attribute};
ghost use Rattle.crate_graph_values.specs.declared.origin.CrateOrigin.TheVariants.{Lang};
ghost use Rattle.pm_lower_crates.specs.JsonColumns.{crate_directory, lang_origin, local_origin, name_of, json_origin};
ghost use Rattle.pm_lower_crates.specs.Facts.{facts_of};

use crate::facts::CrateFacts;
use base_text_paths::{AbsPathBuf, Text, TryClone};
use crate_graph_values::{CrateOrigin, LangCrateOrigin};
use pm_cargo::BuildOutputs;
use pm_json::{Crate, ProjectJson};
use std::alloc::{AllocError, Global};

/// A crate's version as it is written, where it is stated.
pub(crate) fn version_text(alloc: Global, krate: &Crate) -> Result<Option<String>, AllocError>
    ensures { IfOk result (λ version. option_map string_bytes version ≡ krate.now.version) }
{
    Ok(krate.version.try_clone(alloc)?.map(Text::into_inner))
}

/// The attributes of the whole crate, which a graph puts in brackets.
pub(crate) fn attributes_of(alloc: Global, krate: &Crate) -> Result<Vec<String>, AllocError>
    ensures { IfOk result (λ texts. map (λ text. attribute (string_bytes text)) texts.items
        ≡ map attribute krate.now.crate_attrs) }
{
    let mut texts = Vec::new(alloc);
    for text in krate.crate_attrs.as_slice() {
        texts.push(String::from_str(alloc, text.as_str())?)?;
    }
    Ok(texts)
}

/// Where a crate comes from.
pub(crate) fn origin_of<O: BuildOutputs>(
    alloc: Global,
    facts: &CrateFacts<'_, O>,
    krate: &Crate,
) -> Result<CrateOrigin, AllocError>
    ensures { IfOk result (λ origin.
        origin ≡ json_origin (facts_of O.output_at O.is_failed facts.now) krate.now) }
{
    if facts.in_sysroot {
        Ok(CrateOrigin::Lang(lang_of(krate)))
    } else {
        local_origin(alloc, krate)
    }
}

// Which crate of the language a crate of a sysroot is.
fn lang_of(krate: &Crate) -> LangCrateOrigin
    ensures { Lang result ≡ lang_origin krate.now.display_name }
{
    match &krate.display_name {
        Some(name) => LangCrateOrigin::from_text(name.canonical_name().as_str()),
        None => LangCrateOrigin::Dependency,
    }
}

fn local_origin(alloc: Global, krate: &Crate) -> Result<CrateOrigin, AllocError>
    ensures { IfOk result (λ origin.
        origin ≡ local_origin krate.now.repository krate.now.display_name) }
{
    let Some(name) = &krate.display_name else {
        return Ok(CrateOrigin::Local {
            repo: None,
            name: None,
        });
    };
    let repo = krate.repository.try_clone(alloc)?;
    let name = Some(name.canonical_name().try_clone(alloc)?);
    Ok(CrateOrigin::Local { repo, name })
}

/// The name by which a user changes the atoms of a crate.
pub(crate) fn name_of(krate: &Crate) -> &str
    ensures { result.now ≡ name_of krate.now }
{
    match &krate.display_name {
        Some(name) => name.canonical_name().as_str(),
        None => "",
    }
}

/// The directory that a crate runs in.
pub(crate) fn directory_of(
    alloc: Global,
    project: &ProjectJson,
    krate: &Crate,
) -> Result<AbsPathBuf, AllocError>
    ensures { IfOk result (λ path. path ≡ crate_directory project.now krate.now) }
{
    match &krate.proc_macro_cwd {
        Some(directory) => directory.try_clone(alloc),
        None => project.project_root().to_path_buf(alloc),
    }
}
