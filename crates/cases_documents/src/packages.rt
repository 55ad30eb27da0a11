//! Packages and targets of a document, and the texts of kinds.

use base_text::Text;
use cargo_meta::{CrateType, Error, Package, PackageId, PackageName, Target, TargetKind};
use cases::{
    Case, Fault, List, Object, missed_answer, optional_answer, optional_text, print_answer,
};
use json_fields::bare_version;
use serde_json::Value;
use std::alloc::{AllocError, Global};

/// What a call on a package, a target or a kind gives.
pub fn answer(alloc: Global, case: Case<'_>) -> Result<Value, Fault> {
    match case.text("call") {
        "from_text" => kinds_of_text(alloc, case.text("text")),
        "Package::new" => package(alloc, case),
        "Target::of_value" => target(alloc, case),
        _ => Err(Fault::Call),
    }
}

// A text as a kind of target and as a type of crate: the text of each, and what is printed.
fn kinds_of_text(alloc: Global, text: &str) -> Result<Value, Fault> {
    let kind = TargetKind::from_text(alloc, text)?;
    let crate_type = CrateType::from_text(alloc, text)?;
    let printed = format!(in alloc; "{kind} {crate_type}")?;
    List::new(alloc)
        .text(kind.as_str())
        .text(crate_type.as_str())
        .text(printed.as_str())
        .answer()
}

// A new package of a manifest.
fn of_manifest(alloc: Global, manifest: &str) -> Result<Package, AllocError> {
    let name = PackageName::new(Text::of_str(alloc, "a")?);
    let repr = Text::of_str(alloc, "a")?;
    let manifest = Text::of_str(alloc, manifest)?;
    let Ok(version) = bare_version(alloc, "1.2.3") else {
        return Err(AllocError);
    };
    Package::new(alloc, name, version, PackageId { repr }, manifest)
}

// The files that a new package names as its license and its readme, and what else it has.
fn package(alloc: Global, case: Case<'_>) -> Result<Value, Fault> {
    let mut package = Box::new(alloc, of_manifest(alloc, case.text("manifest"))?)?;
    package.license_file = optional_text(alloc, case, "license_file")?;
    package.readme = optional_text(alloc, case, "readme")?;
    package_answer(alloc, &package)
}

fn package_answer(alloc: Global, package: &Package) -> Result<Value, Fault> {
    List::new(alloc)
        .item(path_answer(alloc, package.license_file(alloc)))
        .item(path_answer(alloc, package.readme(alloc)))
        .text(package.edition.as_str())
        .number(package.targets.len() as u64)
        .text(package.manifest_path.as_str())
        .flag(!package.metadata.as_value().is_null())
        .answer()
}

fn path_answer(alloc: Global, path: Result<Option<Text>, AllocError>) -> Result<Value, Fault> {
    let path = path?;
    optional_answer(alloc, path.as_ref().map(Text::as_str))
}

/// The place of a document that does not fit, or the printed error.
pub fn refusal(alloc: Global, error: &Error) -> Result<Value, Fault> {
    match error {
        Error::Json { field } => missed_answer(alloc, field.as_str()),
        _ => Object::new(alloc)
            .member("error", print_answer(alloc, error))
            .answer(),
    }
}

fn target(alloc: Global, case: Case<'_>) -> Result<Value, Fault> {
    let reading = Target::of_value(alloc, case.member("document"));
    let reading = Box::new(alloc, reading)?;
    match &*reading {
        Ok(target) => target_answer(alloc, case, target),
        Err(error) => refusal(alloc, error),
    }
}

// Which of the kinds of the case the target is of, or else what is written of it.
fn target_answer(alloc: Global, case: Case<'_>, target: &Target) -> Result<Value, Fault> {
    match case.find("kinds") {
        Some(_) => kinds(alloc, case, target),
        None => Ok(target.to_value(alloc)?),
    }
}

// The names of those kinds that the target is of. Both ways to ask have to agree.
fn kinds(alloc: Global, case: Case<'_>, target: &Target) -> Result<Value, Fault> {
    let mut kinds = List::new(alloc);
    for name in case.list("kinds") {
        let name = case.with(name).as_text();
        let is_of = is_of(target, name);
        if target.is_kind(&TargetKind::from_text(alloc, name)?) != is_of {
            return Err(Fault::Condition);
        }
        if is_of {
            kinds = kinds.text(name);
        }
    }
    kinds.answer()
}

fn is_of(target: &Target, kind: &str) -> bool {
    match kind {
        "lib" => target.is_lib(),
        "bin" => target.is_bin(),
        "example" => target.is_example(),
        "test" => target.is_test(),
        "bench" => target.is_bench(),
        "custom-build" => target.is_custom_build(),
        "proc-macro" => target.is_proc_macro(),
        "cdylib" => target.is_cdylib(),
        "dylib" => target.is_dylib(),
        "rlib" => target.is_rlib(),
        "staticlib" => target.is_staticlib(),
        _ => false,
    }
}
