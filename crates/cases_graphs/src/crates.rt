//! What a crate is made of: names, dependencies, origins, kinds, channels, targets and toolchains.

use crate::making::toolchain;
use base_text::{Text, TryClone};
use cases::{
    Case, Fault, List, Object, agreement_answer, copied_answer, optional_answer, print_answer,
    printed_answer, text_answer,
};
use crate_graph::{
    CrateBuilderId, CrateDisplayName, CrateName, CrateOrigin, CrateWorkspaceData, Dependency,
    DependencyBuilder, LangCrateOrigin, ProcMacroLoadingError, ReleaseChannel, TargetKind,
};
use crate_graph_values::target::{Arch, TargetData, TargetLoadError};
use serde_json::Value;
use std::alloc::{AllocError, Global};

/// What a call on a part of a crate gives.
pub fn answer(alloc: Global, case: Case<'_>) -> Result<Value, Fault> {
    match case.text("call") {
        "CrateDisplayName" => names(alloc, case),
        "CrateOrigin" => origins(alloc),
        "CrateWorkspaceData" => workspace(alloc, case),
        "Dependency::with_prelude" => dependency(alloc, case),
        call => of_text(alloc, call, case.text("text")),
    }
}

// What a call on one text gives.
fn of_text(alloc: Global, call: &str, text: &str) -> Result<Value, Fault> {
    match call {
        "LangCrateOrigin::from_text" => lang_origin(alloc, text),
        "TargetKind" => kind(alloc, text),
        "ReleaseChannel::from_text" => {
            let channel = ReleaseChannel::from_text(text);
            optional_answer(alloc, channel.map(ReleaseChannel::as_str))
        }
        "ProcMacroLoadingError" => loading_error(alloc, Text::of_str(alloc, text)?),
        _ => Err(Fault::Call),
    }
}

// A text as a name of code, with its dashes replaced, and as the name of a crate: as that was given, as code has it, and
// printed; and the same of the name of a crate that is made of the name of code.
fn names(alloc: Global, case: Case<'_>) -> Result<Value, Fault> {
    let (text, other) = (case.text("text"), case.text("other"));
    let name = CrateDisplayName::from_canonical_name(alloc, text)?;
    let of_code = CrateDisplayName::from_name(alloc, CrateName::normalize_dashes(alloc, text)?)?;
    let other = CrateDisplayName::from_canonical_name(alloc, other)?;
    Object::new(alloc)
        .member("new", new_name(alloc, text))
        .member(
            "code",
            printed_answer(alloc, CrateName::normalize_dashes(alloc, text)),
        )
        .member("name", name_answer(alloc, &name))
        .member("of_code", name_answer(alloc, &of_code))
        .member("copied", copied_answer(alloc, &name))
        .flag("other", name == other)
        .answer()
}

// A name of code, or the text in a list where it is none.
fn new_name(alloc: Global, text: &str) -> Result<Value, Fault> {
    match CrateName::new(String::from_str(alloc, text)?) {
        Ok(name) => text_answer(alloc, name.symbol().as_str()),
        Err(text) => List::new(alloc).text(text.as_str()).answer(),
    }
}

fn name_answer(alloc: Global, name: &CrateDisplayName) -> Result<Value, Fault> {
    List::new(alloc)
        .text(name.canonical_name().as_str())
        .text(name.crate_name().symbol().as_str())
        .item(print_answer(alloc, name))
        .answer()
}

fn lang_origin(alloc: Global, text: &str) -> Result<Value, Fault> {
    let origin = LangCrateOrigin::from_text(text);
    List::new(alloc)
        .text(origin.as_str())
        .item(print_answer(alloc, &origin))
        .answer()
}

// The marks of a plain dependency and of one with the marks of the case, and whether the two agree.
fn dependency(alloc: Global, case: Case<'_>) -> Result<Value, Fault> {
    let id = CrateBuilderId::from_raw(0);
    let plain = Dependency::new(CrateName::normalize_dashes(alloc, "dep")?, id);
    let name = CrateName::normalize_dashes(alloc, "dep")?;
    let marked = Dependency::with_prelude(name, id, case.flag("prelude"), case.flag("sysroot"));
    Object::new(alloc)
        .member("plain", marks(alloc, &plain))
        .member("marked", marks(alloc, &marked))
        .member("agree", agreement_answer(alloc, &plain, &marked))
        .answer()
}

// Whether a dependency is in the prelude, and whether it is of the sysroot.
fn marks(alloc: Global, dep: &DependencyBuilder) -> Result<Value, Fault> {
    List::new(alloc)
        .flag(dep.is_prelude())
        .flag(dep.is_sysroot())
        .answer()
}

// Whether a local crate and std are local, of a library and of the language, and whether the first comes before the second.
fn origins(alloc: Global) -> Result<Value, Fault> {
    let local = CrateOrigin::Local {
        repo: None,
        name: None,
    };
    let std = CrateOrigin::Lang(LangCrateOrigin::Std);
    List::new(alloc)
        .flag(local.is_local())
        .flag(local.is_lib())
        .flag(local.is_lang())
        .flag(std.is_local())
        .flag(std.is_lib())
        .flag(std.is_lang())
        .flag(local < std)
        .answer()
}

// Whether a target's kind is executable, whether it is a procedural macro, and cargo's name of it.
fn kind(alloc: Global, text: &str) -> Result<Value, Fault> {
    let is_proc_macro = text == "proc-macro";
    let kind = match text {
        "lib" | "proc-macro" => TargetKind::Lib { is_proc_macro },
        "bin" => TargetKind::Bin,
        "example" => TargetKind::Example,
        _ => TargetKind::BuildScript,
    };
    List::new(alloc)
        .flag(kind.is_executable())
        .flag(kind.is_proc_macro())
        .optional(kind.as_cargo_target())
        .answer()
}

// What is printed of an error of a procedural macro that is not yet built, and of one of the server with a text, and whether a
// copy of each is a fault.
fn loading_error(alloc: Global, text: Text) -> Result<Value, Fault> {
    let error = ProcMacroLoadingError::ProcMacroSrvError(text);
    let copy = error.try_clone(alloc)?;
    List::new(alloc)
        .item(print_answer(alloc, &ProcMacroLoadingError::NotYetBuilt))
        .flag(ProcMacroLoadingError::NotYetBuilt.is_hard_error())
        .item(print_answer(alloc, &copy))
        .flag(copy.is_hard_error())
        .answer()
}

// Whether the toolchain of a version is 1.87.0 or later, which is not known without one; whether what is known of a workspace
// equals its copy; and what is printed of the error of its target, where it has none.
fn workspace(alloc: Global, case: Case<'_>) -> Result<Value, Fault> {
    let target = target(alloc, case.optional_text("layout"))?;
    let toolchain = toolchain(alloc, case.optional_text("version"))?;
    let data = CrateWorkspaceData { target, toolchain };
    let answer = List::new(alloc)
        .flag(data.is_atleast_187())
        .item(copied_answer(alloc, &data));
    match &data.target {
        Ok(_) => answer.answer(),
        Err(error) => answer.item(print_answer(alloc, error)).answer(),
    }
}

// The target of a layout. Without a layout it is not known.
fn target(
    alloc: Global,
    layout: Option<&str>,
) -> Result<Result<TargetData, TargetLoadError>, AllocError> {
    match layout {
        Some(layout) => Ok(Ok(TargetData {
            data_layout: Text::of_str(alloc, layout)?,
            arch: Arch::Other,
        })),
        None => Ok(Err(TargetLoadError(Text::of_str(alloc, "no rustc")?))),
    }
}
