//! What is known of a crate beside its root and its dependencies.

use crate::values::edition_name;
use base_text::Text;
use cases::{Fault, List, Object};
use crate_graph::{CrateBuilder, CrateOrigin, CrateWorkspaceData};
use serde_json::Value;
use std::alloc::Global;

/// The columns of a crate, by their names. Those that are empty are said to be so together.
pub fn answer(alloc: Global, krate: &CrateBuilder) -> Result<Value, Fault> {
    let basic = &krate.basic;
    Object::new(alloc)
        .text("edition", edition_name(basic.edition))
        .optional("kind", basic.target_kind.as_cargo_target())
        .member("name", names(alloc, krate))
        .optional("version", krate.extra.version.as_ref().map(Text::as_str))
        .member("origin", origin(alloc, &basic.origin))
        .text("directory", basic.proc_macro_cwd.as_str())
        .flag("bare", is_bare(krate))
        .answer()
}

// The names that a crate is shown under: with underscores, and as it calls itself.
fn names(alloc: Global, krate: &CrateBuilder) -> Result<Value, Fault> {
    match &krate.extra.display_name {
        None => Ok(Value::Null),
        Some(name) => List::new(alloc)
            .text(name.crate_name().symbol().as_str())
            .text(name.canonical_name().as_str())
            .answer(),
    }
}

fn origin(alloc: Global, origin: &CrateOrigin) -> Result<Value, Fault> {
    match origin {
        CrateOrigin::Rustc { name } => List::new(alloc).text("rustc").text(name.as_str()).answer(),
        CrateOrigin::Local { repo, name } => List::new(alloc)
            .text("local")
            .optional(repo.as_ref().map(Text::as_str))
            .optional(name.as_ref().map(|name| name.as_str()))
            .answer(),
        CrateOrigin::Library { repo, name } => List::new(alloc)
            .text("library")
            .optional(repo.as_ref().map(Text::as_str))
            .text(name.as_str())
            .answer(),
        CrateOrigin::Lang(lang) => List::new(alloc).text("lang").text(lang.as_str()).answer(),
    }
}

// Whether a crate has no attributes, cfgs, potential cfgs and environment, and the data of its workspace.
fn is_bare(krate: &CrateBuilder) -> bool {
    krate.basic.crate_attrs.is_empty()
        && krate.cfg_options.as_slice().is_empty()
        && krate.extra.potential_cfg_options.is_none()
        && krate.env.is_empty()
        && has_data(krate.ws_data())
}

fn has_data(data: &CrateWorkspaceData) -> bool {
    let has_target = match &data.target {
        Ok(_) => false,
        Err(error) => error.0.as_str() == "bad target spec",
    };
    has_target && data.toolchain.is_none()
}
