//! What is known of all crates of a part of a project, beside what its document says of each.

use base_text_paths::{CfgAtom, Items};
use crate_graph_values::CrateWorkspaceData;
use pm_cargo_config::CfgOverrides;
use std::rc::Rc;

/// What is known of all crates of a part of a project, beside what its document says of each. A toolchain's
/// libraries are a part as the project itself is, with facts of their own. `O` is what a build gave the packages.
#[derive_where(Clone, Copy)]
pub struct CrateFacts<'a, O> {
    /// The atoms of conditional compilation that the compiler sets.
    pub atoms: &'a Items<CfgAtom>,
    /// What a user changes of them.
    pub overrides: &'a CfgOverrides,
    /// Whether local crates are built for their tests.
    pub set_test: bool,
    /// The path of cargo, or its name.
    pub cargo: &'a str,
    pub outputs: &'a O,
    /// What is known of the machine and the toolchain.
    pub shared: &'a Rc<CrateWorkspaceData>,
    /// Whether the part is a toolchain's libraries.
    pub in_sysroot: bool,
}
