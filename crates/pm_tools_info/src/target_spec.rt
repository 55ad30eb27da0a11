//! What a compiler's specification of a platform says of it.

ghost use Rattle.std.specs.Prelude.{◌≡◌, IfOk};
ghost use Rattle.pm_tools_info.specs.TargetSpec.{arch_of, machine_of, spec_of, target_spec_at};

use base_text::{Text, TryClone};
pub use crate_graph_values::target::Arch;
use crate_graph_values::target::TargetData;
use json_fields::{ReadError, ReadJson, members, of_text, required_member};
use serde_json::Value;
use std::alloc::{AllocError, Global};

/// The specification of a platform.
#[derive(Debug, Drop, PartialEq, Eq)]
pub struct TargetSpec {
    /// How values lie in memory, in LLVM's words.
    pub data_layout: Text,
    pub arch: Arch,
}

// The kind of machine that a name stands for.
#[tactic(auto, unfolding(crate::specs::TargetSpec::arch_of))]
fn arch_of(name: &str) -> Arch
    ensures { result ≡ arch_of name.now }
{
    match name {
        "wasm32" => Arch::Wasm32,
        "wasm64" => Arch::Wasm64,
        _ => Arch::Other,
    }
}

#[tactic(auto, unfolding(crate::specs::TargetSpec::target_spec_at, json_fields::specs::Fields::required_member))]
impl ReadJson for TargetSpec {
    ghost use Rattle.pm_tools_info.specs.TargetSpec.{target_spec_at};

    ghost reads = { target_spec_at };

    fn read(alloc: Global, value: &Value) -> Result<TargetSpec, ReadError> {
        let fields = members(alloc, value)?;
        let data_layout = required_member(alloc, fields, "data-layout")?;
        let arch: Text = required_member(alloc, fields, "arch")?;
        Ok(TargetSpec {
            data_layout,
            arch: arch_of(arch.as_str()),
        })
    }
}

/// The specification that the answer of `rustc --print target-spec-json` is. None where it is no JSON, holds
/// a float or does not fit.
pub fn spec_of(alloc: Global, text: &str) -> Result<Option<TargetSpec>, AllocError>
    ensures { IfOk result (λ spec. spec ≡ spec_of text.now) }
{
    match of_text(alloc, text) {
        Ok(spec) => Ok(Some(spec)),
        Err(ReadError::Missed(_)) => Ok(None),
        Err(ReadError::OutOfMemory) => Err(AllocError),
    }
}

impl TryClone for TargetSpec {
    fn try_clone(&self, alloc: Global) -> Result<Self, AllocError> {
        let data_layout = self.data_layout.try_clone(alloc)?;
        Ok(TargetSpec {
            data_layout,
            arch: self.arch,
        })
    }
}

impl From<TargetSpec> for TargetData {
    ghost use Rattle.std.specs.Prelude.{◌≡◌};
    ghost use Rattle.pm_tools_info.specs.TargetSpec.{machine_of};

    ghost from_gives = { λ spec machine. machine ≡ machine_of spec };

    fn from(spec: TargetSpec) -> TargetData {
        TargetData {
            data_layout: spec.data_layout,
            arch: spec.arch,
        }
    }
}
