//! A crate of a document: seventeen rows, of which four must be there.

ghost use Rattle.std.specs.Prelude.{◌≡◌};
ghost use Rattle.pm_json.specs.CrateData.{crate_at, crate_data, crate_data-present};
ghost use Rattle.pm_json.specs.laws.CrateData.{crate-round_trips};

use crate::crate_rows::{copy_head, copy_tail, crate_of, read_head, read_tail, set_head, set_tail};
use crate::dep::Dep;
use crate::kinds::EditionData;
use crate::parts::{BuildData, CrateSource};
use base_text_paths::{ByText, CfgAtom, Items, Text, TryClone, Version};
use json_fields::{Json, Present, ReadError, ReadJson, members};
use serde_json::{Map, Value};
use std::alloc::{AllocError, Global};

/// A crate as a document states it. Paths are texts, which a project reads from its base.
#[derive(Debug, PartialEq, Eq, Drop)]
pub struct CrateData {
    pub display_name: Option<Text>,
    /// The file that the crate begins in.
    pub root_module: Text,
    pub edition: EditionData,
    pub version: Option<Version>,
    pub deps: Items<Dep>,
    /// The groups of the document whose atoms count as the crate's.
    pub cfg_groups: Items<Text>,
    pub cfg: Items<CfgAtom>,
    /// The target that the crate is compiled for.
    pub target: Option<Text>,
    pub env: ByText<Text>,
    /// Attributes of the whole crate, each without what stands round it in code.
    pub crate_attrs: Items<Text>,
    pub proc_macro_dylib_path: Option<Text>,
    pub is_workspace_member: Option<bool>,
    pub source: Option<CrateSource>,
    pub is_proc_macro: bool,
    pub repository: Option<Text>,
    pub build: Option<BuildData>,
    /// The directory that procedural macros run in.
    pub proc_macro_cwd: Option<Text>,
}

impl TryClone for CrateData {
    fn try_clone(&self, alloc: Global) -> Result<Self, AllocError> {
        let head = copy_head(alloc, self)?;
        Ok(crate_of(head, copy_tail(alloc, self)?))
    }
}

#[tactic(auto, unfolding(crate::specs::CrateData::crate_at, crate::specs::CrateData::crate_from))]
impl ReadJson for CrateData {
    ghost reads = { crate_at };

    fn read(alloc: Global, value: &Value) -> Result<CrateData, ReadError> {
        let fields = members(alloc, value)?;
        let head = read_head(alloc, fields)?;
        Ok(crate_of(head, read_tail(alloc, fields)?))
    }
}

#[tactic(auto, unfolding(crate::specs::CrateData::crate_data, crate::specs::CrateData::crate_members))]
impl Json for CrateData {
    ghost writes = { crate_data };

    ghost height = { 0 };

    fn write(&self, alloc: Global) -> Result<Value, AllocError> {
        let mut fields = Map::new(alloc);
        set_head(alloc, &mut fields, self)?;
        set_tail(alloc, &mut fields, self)?;
        Ok(Value::Object(fields))
    }

    ghost round_trips = { crate-round_trips };
}

impl Present for CrateData {
    ghost present = { crate_data-present };
}
