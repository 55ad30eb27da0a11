//! A crate as a builder of the graph holds it.

ghost use Rattle.std.specs.Prelude.{◌≡◌};
ghost use Rattle.crate_graph_values.specs.Builder.{workspace_of};

use crate::crate_data::{CrateBuilderId, CrateDataBuilder};
use crate::env::Env;
use crate::names::CrateDisplayName;
use crate::proc_macro::ProcMacroLoadingError;
use crate::workspace_data::CrateWorkspaceData;
use base_text_paths::{AbsPathBuf, CfgOptions, Shared, Text, TryClone};
use std::alloc::{AllocError, Global};
use std::collections::BTreeMap;

/// What is known of a crate beside the data that identifies it.
#[derive(Debug, PartialEq, Eq, Drop)]
pub struct ExtraCrateData {
    pub version: Option<Text>,
    pub display_name: Option<CrateDisplayName>,
    /// The atoms that the crate may be built with, where they are known.
    pub potential_cfg_options: Option<CfgOptions>,
}

impl TryClone for ExtraCrateData {
    fn try_clone(&self, alloc: Global) -> Result<Self, AllocError> {
        let version = self.version.try_clone(alloc)?;
        let display_name = self.display_name.try_clone(alloc)?;
        let potential_cfg_options = self.potential_cfg_options.try_clone(alloc)?;
        Ok(ExtraCrateData {
            version,
            display_name,
            potential_cfg_options,
        })
    }
}

/// A crate of a builder.
#[derive(PartialEq, Eq, Debug, Drop)]
pub struct CrateBuilder {
    pub basic: CrateDataBuilder,
    pub extra: ExtraCrateData,
    pub cfg_options: CfgOptions,
    pub env: Env,
    ws_data: Shared<CrateWorkspaceData>,
}

impl CrateBuilder {
    pub fn new(
        basic: CrateDataBuilder,
        extra: ExtraCrateData,
        cfg_options: CfgOptions,
        env: Env,
        ws_data: Shared<CrateWorkspaceData>,
    ) -> Self
        ensures data { result.basic ≡ basic }
        ensures beside { result.extra ≡ extra }
        ensures cfgs { result.cfg_options ≡ cfg_options }
        ensures env { result.env ≡ env }
        ensures workspace { workspace_of result ≡ ws_data }
    {
        CrateBuilder {
            basic,
            extra,
            cfg_options,
            env,
            ws_data,
        }
    }

    /// What the crate shares with its workspace.
    pub fn ws_data(&self) -> &CrateWorkspaceData
        ensures { result.now ≡ workspace_of self.now }
    {
        self.ws_data.get()
    }

    /// The same, as its workspace shares it.
    pub fn shared_ws_data(&self) -> &Shared<CrateWorkspaceData>
        ensures { result.now ≡ workspace_of self.now }
    {
        &self.ws_data
    }
}

impl TryClone for CrateBuilder {
    fn try_clone(&self, alloc: Global) -> Result<Self, AllocError> {
        let ws_data = self.ws_data.try_clone(alloc)?;
        let env = self.env.try_clone(alloc)?;
        let cfg_options = self.cfg_options.try_clone(alloc)?;
        let extra = self.extra.try_clone(alloc)?;
        let basic = self.basic.try_clone(alloc)?;
        Ok(CrateBuilder {
            basic,
            extra,
            cfg_options,
            env,
            ws_data,
        })
    }
}

/// The library of each crate of procedural macros and its name, or why there is none.
pub type ProcMacroPaths = BTreeMap<
    CrateBuilderId,
    Result<(Text, AbsPathBuf), ProcMacroLoadingError>,
>;
