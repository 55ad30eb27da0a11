//! What a build gives one package.

ghost use Rattle.std.specs.Prelude.{◌≡◌};
ghost use Rattle.pm_cargo.specs.Output.{default_output};

use base_text_paths::{AbsPathBuf, CfgAtom, Items, TryClone};
use crate_graph_values::Env;
use std::alloc::{AllocError, Global};

/// The library that a procedural macro is loaded from.
#[derive(Debug, Default, PartialEq, Eq, Drop)]
pub enum ProcMacroDylibPath {
    /// It is at this path.
    Path(AbsPathBuf),
    /// The macro was built, and no library was among its files.
    DylibNotFound,
    /// What was built of the package is no macro.
    NotProcMacro,
    /// Nothing of the package was built.
    #[default]
    NotBuilt,
}

impl TryClone for ProcMacroDylibPath {
    fn try_clone(&self, alloc: Global) -> Result<Self, AllocError> {
        match self {
            ProcMacroDylibPath::Path(path) => Ok(ProcMacroDylibPath::Path(path.try_clone(alloc)?)),
            ProcMacroDylibPath::DylibNotFound => Ok(ProcMacroDylibPath::DylibNotFound),
            ProcMacroDylibPath::NotProcMacro => Ok(ProcMacroDylibPath::NotProcMacro),
            ProcMacroDylibPath::NotBuilt => Ok(ProcMacroDylibPath::NotBuilt),
        }
    }
}

/// What a build gives a package.
#[derive(Debug, PartialEq, Eq, Drop)]
pub struct BuildScriptOutput {
    /// The atoms of conditional compilation that the build script sets.
    pub cfgs: Items<CfgAtom>,
    /// The variables that the package is compiled with, `OUT_DIR` among them where it is known.
    pub envs: Env,
    /// The directory that the build script writes into.
    pub out_dir: Option<AbsPathBuf>,
    pub proc_macro_dylib_path: ProcMacroDylibPath,
}

impl BuildScriptOutput {
    /// The output of a package of which nothing is built. It holds no memory.
    pub fn new(alloc: Global) -> Self
        ensures { result ≡ default_output }
    {
        BuildScriptOutput {
            cfgs: Items::empty(alloc),
            envs: Env::new(alloc),
            out_dir: None,
            proc_macro_dylib_path: ProcMacroDylibPath::NotBuilt,
        }
    }
}

impl TryClone for BuildScriptOutput {
    fn try_clone(&self, alloc: Global) -> Result<Self, AllocError> {
        Ok(BuildScriptOutput {
            cfgs: self.cfgs.try_clone(alloc)?,
            envs: self.envs.try_clone(alloc)?,
            out_dir: self.out_dir.try_clone(alloc)?,
            proc_macro_dylib_path: self.proc_macro_dylib_path.try_clone(alloc)?,
        })
    }
}
