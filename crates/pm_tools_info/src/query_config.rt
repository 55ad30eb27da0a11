//! What is asked of: which toolchain, and where.

ghost use Rattle.std.specs.Prelude.{◌≡◌};
ghost use Rattle.pm_tools_info.specs.Config.{front_of, query_of, tool_of};

use base_text::{AbsPath, ManifestPath, Tool};
use pm_tools_ask::{CargoConfigFile, Sysroot};

/// What is asked of.
#[derive(Clone, Copy)]
pub enum QueryConfig<'a> {
    /// The compiler of a toolchain, in this directory.
    Rustc(&'a Sysroot, AbsPath<'a>),
    /// The `cargo` of a toolchain, for this manifest and in its directory; and the compiler of the toolchain for
    /// what `cargo` does not answer. The configuration is the one that is printed for the manifest, if it is known.
    Cargo(&'a Sysroot, &'a ManifestPath, Option<&'a CargoConfigFile>),
}

impl<'a> QueryConfig<'a> {
    pub(crate) fn sysroot(self) -> &'a Sysroot
        ensures { result.now ≡ (query_of self.entry).sysroot }
    {
        match self {
            QueryConfig::Rustc(sysroot, _) | QueryConfig::Cargo(sysroot, _, _) => sysroot,
        }
    }

    /// The directory in which questions are asked.
    pub(crate) fn dir(self) -> &'a str
        ensures { result.now ≡ (query_of self.entry).dir }
    {
        match self {
            QueryConfig::Rustc(_, dir) => dir.as_str(),
            QueryConfig::Cargo(_, manifest, _) => manifest.parent().as_str(),
        }
    }

    /// The tool that prints its own version.
    pub(crate) fn tool(self) -> Tool
        ensures { result ≡ tool_of (query_of self.entry) }
    {
        match self {
            QueryConfig::Rustc(..) => Tool::Rustc,
            QueryConfig::Cargo(..) => Tool::Cargo,
        }
    }

    /// What that tool prints before its version.
    pub(crate) fn front(self) -> &'static str
        ensures { result.now ≡ front_of (query_of self.entry) }
    {
        match self {
            QueryConfig::Rustc(..) => "rustc ",
            QueryConfig::Cargo(..) => "cargo ",
        }
    }
}
