//! The directory of a toolchain, by which its tools are started.

ghost use Rattle.std.specs.Prelude.{◌≡◌, IfOk, None};
ghost use Rattle.std.specs.Option.{option_map};
ghost use Rattle.base_text_paths.specs.AbsPath.{abs_text};
ghost use Rattle.pm_tools_ask.specs.Ask.{means_of};
ghost use Rattle.pm_tools_ask.specs.Sysroot.{start_command, empty_sysroot, rustc_below, sysroot_of, tool_root};

use crate::ask::Ask;
use crate::rust_lib_src::RustLibSrcWorkspace;
use base_text::{AbsPath, AbsPathBuf, CommandLine, Runner, Tool, ToolRoot, Tree, TryClone};
use std::alloc::{AllocError, Global};
use std::marker::Model;

/// A toolchain: its directory and that of its libraries' sources, each where it is known, and what was read
/// from those sources.
#[derive(Debug, Drop, PartialEq, Eq)]
pub struct Sysroot {
    root: Option<AbsPathBuf>,
    src: Option<AbsPathBuf>,
    workspace: RustLibSrcWorkspace,
}

/// Contracts see the two directories and the workspace.
impl Model for Sysroot {
    ghost use Rattle.pm_tools_ask.specs.Toolchain.{Toolchain};

    ghost Value = { Toolchain };

    ghost view = { λ a. record { root = a.root; src = a.src; workspace = a.workspace } };

    ghost inverse = { λ v. record { root = v.root; src = v.src; workspace = v.workspace } };
}

impl Sysroot {
    /// No toolchain. Tools are started by their names, with no toolchain named to them.
    pub fn empty() -> Sysroot
        ensures { result ≡ empty_sysroot }
    {
        Sysroot::new(None, None)
    }

    /// A toolchain whose directories are given. Nothing has been read from its sources.
    pub fn new(root: Option<AbsPathBuf>, src: Option<AbsPathBuf>) -> Sysroot
        ensures { result ≡ sysroot_of root src }
    {
        Sysroot {
            root,
            src,
            workspace: RustLibSrcWorkspace::Empty,
        }
    }

    pub fn root(&self) -> Option<AbsPath<'_>>
        ensures { option_map abs_text result ≡ self.now.root }
    {
        match &self.root {
            Some(root) => Some(root.as_path()),
            None => None,
        }
    }

    /// The directory of the libraries' sources.
    pub fn rust_lib_src_root(&self) -> Option<AbsPath<'_>>
        ensures { option_map abs_text result ≡ self.now.src }
    {
        match &self.src {
            Some(src) => Some(src.as_path()),
            None => None,
        }
    }

    pub fn workspace(&self) -> &RustLibSrcWorkspace
        ensures { result.now ≡ self.now.workspace }
    {
        &self.workspace
    }

    /// The toolchain as commands are started by it.
    pub fn tool_root<R: Runner, T: Tree>(
        &self,
        alloc: Global,
        ask: &Ask<'_, R, T>,
    ) -> Result<ToolRoot, AllocError>
        ensures { IfOk result (λ root. root ≡ tool_root self.now.root (means_of R.answers T.files ask.now)) }
    {
        Ok(ToolRoot {
            tools: ask.tools.try_clone(alloc)?,
            root: self.root.try_clone(alloc)?,
            rustc: self.rustc(alloc, ask.tree)?,
            toolchain_set: ask.process_env.contains_key("RUSTUP_TOOLCHAIN"),
        })
    }

    // The path of the compiler in the toolchain's directory, where the tree holds it.
    fn rustc<T: Tree>(&self, alloc: Global, tree: &T) -> Result<Option<AbsPathBuf>, AllocError>
        ensures { IfOk result (λ rustc. rustc ≡ rustc_below (T.files tree.now) self.now.root) }
    {
        let Some(root) = &self.root else {
            return Ok(None);
        };
        let rustc = root.as_path().join(alloc, "bin/rustc")?;
        if tree.holds(alloc, rustc.as_path())? {
            Ok(Some(rustc))
        } else {
            Ok(None)
        }
    }

    /// The command that starts a tool in a directory, with no words yet. `rustc` is the program below the
    /// toolchain's directory, where the tree holds it.
    pub fn tool<R: Runner, T: Tree>(
        &self,
        alloc: Global,
        tool: Tool,
        dir: &str,
        ask: &Ask<'_, R, T>,
    ) -> Result<CommandLine, AllocError>
        ensures { IfOk result (λ line.
            line ≡ start_command self.now.root tool dir.now (means_of R.answers T.files ask.now)) }
    {
        self.tool_root(alloc, ask)?
            .command(alloc, tool, dir, ask.extra_env)
    }
}

impl TryClone for Sysroot {
    fn try_clone(&self, alloc: Global) -> Result<Self, AllocError> {
        Ok(Sysroot {
            root: self.root.try_clone(alloc)?,
            src: self.src.try_clone(alloc)?,
            workspace: self.workspace.try_clone(alloc)?,
        })
    }
}
