//! What a crate is built into.

ghost use Rattle.std.specs.Prelude.{◌≡◌};
ghost use Rattle.std.specs.Option.{option_copied};
ghost use Rattle.crate_graph_values.specs.TargetKind.{cargo_target, is_executable, is_proc_macro};

use base_text_paths::TryClone;
use std::alloc::{AllocError, Global};

/// What a crate is built into.
#[derive(Clone, Copy, Debug, PartialEq, Eq, PartialOrd, Ord, Hash)]
pub enum TargetKind {
    Bin,
    /// Any library, one of procedural macros too.
    Lib { is_proc_macro: bool },
    Example,
    Test,
    Bench,
    BuildScript,
    Other,
}

impl TargetKind {
    pub fn is_executable(self) -> bool
        ensures { result ≡ is_executable self }
    {
        matches!(self, TargetKind::Bin | TargetKind::Example)
    }

    pub fn is_proc_macro(self) -> bool
        ensures { result ≡ is_proc_macro self }
    {
        matches!(
            self,
            TargetKind::Lib {
                is_proc_macro: true
            }
        )
    }

    /// The name that Cargo gives the kind in its words and its output.
    pub fn as_cargo_target(self) -> Option<&'static str>
        ensures { option_copied result ≡ cargo_target self }
    {
        match self {
            TargetKind::Bin => Some("bin"),
            TargetKind::Lib {
                is_proc_macro: true,
            } => Some("proc-macro"),
            TargetKind::Lib {
                is_proc_macro: false,
            } => Some("lib"),
            TargetKind::Example => Some("example"),
            TargetKind::Test => Some("test"),
            TargetKind::Bench => Some("bench"),
            TargetKind::BuildScript => Some("custom-build"),
            TargetKind::Other => None,
        }
    }
}

impl TryClone for TargetKind {
    fn try_clone(&self, _alloc: Global) -> Result<Self, AllocError> {
        Ok(*self)
    }
}
