//! Laws for callers' proofs. Each is a function that does nothing: its contract is the law.

ghost use Rattle.std.specs.Prelude.{◌≡◌, ◌↔◌, true};
ghost use Rattle.base_values.specs.Equality.{IsContentEquality};
ghost use Rattle.pm_tools_ask.specs.Laws.{HasCleanToolchain};
ghost use Rattle.pm_tools_ask.specs.Toolchain.{Toolchain};

use crate::rust_lib_src::RustLibSrcWorkspace;
use crate::sysroot::Sysroot;

/// Toolchains are equal exactly where their directories and what was read from their sources are the
/// same. Each directory's text is clean.
pub fn equality_is_content()
    ensures toolchains { (x y : Toolchain) → HasCleanToolchain x → HasCleanToolchain y
        → (⟦<Sysroot as PartialEq>⟧.eq x y ≡ true) ↔ (x ≡ y) }
    ensures workspaces { IsContentEquality ⟦<RustLibSrcWorkspace as PartialEq>⟧.eq }
{}
