//! What is printed of the kinds and editions: their texts.

use crate::kinds::{CrateType, DependencyKind, Edition, TargetKind};
use std::fmt;

impl fmt::Display for TargetKind {
    ghost use Rattle.std.specs.Prelude.{Some};
    ghost use Rattle.cargo_meta_values.specs.Kinds.{target_kind_text};

    ghost output = { λ kind. Some (target_kind_text kind) };

    fn fmt<W: fmt::Write>(&self, f: &mut fmt::Formatter<W>) -> fmt::Result {
        f.pad(self.as_str())
    }
}

impl fmt::Display for CrateType {
    ghost use Rattle.std.specs.Prelude.{Some};
    ghost use Rattle.cargo_meta_values.specs.Kinds.{crate_type_text};

    ghost output = { λ kind. Some (crate_type_text kind) };

    fn fmt<W: fmt::Write>(&self, f: &mut fmt::Formatter<W>) -> fmt::Result {
        f.pad(self.as_str())
    }
}

impl fmt::Display for DependencyKind {
    ghost use Rattle.std.specs.Prelude.{Some};
    ghost use Rattle.cargo_meta_values.specs.Kinds.{dependency_kind_text};

    ghost output = { λ kind. Some (dependency_kind_text kind) };

    fn fmt<W: fmt::Write>(&self, f: &mut fmt::Formatter<W>) -> fmt::Result {
        f.pad(self.as_str())
    }
}

impl fmt::Display for Edition {
    ghost use Rattle.std.specs.Prelude.{Some};
    ghost use Rattle.cargo_meta_values.specs.Kinds.{edition_text};

    ghost output = { λ edition. Some (edition_text edition) };

    fn fmt<W: fmt::Write>(&self, f: &mut fmt::Formatter<W>) -> fmt::Result {
        f.pad(self.as_str())
    }
}
