//! The rows of a workspace: the targets that become crates of the graph, by package.

ghost use Rattle.std.specs.Prelude.{◌≡◌};
ghost use Rattle.std.specs.Option.{option_copied};
ghost use Rattle.base_text_paths.specs.Arena.{number_of};
ghost use Rattle.pm_lower_crates.specs.Rows.{is_build_script, is_lib, is_macro_row, library};

use base_text_paths::{FileId, Items};
use crate_graph_values::TargetKind;
use pm_cargo_packages::{Package, PackageData, TargetData};
use std::marker::Model;

/// A target of a package that is a crate of the graph.
#[derive(Drop)]
pub(crate) struct Row<'a> {
    number: u32,
    of: &'a PackageData,
    of_number: Package,
    place: usize,
    target: &'a TargetData,
    file: FileId,
}

impl<'a> Model for Row<'a> {
    ghost use Rattle.base_text_paths.specs.Arena.{number_of};
    ghost use Rattle.pm_lower_crates.specs.Rows as seen;

    ghost Value = { seen.Row };

    ghost view = { λ a. record {
      number = a.number;
      of = a.of.now;
      of_number = number_of a.of_number;
      place = a.place;
      target = a.target.now;
      file = a.file;
    } };
}

impl<'a> Row<'a> {
    pub(crate) fn new(
        number: u32,
        of: &'a PackageData,
        of_number: Package,
        place: usize,
        target: &'a TargetData,
        file: FileId,
    ) -> Self
        ensures { result ≡ record {
          number = number;
          of = of.now;
          of_number = number_of of_number;
          place = place;
          target = target.now;
          file = file;
        } }
    {
        Row {
            number,
            of,
            of_number,
            place,
            target,
            file,
        }
    }

    pub(crate) fn copy(&self) -> Self
        ensures { result ≡ self.now }
    {
        Row::new(
            self.number,
            self.of,
            self.of_number,
            self.place,
            self.target,
            self.file,
        )
    }

    /// The file that the row's crate begins in.
    pub(crate) fn file(&self) -> FileId
        ensures { result ≡ self.now.file }
    {
        self.file
    }

    pub(crate) fn of(&self) -> &'a PackageData
        ensures { result.now ≡ self.now.of }
    {
        self.of
    }

    /// The package's number.
    pub(crate) fn of_number(&self) -> Package
        ensures { number_of result ≡ self.now.of_number }
    {
        self.of_number
    }

    pub(crate) fn number(&self) -> u32
        ensures { result ≡ self.now.number }
    {
        self.number
    }

    pub(crate) fn place(&self) -> usize
        ensures { result ≡ self.now.place }
    {
        self.place
    }

    pub(crate) fn target(&self) -> &'a TargetData
        ensures { result.now ≡ self.now.target }
    {
        self.target
    }
}

/// A package and its rows.
#[derive(Drop)]
pub(crate) struct Owner<'a> {
    of: &'a PackageData,
    rows: Items<Row<'a>>,
    // The last row that is a library.
    library: Option<Row<'a>>,
}

impl<'a> Model for Owner<'a> {
    ghost use Rattle.std.specs.Prelude.{◌≡◌};
    ghost use Rattle.pm_lower_crates.specs.Rows as seen;

    ghost Value = { seen.Owner };

    ghost view = { λ a. record { of = a.of.now; rows = a.rows } };

    ghost invariant = { λ a. a.library ≡ seen.library a.rows };
}

impl<'a> Owner<'a> {
    /// A package with its rows, and the last of these that is a library.
    pub(crate) fn new(
        of: &'a PackageData,
        rows: Items<Row<'a>>,
        own_library: Option<Row<'a>>,
    ) -> Self
        requires { own_library ≡ library rows }
        ensures { result ≡ record { of = of.now; rows = rows.entry } }
    {
        Owner {
            of,
            rows,
            library: own_library,
        }
    }

    pub(crate) fn of(&self) -> &'a PackageData
        ensures { result.now ≡ self.now.of }
    {
        self.of
    }

    pub(crate) fn rows(&self) -> &[Row<'a>]
        ensures { result.now ≡ self.now.rows }
    {
        self.rows.as_slice()
    }

    /// The package's library.
    pub(crate) fn library(&self) -> Option<&Row<'a>>
        ensures { option_copied result ≡ library self.now.rows }
    {
        self.library.as_ref()
    }
}

pub(crate) fn is_lib(kind: TargetKind) -> bool
    ensures { result ≡ is_lib kind }
{
    matches!(kind, TargetKind::Lib { .. })
}

pub(crate) fn is_macro(kind: TargetKind) -> bool
    ensures { result ≡ is_macro_row kind }
{
    matches!(
        kind,
        TargetKind::Lib {
            is_proc_macro: true
        }
    )
}

pub(crate) fn is_build_script(kind: TargetKind) -> bool
    ensures { result ≡ is_build_script kind }
{
    matches!(kind, TargetKind::BuildScript)
}
