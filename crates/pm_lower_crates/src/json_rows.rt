//! The rows of a project: the crates of its document that become crates of the graph.

ghost use Rattle.std.specs.Prelude.{◌≡◌};
ghost use Rattle.std.specs.Option.{option_copied};
ghost use Rattle.pm_lower_crates.specs.JsonRows.{json_row_at};

use base_text_paths::FileId;
use pm_json::{Crate, CrateArrayIdx};
use std::marker::Model;

/// A crate of a document that is a crate of the graph.
#[derive(Drop)]
pub(crate) struct Row<'a> {
    number: u32,
    of: &'a Crate,
    of_number: usize,
    file: FileId,
}

impl<'a> Model for Row<'a> {
    ghost use Rattle.pm_lower_crates.specs.JsonRows as seen;

    ghost Value = { seen.JsonRow };

    ghost view = { λ a. record {
      number = a.number;
      of = a.of.now;
      of_number = a.of_number;
      file = a.file;
    } };
}

impl<'a> Row<'a> {
    pub(crate) fn new(number: u32, of: &'a Crate, of_number: usize, file: FileId) -> Self
        ensures { result ≡ record {
          number = number;
          of = of.now;
          of_number = of_number;
          file = file;
        } }
    {
        Row {
            number,
            of,
            of_number,
            file,
        }
    }

    pub(crate) fn number(&self) -> u32
        ensures { result ≡ self.now.number }
    {
        self.number
    }

    pub(crate) fn of(&self) -> &'a Crate
        ensures { result.now ≡ self.now.of }
    {
        self.of
    }

    /// The file that the row's crate begins in.
    pub(crate) fn file(&self) -> FileId
        ensures { result ≡ self.now.file }
    {
        self.file
    }
}

/// The row of the crate at a place of the document.
pub(crate) fn row_at<'b, 'a>(
    rows: &'b [Option<Row<'a>>],
    place: CrateArrayIdx,
) -> Option<&'b Row<'a>>
    ensures { option_copied result ≡ json_row_at rows.now place.0 }
{
    rows.get(place.0)?.as_ref()
}
