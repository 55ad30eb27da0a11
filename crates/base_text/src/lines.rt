//! A reader of lines, which knows nothing of what they say.

ghost use Rattle.std.specs.Prelude.{◌≡◌, ◌≤◌, ℕ, List, Option, IsTrue, Ok, None};

use crate::part::LinePart;
use crate::piece::Piece;
use base_text_paths::{ByteSource, Failed, Items, TryClone};
use std::alloc::{AllocError, Global};
use std::error::Error;
use std::fmt;
use std::marker::Model;

/// A line of the source.
#[derive(Debug, PartialEq, Eq, Drop)]
pub enum Line {
    /// The bytes of the line, without its newline.
    Whole(Items<u8>),
    /// A line of more bytes than the bound. It was passed over.
    TooLong,
}

impl TryClone for Line {
    fn try_clone(&self, alloc: Global) -> Result<Self, AllocError> {
        match self {
            Line::Whole(bytes) => {
                let mut copy = Vec::new(alloc);
                copy.extend_from_slice(bytes.as_slice())?;
                Ok(Line::Whole(Items::new(copy)))
            }
            Line::TooLong => Ok(Line::TooLong),
        }
    }
}

/// Why no line was given.
#[derive(Clone, Copy, Debug, PartialEq, Eq)]
pub enum LineError {
    /// The source failed.
    ReadFault,
    /// There was no memory.
    OutOfMemory,
}

/// The variant's name.
impl fmt::Display for LineError {
    ghost use Rattle.std.specs.Prelude.{Some};
    ghost use Rattle.base_text.specs.Reader.{line_error_text};

    ghost output = { λ error. Some (line_error_text error) };

    fn fmt<W: fmt::Write>(&self, f: &mut fmt::Formatter<W>) -> fmt::Result {
        f.write_str(match self {
            LineError::ReadFault => "ReadFault",
            LineError::OutOfMemory => "OutOfMemory",
        })
    }
}

impl Error for LineError {}

impl From<AllocError> for LineError {
    ghost use Rattle.std.specs.Prelude.{◌≡◌};
    ghost use Rattle.base_text.specs.declared.lines.LineError.TheVariants.{OutOfMemory};

    ghost from_gives = { λ _ e. e ≡ OutOfMemory };

    fn from(_error: AllocError) -> Self {
        LineError::OutOfMemory
    }
}

impl From<Failed> for LineError {
    ghost use Rattle.std.specs.Prelude.{◌≡◌};
    ghost use Rattle.base_text.specs.declared.lines.LineError.TheVariants.{ReadFault};

    ghost from_gives = { λ _ e. e ≡ ReadFault };

    fn from(_error: Failed) -> Self {
        LineError::ReadFault
    }
}

/// Gives the lines of a source one by one, each as soon as it is whole, and a last one that no newline
/// ends where it is not empty. In its life it takes at most 2^64 - 1 bytes of the source.
#[derive(Drop)]
pub struct BoundedLines {
    part: LinePart,
    piece: Piece,
    room: u64,
    is_done: bool,
}

impl Model for BoundedLines {
    ghost use Rattle.base_text.specs.Reader.{Reader};

    ghost Value = { Reader };

    ghost view = { λ l. record {
      part = l.part;
      piece = l.piece;
      room = l.room;
      is_done = l.is_done;
    } };
}

impl BoundedLines {
    ghost use Rattle.base_text.specs.Calls.{ReadsAtOnce, is_read_fault};
    ghost use Rattle.base_text.specs.Reader.{GaveLines, HoldsFew, TellsBoundedLine, lines_after, new_reader};

    /// A reader that takes nothing yet, of lines of at most so many bytes.
    pub fn new(alloc: Global, max_line: usize) -> Self
        ensures { result ≡ new_reader max_line }
    {
        BoundedLines {
            part: LinePart::new(alloc, max_line),
            piece: Piece::new(alloc),
            room: u64::MAX,
            is_done: false,
        }
    }

    /// The next line, or none at the end of the input or of the reader's life. Nothing is read while a
    /// newline waits, nor after a read that failed. After an error the reader stands where it stood
    /// before the read that failed, and may be asked again.
    pub fn next<S: ByteSource>(
        &mut self,
        alloc: Global,
        input: &mut S,
    ) -> Result<Option<Line>, LineError>
        ensures gave { (first : Option (List ℕ)) (given : List (Option (List ℕ)))
            → GaveLines first (S.left input.old) given self.old
            → GaveLines first (S.left input.new) (lines_after given result) self.new }
        ensures reads { ReadsAtOnce S.read_gives (is_read_fault result) self.old.piece
            input.old input.new }
        ensures told { TellsBoundedLine result self.old self.new (S.faults input.old) (S.faults input.new) }
        ensures faults { S.faults input.old ≤ S.faults input.new }
        ensures few { HoldsFew self.old → HoldsFew self.new }
        ensures done { IsTrue self.old.is_done
            → (result ≡ Ok None) × (self.new ≡ self.old) × (input.new ≡ input.old) }
    {
        if self.is_done {
            return Ok(None);
        }
        while !self.piece.move_line(&mut self.part)? {
            if self.room == 0 {
                return Ok(None);
            }
            let count = self.piece.read(alloc, input, self.room)?;
            if count == 0 {
                self.is_done = true;
                return Ok(self.part.finish_last(alloc));
            }
            self.room -= count;
        }
        Ok(Some(self.part.finish(alloc)))
    }
}
