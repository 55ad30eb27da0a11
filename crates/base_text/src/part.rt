//! The part of a line that was read so far, as long as it is within the bound.

ghost use Rattle.std.specs.Prelude.{◌≡◌, ◌≤◌, ◌++◌, ℕ, List, OnErr, OnOk, length, option_map};
ghost use Rattle.base_text.specs.Part.{IsHeld, line_bytes, item_of, last_item_of, no_part};

use crate::lines::Line;
use base_text_paths::Items;
use std::alloc::{AllocError, Global};
use std::marker::Model;
use std::mem;

/// What was read of a line: its bytes, or that they are too many.
#[derive(Drop)]
pub(crate) struct LinePart {
    bytes: Vec<u8>,
    max_line: usize,
    is_long: bool,
}

impl Model for LinePart {
    ghost use Rattle.std.specs.Prelude.{◌≤◌, length};
    ghost use Rattle.base_text.specs.Part.{Part};

    ghost Value = { Part };

    ghost view = { λ p. record {
      bytes = p.bytes.items;
      max_line = p.max_line;
      is_long = p.is_long;
    } };

    ghost invariant = { λ p. length p.bytes.items ≤ p.max_line };
}

impl LinePart {
    /// Nothing of a line, which holds no memory.
    pub(crate) fn new(alloc: Global, max_line: usize) -> Self
        ensures { result ≡ no_part max_line }
    {
        LinePart {
            bytes: Vec::new(alloc),
            max_line,
            is_long: false,
        }
    }

    /// Adds bytes to the line, and keeps none of it where they are too many.
    pub(crate) fn extend(&mut self, more: &[u8]) -> Result<(), AllocError>
        ensures ok { OnOk result ((part : List ℕ) → IsHeld part self.old
            → IsHeld (part ++ more.now) self.new) }
        ensures err { OnErr result (self.new ≡ self.old) }
        ensures bound { (self.new.max_line ≡ self.old.max_line)
            × (length self.new.bytes ≤ self.new.max_line) }
    {
        if self.is_long || more.len() > self.max_line - self.bytes.len() {
            self.bytes.clear();
            self.is_long = true;
            return Ok(());
        }
        self.bytes.extend_from_slice(more)
    }

    /// The line, which is whole. What is held then is nothing of the next.
    pub(crate) fn finish(&mut self, alloc: Global) -> Line
        ensures line { (part : List ℕ) → IsHeld part self.old
            → line_bytes result ≡ item_of self.old.max_line part }
        ensures next { self.new ≡ no_part self.old.max_line }
    {
        let bytes = mem::replace(&mut self.bytes, Vec::new(alloc));
        if self.is_long {
            self.is_long = false;
            return Line::TooLong;
        }
        Line::Whole(Items::new(bytes))
    }

    /// The last line, which no newline ends, unless there is nothing of it.
    pub(crate) fn finish_last(&mut self, alloc: Global) -> Option<Line>
        ensures line { (part : List ℕ) → IsHeld part self.old
            → option_map line_bytes result ≡ last_item_of self.old.max_line part }
        ensures next { self.new ≡ no_part self.old.max_line }
    {
        if !self.is_long && self.bytes.is_empty() {
            return None;
        }
        Some(self.finish(alloc))
    }
}
