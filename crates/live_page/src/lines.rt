//! A reader of lines, which knows nothing of what they say.

ghost use Rattle.std.specs.Prelude.{◌≡◌, ◌+◌, ◌^◌, ◌<◌, ◌≤◌, false, ℕ, List, Option, Some, IsTrue};

use crate::piece::{move_line, read_within};
use base_text::{ByteSource, Piece};
use std::alloc::{AllocError, Global};
use std::marker::Model;
use std::mem;
use thiserror::Error;

/// Why a line was not given.
#[derive(Clone, Copy, Debug, PartialEq, Eq, Error)]
pub enum LineError {
    /// The source failed.
    #[error("ReadFault")]
    ReadFault,
    /// There are more bytes than the limit, and no further line ends within it.
    #[error("TooMany")]
    TooMany,
    /// There was no memory.
    #[error("OutOfMemory")]
    OutOfMemory,
    /// An earlier call was refused.
    #[error("Ended")]
    Ended,
}

impl From<AllocError> for LineError {
    ghost use Rattle.std.specs.Prelude.{◌≡◌};
    ghost use Rattle.live_page.specs.declared.lines.LineError.TheVariants.{OutOfMemory};

    ghost from_gives = { λ _ e. e ≡ OutOfMemory };

    fn from(_error: AllocError) -> Self {
        LineError::OutOfMemory
    }
}

impl From<base_text::LineError> for LineError {
    ghost use Rattle.std.specs.Prelude.{◌≡◌};
    ghost use Rattle.live_page.specs.Pieces.{of_piece_error};

    ghost from_gives = { λ error e. e ≡ of_piece_error error };

    fn from(error: base_text::LineError) -> Self {
        match error {
            base_text::LineError::ReadFault => LineError::ReadFault,
            base_text::LineError::OutOfMemory => LineError::OutOfMemory,
        }
    }
}

/// Gives the lines of a source one by one, each as soon as it is whole, and a last one that no newline ends
/// where it is not empty. Of the source it takes at most one byte more than its limit.
#[derive(Drop)]
pub struct Lines {
    line: Vec<u8>,
    piece: Piece,
    room: u64,
    is_past: bool,
    is_done: bool,
    has_ended: bool,
}

impl Model for Lines {
    ghost use Rattle.std.specs.Prelude.{◌≡◌, ◌++◌, ◌+◌, ◌^◌, ◌<◌, false};
    ghost use Rattle.base_text.specs.Lines.{has_newline};
    ghost use Rattle.live_page.specs.Reader.{ScriptReader};

    ghost Value = { ScriptReader };

    ghost view = { λ l. record {
      waiting = l.line.items ++ l.piece;
      room = l.room;
      is_past = l.is_past;
      is_done = l.is_done;
      has_ended = l.has_ended;
    } };

    ghost invariant = { λ l. (has_newline l.line.items ≡ false) × (l.room + 1 < 2 ^ 64) };
}

impl Lines {
    ghost use Rattle.live_page.specs.Pieces.{is_script_fault};
    ghost use Rattle.live_page.specs.Reader.{AnswersScriptLine, GaveScriptLines, IsPastLimit, TellsScriptLine, TooManyExactly, fresh, script_lines_after};
    ghost use Rattle.base_text.specs.Calls.{ReadsAtOnce};
    ghost use Rattle.base_text.specs.Lines.{has_newline};
    ghost use Rattle.live_page.specs.declared.lines.LineError.TheVariants.{Ended};

    /// A reader that takes nothing yet.
    pub fn new(alloc: Global, limit: u64) -> Self
        requires { limit + 1 < 2 ^ 64 }
        ensures { result ≡ fresh limit }
    {
        Lines {
            line: Vec::new(alloc),
            piece: Piece::new(alloc),
            room: limit,
            is_past: false,
            is_done: false,
            has_ended: false,
        }
    }

    /// Whether a call was refused.
    pub fn ended(&self) -> bool
        ensures { result ≡ self.now.has_ended }
    {
        self.has_ended
    }

    /// The next line, or none at the end of the input. Nothing is read while a newline waits, nor after
    /// a refusal.
    pub fn next<S: ByteSource>(&mut self, input: &mut S) -> Result<Option<Vec<u8>>, LineError>
        ensures gave { (limit : ℕ) (first : Option (List ℕ)) (given : List (List ℕ))
            → GaveScriptLines limit first (S.left input.old) given self.old
            → GaveScriptLines limit first (S.left input.new) (script_lines_after given result) self.new }
        ensures too_many { (limit : ℕ) (given : List (List ℕ)) (all : List ℕ)
            → GaveScriptLines limit (Some all) (S.left input.old) given self.old
            → TooManyExactly result (IsPastLimit limit given all) }
        ensures answers { AnswersScriptLine result self.old self.new
            (S.faults input.old) (S.faults input.new) }
        ensures at_once { IsTrue (has_newline self.old.waiting) → input.new ≡ input.old }
        ensures reads { ReadsAtOnce S.read_gives (is_script_fault result) self.old.waiting
            input.old input.new }
        ensures ended { IsTrue self.old.has_ended
            → (result ≡ Err Ended) × (self.new ≡ self.old) × (input.new ≡ input.old) }
    {
        if self.has_ended {
            return Err(LineError::Ended);
        }
        match self.read_line(input) {
            Ok(line) => Ok(line),
            Err(error) => {
                self.has_ended = true;
                Err(error)
            }
        }
    }

    // The next line of a reader of which no call was refused.
    fn read_line<S: ByteSource>(&mut self, input: &mut S) -> Result<Option<Vec<u8>>, LineError>
        requires { self.old.has_ended ≡ false }
        ensures gave { (limit : ℕ) (first : Option (List ℕ)) (given : List (List ℕ))
            → GaveScriptLines limit first (S.left input.old) given self.old
            → GaveScriptLines limit first (S.left input.new) (script_lines_after given result) self.new }
        ensures told { TellsScriptLine result self.old self.new (S.faults input.old) (S.faults input.new) }
        ensures not_ended { self.new.has_ended ≡ false }
        ensures reads { ReadsAtOnce S.read_gives (is_script_fault result) self.old.waiting
            input.old input.new }
        ensures faults { S.faults input.old ≤ S.faults input.new }
    {
        if self.is_done {
            return Ok(None);
        }
        let alloc = *self.line.allocator();
        while !move_line(&mut self.piece, &mut self.line)? {
            if self.is_past {
                return Err(LineError::TooMany);
            }
            let count = read_within(&mut self.piece, alloc, input, self.room)?;
            if count == 0 {
                self.is_done = true;
                let last = mem::replace(&mut self.line, Vec::new(alloc));
                return Ok(if last.is_empty() { None } else { Some(last) });
            }
            self.is_past = count > self.room;
            self.room = self.room.saturating_sub(count);
        }
        let line = mem::replace(&mut self.line, Vec::new(alloc));
        Ok(Some(line))
    }
}
