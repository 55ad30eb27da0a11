//! The bytes of one read, which are passed over from the front.

ghost use Rattle.std.specs.Prelude.{◌≡◌, ◌≤◌, ◌<◌, [], drop, length, take, IfErr, IfOk, OnErr, OnOk};
ghost use Rattle.std.specs.Io.KnownBytes.{Consumes, IsAtEnd};
ghost use Rattle.base_text_outside.specs.Causes.{HasCause};
ghost use Rattle.base_text_outside.specs.Source.{bytes_read};
ghost use Rattle.base_text.specs.Pieces.{HasCauseOf, Moves, Reads, ReadsOnce};

use crate::lines::LineError;
use crate::newline::newline_at;
use crate::part::LinePart;
use base_text_paths::{ByteSource, Failed};
use std::alloc::{AllocError, Global};
use std::marker::Model;

/// How many bytes one read asks for at most.
const PIECE: usize = 65536;

/// What a read gave and was not passed over yet, seen as these bytes.
#[derive(Drop)]
pub struct Piece {
    bytes: Vec<u8>,
    start: usize,
    end: usize,
}

impl Model for Piece {
    ghost use Rattle.std.specs.Prelude.{ℕ, ◌≤◌, List, length, slice_range};

    ghost Value = { List ℕ };

    ghost view = { λ p. slice_range p.bytes.items p.start p.end };

    ghost invariant = { λ p. (p.start ≤ p.end) × ((p.end ≤ length p.bytes.items)
        × (length p.bytes.items ≤ 65536)) };
}

impl Piece {
    /// A piece of nothing, which holds no memory.
    pub fn new(alloc: Global) -> Self
        ensures { result ≡ [] }
    {
        Piece {
            bytes: Vec::new(alloc),
            start: 0,
            end: 0,
        }
    }

    /// The bytes that were not passed over.
    pub fn rest(&self) -> &[u8]
        ensures { result.now ≡ self.now }
    {
        &self.bytes[self.start..self.end]
    }

    /// Passes over the first of the bytes.
    pub fn pass(&mut self, count: usize)
        requires { count ≤ length self.old }
        ensures { self.new ≡ drop count self.old }
    {
        self.start += count;
    }

    /// Keeps no more than the first of the bytes, up to so many.
    pub fn truncate(&mut self, most: u64)
        ensures { self.new ≡ take most self.old }
    {
        let count = (self.end - self.start) as u64;
        self.end = self.start + count.min(most) as usize;
    }

    /// Moves the bytes up to the first newline to a line, and answers whether there is one. The newline
    /// is passed over.
    pub(crate) fn move_line(&mut self, line: &mut LinePart) -> Result<bool, AllocError>
        ensures ok { IfOk result (λ found. Moves found self.old self.new line.old line.new) }
        ensures err { OnErr result ((self.new ≡ self.old) × (line.new ≡ line.old)) }
    {
        let rest = self.rest();
        match newline_at(rest) {
            Some(at) => {
                line.extend(&rest[..at])?;
                self.pass(at + 1);
                Ok(true)
            }
            None => {
                let count = rest.len();
                line.extend(rest)?;
                self.pass(count);
                Ok(false)
            }
        }
    }

    /// Reads the next piece in place of this one, of at most so many bytes and 65,536, and answers how many were
    /// read. None is the end of the input. After an error the piece is empty and nothing was taken.
    pub fn read<S: ByteSource>(
        &mut self,
        alloc: Global,
        input: &mut S,
        most: u64,
    ) -> Result<u64, LineError>
        requires some { 0 < most }
        ensures ok { IfOk result (λ count.
            Reads most count (S.left input.old) (S.left input.new) self.new) }
        ensures kept { OnErr result ((self.new ≡ [])
            × Consumes (S.left input.old) (S.left input.new) []) }
        ensures once { ReadsOnce S.read_gives result self.new input.old input.new }
        ensures cause { IfErr result (λ e.
            HasCauseOf e (S.faults input.old) (S.faults input.new)) }
        ensures faults { S.faults input.old ≤ S.faults input.new }
    {
        self.start = 0;
        self.end = 0;
        make_buffer(alloc, &mut self.bytes)?;
        self.end = read_some(input, &mut self.bytes, most)?;
        Ok(self.end as u64)
    }
}

// Makes the buffer of a piece, where there is none yet.
fn make_buffer(alloc: Global, bytes: &mut Vec<u8>) -> Result<(), AllocError>
    requires { length bytes.old.items ≤ 65536 }
    ensures some { OnOk result (0 < length bytes.new.items) }
    ensures few { length bytes.new.items ≤ 65536 }
{
    if bytes.is_empty() {
        *bytes = vec![in alloc; 0u8; PIECE]?;
    }
    Ok(())
}

// Reads at most so many bytes into a buffer that is there.
fn read_some<S: ByteSource>(input: &mut S, buffer: &mut [u8], most: u64) -> Result<usize, Failed>
    requires some { 0 < length buffer.old }
    requires most { 0 < most }
    ensures read { IfOk result (λ count.
        Consumes (S.left input.old) (S.left input.new) (take count buffer.new)) }
    ensures bound { IfOk result (λ count. (count ≤ most) × (count ≤ length buffer.new)) }
    ensures end { IfOk result (λ count. count ≡ 0 → IsAtEnd (S.left input.new)) }
    ensures kept { OnErr result (Consumes (S.left input.old) (S.left input.new) []) }
    ensures gives { S.read_gives input.old (bytes_read result buffer.new) input.new }
    ensures cause { HasCause (S.faults input.old) (S.faults input.new) result }
{
    let count = most.min(buffer.len() as u64) as usize;
    input.read(&mut buffer[..count])
}
