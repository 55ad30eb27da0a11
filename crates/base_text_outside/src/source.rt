//! Where bytes come from.

ghost use Rattle.std.specs.Prelude.{◌≡◌, ⊤, ℕ, List, Option, Some, Ok, Err, if◌then◌else◌};
ghost use Rattle.std.specs.Io.{ReadsAtMost};
ghost use Rattle.std.specs.Io.KnownBytes.{ReadConsumes};
ghost use Rattle.base_text_outside.specs.Causes.{HasCause};
ghost use Rattle.base_text_outside.specs.Faults.{FaultyStream, GivesOnce, after_fault, after_service, fails_next};
ghost use Rattle.base_text_outside.specs.Source.{GivesFront, buffer_after, bytes_read, left_after, read_count};

use crate::faults::Faults;
use std::marker::Model;

/// A source or a sink did not serve.
#[derive(Clone, Copy, Debug, PartialEq, Eq)]
pub struct Failed;

/// A stream of bytes to read, which counts its faults.
pub trait ByteSource {
    // What is left to read, where it is known.
    ghost left: { Self → Option (List ℕ) };

    // How often a read failed. The count stops at the greatest u64.
    ghost faults: { Self → ℕ };

    // What a call of `read` does: the source before it, the bytes that it gave or none where it failed,
    // and the source after it.
    ghost read_gives: { Self → Option (List ℕ) → Self → Type 0 } = { λ _ _ _. ⊤ };

    /// Reads the front of what is left. No byte in a buffer that has room is the end.
    fn read(&mut self, buf: &mut [u8]) -> Result<usize, Failed>
        ensures bound { ReadsAtMost result buf.new }
        ensures bytes { ReadConsumes (left self.old) (left self.new) result buf.new }
        ensures cause { HasCause (faults self.old) (faults self.new) result }
        ensures gives { read_gives self.old (bytes_read result buf.new) self.new };

    fn faults(&self) -> u64
        ensures { result ≡ faults self.now };
}

/// A source of bytes in memory, seen as what is left. It never fails.
#[derive(Debug, Drop)]
pub struct MemorySource {
    bytes: Vec<u8>,
    taken: usize,
}

impl Model for MemorySource {
    ghost use Rattle.std.specs.Prelude.{ℕ, ◌≤◌, List, length, drop};

    ghost Value = { List ℕ };

    ghost view = { λ s. drop s.taken s.bytes.items };

    ghost invariant = { λ s. s.taken ≤ length s.bytes.items };
}

impl MemorySource {
    pub fn new(bytes: Vec<u8>) -> Self
        ensures { result ≡ bytes.items }
    {
        MemorySource { bytes, taken: 0 }
    }
}

impl ByteSource for MemorySource {
    ghost left = { λ s. Some s };

    ghost faults = { λ _. 0 };

    ghost read_gives = { GivesFront };

    fn read(&mut self, buf: &mut [u8]) -> Result<usize, Failed>
        ensures bound { ReadsAtMost result buf.new }
        ensures bytes { ReadConsumes (Some self.old) (Some self.new) result buf.new }
        ensures cause { HasCause 0 0 result }
        ensures gives { GivesFront self.old (bytes_read result buf.new) self.new }
        ensures count { result ≡ Ok (read_count self.old buf.old) }
        ensures rest { self.new ≡ left_after self.old buf.old }
        ensures buffer { buf.new ≡ buffer_after self.old buf.old }
    {
        let count = fill(&self.bytes[self.taken..], buf);
        self.taken += count;
        Ok(count)
    }

    fn faults(&self) -> u64
        ensures { result ≡ 0 }
    {
        0
    }
}

/// A source of bytes in memory of which the reads of the listed numbers, from 0, fail.
/// Past the greatest u64 each read has that number.
#[derive(Debug, Drop)]
pub struct FaultSource {
    source: MemorySource,
    faults: Faults,
}

impl Model for FaultSource {
    ghost use Rattle.base_text_outside.specs.Faults.{FaultyStream};

    ghost Value = { FaultyStream };

    ghost view = { λ s. record {
      bytes = s.source;
      failing = s.faults.failing;
      calls = s.faults.calls;
      faults = s.faults.faults;
    } };
}

impl FaultSource {
    pub fn new(bytes: Vec<u8>, failing: Vec<u64>) -> Self
        ensures { result ≡ record {
          bytes = bytes.items;
          failing = failing.items;
          calls = 0;
          faults = 0;
        } }
    {
        FaultSource {
            source: MemorySource::new(bytes),
            faults: Faults::new(failing),
        }
    }
}

impl ByteSource for FaultSource {
    ghost left = { λ s. Some s.bytes };

    ghost faults = { λ s. s.faults };

    ghost read_gives = { GivesOnce };

    fn read(&mut self, buf: &mut [u8]) -> Result<usize, Failed>
        ensures bound { ReadsAtMost result buf.new }
        ensures bytes { ReadConsumes (Some self.old.bytes) (Some self.new.bytes) result buf.new }
        ensures cause { HasCause self.old.faults self.new.faults result }
        ensures gives { GivesOnce self.old (bytes_read result buf.new) self.new }
        ensures answer { result ≡ (if fails_next self.old then Err (record {})
            else Ok (read_count self.old.bytes buf.old)) }
        ensures next { self.new ≡ (if fails_next self.old then after_fault self.old
            else after_service self.old (left_after self.old.bytes buf.old)) }
        ensures buffer { buf.new ≡ (if fails_next self.old then buf.old
            else buffer_after self.old.bytes buf.old) }
    {
        if self.faults.next_fails() {
            return Err(Failed);
        }
        self.source.read(buf)
    }

    fn faults(&self) -> u64
        ensures { result ≡ self.now.faults }
    {
        self.faults.count()
    }
}

// Copies the front of `left` to the front of the buffer, as much as it holds.
fn fill(left: &[u8], buf: &mut [u8]) -> usize
    ensures count { result ≡ read_count left.now buf.old }
    ensures buffer { buf.new ≡ buffer_after left.now buf.old }
{
    let count = left.len().min(buf.len());
    buf[..count].copy_from_slice(&left[..count]);
    count
}
