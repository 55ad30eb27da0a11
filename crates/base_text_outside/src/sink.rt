//! Where bytes go.

ghost use Rattle.std.specs.Prelude.{◌≡◌, ℕ, List, [], length, Option, Some, IfOk, IfErr, OnOk, OnErr, IsTrue, IsErrOf, is_ok, ◌++◌, ◌↔◌, if◌then◌else◌};
ghost use Rattle.std.specs.Io.{WritesAtMost};
ghost use Rattle.std.specs.Io.KnownBytes.{Appends, WriteAppends};
ghost use Rattle.base_text_outside.specs.Causes.{WriteHasCause, WritesHaveCause};
ghost use Rattle.base_text_outside.specs.Faults.{FaultyStream, after_fault, after_service, fails_next};
ghost use Rattle.base_text_outside.specs.Sink.{AppendsPart};

use crate::faults::Faults;
use std::alloc::{AllocError, Global};
use std::error::Error;
use std::fmt;
use std::fmt::{Display, Formatter, Write};
use std::marker::Model;

/// Why a sink did not take a piece.
#[derive(Clone, Copy, Debug, PartialEq, Eq)]
pub enum SinkError {
    Failed,
    OutOfMemory,
}

impl Display for SinkError {
    ghost use Rattle.std.specs.Prelude.{Some};
    ghost use Rattle.base_text_outside.specs.Sink.{sink_error_text};

    ghost output = { λ e. Some (sink_error_text e) };

    fn fmt<W: Write>(&self, f: &mut Formatter<W>) -> fmt::Result {
        match self {
            SinkError::Failed => write!(f, "Failed"),
            SinkError::OutOfMemory => write!(f, "OutOfMemory"),
        }
    }
}

impl Error for SinkError {}

impl From<AllocError> for SinkError {
    ghost use Rattle.std.specs.Prelude.{◌≡◌};
    ghost use Rattle.base_text_outside.specs.declared.sink.SinkError.TheVariants.{OutOfMemory};

    ghost from_gives = { λ _ e. e ≡ OutOfMemory };

    fn from(_error: AllocError) -> Self {
        SinkError::OutOfMemory
    }
}

/// A stream of bytes to write, which counts its faults.
pub trait ByteSink {
    // What was written, where it is known.
    ghost held: { Self → Option (List ℕ) };

    // How often a write failed or took nothing. The count stops at the greatest u64.
    ghost faults: { Self → ℕ };

    /// Takes the front of a piece, and answers how much of it.
    fn write(&mut self, piece: &[u8]) -> Result<usize, SinkError>
        ensures bound { WritesAtMost result piece.now }
        ensures bytes { WriteAppends (held self.old) (held self.new) result piece.now }
        ensures cause { WriteHasCause (faults self.old) (faults self.new) result piece.now };

    fn faults(&self) -> u64
        ensures { result ≡ faults self.now };
}

/// Writes a whole piece. A sink that takes nothing of the rest has failed.
pub fn write_all<K: ByteSink>(sink: &mut K, piece: &[u8]) -> Result<(), SinkError>
    ensures ok { OnOk result (Appends (K.held sink.old) (K.held sink.new) piece.now) }
    ensures err { OnErr result (AppendsPart (K.held sink.old) (K.held sink.new) piece.now) }
    ensures cause { WritesHaveCause (K.faults sink.old) (K.faults sink.new) result }
{
    let mut taken = 0;
    while taken < piece.len() {
        match sink.write(&piece[taken..]) {
            Ok(0) => return Err(SinkError::Failed),
            Ok(count) => taken += count,
            Err(error) => return Err(error),
        }
    }
    Ok(())
}

/// A sink of bytes in memory, seen as what was written. It takes whole pieces, and refuses one only
/// when memory runs out: it never answers `Failed`.
#[derive(Debug, Drop)]
pub struct MemorySink {
    written: Vec<u8>,
}

impl Model for MemorySink {
    ghost use Rattle.std.specs.Prelude.{ℕ, List};

    ghost Value = { List ℕ };

    ghost view = { λ s. s.written.items };
}

impl MemorySink {
    /// A sink to which nothing was written, which holds no memory.
    pub fn new(alloc: Global) -> Self
        ensures { result ≡ [] }
    {
        MemorySink {
            written: Vec::new(alloc),
        }
    }

    pub fn bytes(&self) -> &[u8]
        ensures { result.now ≡ self.now }
    {
        self.written.as_slice()
    }
}

impl ByteSink for MemorySink {
    ghost held = { λ s. Some s };

    ghost faults = { λ _. 0 };

    fn write(&mut self, piece: &[u8]) -> Result<usize, SinkError>
        ensures bound { WritesAtMost result piece.now }
        ensures bytes { WriteAppends (Some self.old) (Some self.new) result piece.now }
        ensures cause { WriteHasCause 0 0 result piece.now }
        ensures whole { IfOk result (λ count. count ≡ length piece.now) }
        ensures memory_only { IfErr result (λ error. error ≡ SinkError.OutOfMemory) }
    {
        self.written.extend_from_slice(piece)?;
        Ok(piece.len())
    }

    fn faults(&self) -> u64
        ensures { result ≡ 0 }
    {
        0
    }
}

/// A sink of bytes in memory of which the writes of the listed numbers, from 0, fail.
/// Past the greatest u64 each write has that number.
#[derive(Debug, Drop)]
pub struct FaultSink {
    sink: MemorySink,
    faults: Faults,
}

impl Model for FaultSink {
    ghost use Rattle.base_text_outside.specs.Faults.{FaultyStream};

    ghost Value = { FaultyStream };

    ghost view = { λ s. record {
      bytes = s.sink;
      failing = s.faults.failing;
      calls = s.faults.calls;
      faults = s.faults.faults;
    } };
}

impl FaultSink {
    pub fn new(alloc: Global, failing: Vec<u64>) -> Self
        ensures { result ≡ record {
          bytes = [];
          failing = failing.items;
          calls = 0;
          faults = 0;
        } }
    {
        FaultSink {
            sink: MemorySink::new(alloc),
            faults: Faults::new(failing),
        }
    }

    pub fn bytes(&self) -> &[u8]
        ensures { result.now ≡ self.now.bytes }
    {
        self.sink.bytes()
    }
}

impl ByteSink for FaultSink {
    ghost held = { λ s. Some s.bytes };

    ghost faults = { λ s. s.faults };

    fn write(&mut self, piece: &[u8]) -> Result<usize, SinkError>
        ensures bound { WritesAtMost result piece.now }
        ensures bytes { WriteAppends (Some self.old.bytes) (Some self.new.bytes) result piece.now }
        ensures cause { WriteHasCause self.old.faults self.new.faults result piece.now }
        ensures failed { IsErrOf result SinkError.Failed ↔ IsTrue (fails_next self.old) }
        ensures whole { IfOk result (λ count. count ≡ length piece.now) }
        ensures next { self.new ≡ (if fails_next self.old then after_fault self.old
            else after_service self.old (if is_ok result then self.old.bytes ++ piece.now else self.old.bytes)) }
    {
        if self.faults.next_fails() {
            return Err(SinkError::Failed);
        }
        self.sink.write(piece)
    }

    fn faults(&self) -> u64
        ensures { result ≡ self.now.faults }
    {
        self.faults.count()
    }
}
