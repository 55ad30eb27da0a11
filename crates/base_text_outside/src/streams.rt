//! Readers and writers of std as sources and sinks. A source shows what its reader has left, where std
//! knows it; what a stream of the system gives is not known. A sink shows no bytes, since a flush may
//! fail after a write.
#![tactic(auto)]

ghost use Rattle.std.specs.Prelude.{◌≡◌, None};
ghost use Rattle.std.specs.Io.{WritesAtMost};
ghost use Rattle.std.specs.Io.KnownBytes.{WriteAppends};
ghost use Rattle.base_text_outside.specs.Causes.{WriteHasCause};
ghost use Rattle.base_text_outside.specs.Adapters.{WritesFront};

use crate::sink::{ByteSink, SinkError};
use crate::source::{ByteSource, Failed};
use std::io::{Read, Write};
use std::marker::Model;

/// A reader as a source. Each error that it gives is a fault.
#[derive(Drop)]
pub struct ReaderSource<R> {
    reader: R,
    faults: u64,
}

impl<R> ReaderSource<R> {
    pub fn new(reader: R) -> Self
        ensures { result.faults ≡ 0 }
    {
        ReaderSource { reader, faults: 0 }
    }
}

impl<R: Read> ByteSource for ReaderSource<R> {
    ghost left = { λ s. R.remaining s.reader };

    ghost faults = { λ s. s.faults };

    fn read(&mut self, buf: &mut [u8]) -> Result<usize, Failed> {
        match self.reader.read(buf) {
            Ok(count) => Ok(count),
            Err(_) => {
                self.faults = self.faults.saturating_add(1);
                Err(Failed)
            }
        }
    }

    fn faults(&self) -> u64 {
        self.faults
    }
}

/// A writer as a sink. Each write is flushed; each error, and each write that takes nothing of a piece
/// that is not empty, is a fault.
#[derive(Drop)]
pub struct WriterSink<W> {
    writer: W,
    faults: u64,
}

impl<W> Model for WriterSink<W> {
    ghost use Rattle.base_text_outside.specs.Adapters.{Adapter};

    ghost Value = { Adapter W };

    ghost view = { λ s. record { stream = s.writer; faults = s.faults } };
}

impl<W> WriterSink<W> {
    pub fn new(writer: W) -> Self
        ensures { result.faults ≡ 0 }
    {
        WriterSink { writer, faults: 0 }
    }
}

impl<W: Write> ByteSink for WriterSink<W> {
    ghost held = { λ _. None };

    ghost faults = { λ s. s.faults };

    fn write(&mut self, piece: &[u8]) -> Result<usize, SinkError>
        ensures bound { WritesAtMost result piece.now }
        ensures bytes { WriteAppends None None result piece.now }
        ensures cause { WriteHasCause self.old.faults self.new.faults result piece.now }
        ensures front { WritesFront (W.contents self.old.stream) (W.contents self.new.stream)
            result piece.now }
    {
        let result = write_through(&mut self.writer, piece);
        if !matches!(result, Ok(count) if count > 0 || piece.is_empty()) {
            self.faults = self.faults.saturating_add(1);
        }
        result
    }

    fn faults(&self) -> u64
        ensures { result ≡ self.now.faults }
    {
        self.faults
    }
}

// One write, and a flush after it. Where the flush fails the write counts as failed, though its bytes may
// have gone through.
fn write_through<W: Write>(writer: &mut W, piece: &[u8]) -> Result<usize, SinkError>
    ensures bound { WritesAtMost result piece.now }
    ensures front { WritesFront (W.contents writer.old) (W.contents writer.new) result piece.now }
{
    match writer.write(piece) {
        Ok(count) => match writer.flush() {
            Ok(()) => Ok(count),
            Err(_) => Err(SinkError::Failed),
        },
        Err(_) => Err(SinkError::Failed),
    }
}
