//! Sources of bytes: in memory, with reads that fail, and readers of std. Each is read at the bound of its trait.

ghost use Rattle.std.specs.Prelude.{◌≡◌, Some};
ghost use Rattle.std.specs.Io.KnownBytes.{ReadConsumes};

use crate::traits::broken::Broken;
use crate::traits::numbers;
use base_text::{ByteSource, Failed, FaultSource, MemorySource};
use base_text_outside::ReaderSource;
use cases::{Case, Fault, List};
use serde_json::Value;
use std::alloc::Global;

/// What reads of a source give, one after another, into a buffer that is filled with dots before the first.
pub fn answer(alloc: Global, case: Case<'_>) -> Result<Value, Fault> {
    let (bytes, reads) = (case.text("bytes").as_bytes(), case.number("reads"));
    let mut buf = dots(alloc, case.number("room"))?;
    match case.text("call") {
        "MemorySource" => of_memory(alloc, bytes, reads, &mut buf),
        "FaultSource" => {
            let failing = numbers(alloc, case, "failing")?;
            let mut source = FaultSource::new(bytes.to_vec(alloc)?, failing);
            reads_of(alloc, &mut source, reads, &mut buf)
        }
        "ReaderSource" => reads_of(alloc, &mut ReaderSource::new(bytes), reads, &mut buf),
        "ReaderSource of Broken" => {
            reads_of(alloc, &mut ReaderSource::new(Broken), reads, &mut buf)
        }
        _ => Err(Fault::Call),
    }
}

fn dots(alloc: Global, count: u64) -> Result<Vec<u8>, Fault> {
    let mut dots = Vec::new(alloc);
    for _ in 0..count {
        dots.push(b'.')?;
    }
    Ok(dots)
}

fn of_memory(alloc: Global, bytes: &[u8], reads: u64, buf: &mut [u8]) -> Result<Value, Fault> {
    let mut source = MemorySource::new(bytes.to_vec(alloc)?);
    let mut answers = List::new(alloc);
    for _ in 0..reads {
        let read = read_known(&mut source, buf);
        answers = answers.item(read_answer(alloc, read, buf, faults_of(&source)));
    }
    answers.answer()
}

fn reads_of<S: ByteSource>(
    alloc: Global,
    source: &mut S,
    reads: u64,
    buf: &mut [u8],
) -> Result<Value, Fault> {
    let mut answers = List::new(alloc);
    for _ in 0..reads {
        let read = read_at(source, buf);
        answers = answers.item(read_answer(alloc, read, buf, faults_of(source)));
    }
    answers.answer()
}

// A caller at the bound.
fn read_at<S: ByteSource>(source: &mut S, buf: &mut [u8]) -> Result<usize, Failed>
    ensures { ReadConsumes (S.left source.old) (S.left source.new) result buf.new }
{
    source.read(buf)
}

// At the bound a source in memory has left what its value is.
fn read_known(source: &mut MemorySource, buf: &mut [u8]) -> Result<usize, Failed>
    ensures { ReadConsumes (Some source.old) (Some source.new) result buf.new }
{
    read_at(source, buf)
}

fn faults_of<S: ByteSource>(source: &S) -> u64 {
    source.faults()
}

// How many bytes a read gave, or null where it failed, the whole buffer then, and how many reads have failed.
fn read_answer(
    alloc: Global,
    read: Result<usize, Failed>,
    buf: &[u8],
    faults: u64,
) -> Result<Value, Fault> {
    let buf = String::from_utf8_lossy(alloc, buf)?;
    let answer = List::new(alloc);
    let answer = match read {
        Ok(count) => answer.number(count as u64),
        Err(Failed) => answer.optional(None),
    };
    answer.text(buf.as_str()).number(faults).answer()
}
