//! Lines from the bytes of one read.

ghost use Rattle.std.specs.Prelude.{◌≡◌, ◌+◌, ◌^◌, ◌<◌, ◌≤◌, [], IfErr, IfOk, OnErr};
ghost use Rattle.std.specs.Io.KnownBytes.{Consumes};
ghost use Rattle.live_page.specs.Pieces.{HasScriptCauseOf, MovesToLine, ReadsWithin, ReadsOnceWithin};

use crate::lines::LineError;
use base_text::{ByteSource, Piece, newline_at};
use std::alloc::{AllocError, Global};

/// Moves the bytes up to the first newline behind a line, and answers whether there is one. The newline is
/// passed over.
pub(crate) fn move_line(piece: &mut Piece, line: &mut Vec<u8>) -> Result<bool, AllocError>
    ensures ok { IfOk result (λ found.
        MovesToLine found piece.old piece.new line.old.items line.new.items) }
    ensures err { OnErr result ((piece.new ≡ piece.old) × (line.new.items ≡ line.old.items)) }
{
    let rest = piece.rest();
    match newline_at(rest) {
        Some(at) => {
            line.extend_from_slice(&rest[..at])?;
            piece.pass(at + 1);
            Ok(true)
        }
        None => {
            let count = rest.len();
            line.extend_from_slice(rest)?;
            piece.pass(count);
            Ok(false)
        }
    }
}

/// Reads the next piece in place of this one, and answers how much was read: at most one byte more than
/// there is room for, which is not kept.
pub(crate) fn read_within<S: ByteSource>(
    piece: &mut Piece,
    alloc: Global,
    input: &mut S,
    room: u64,
) -> Result<u64, LineError>
    requires { room + 1 < 2 ^ 64 }
    ensures ok { IfOk result (λ count.
        ReadsWithin room count (S.left input.old) (S.left input.new) piece.new) }
    ensures kept { OnErr result ((piece.new ≡ [])
        × Consumes (S.left input.old) (S.left input.new) []) }
    ensures once { ReadsOnceWithin S.read_gives room result piece.new input.old input.new }
    ensures cause { IfErr result (λ e.
        HasScriptCauseOf e (S.faults input.old) (S.faults input.new)) }
    ensures faults { S.faults input.old ≤ S.faults input.new }
{
    let count = piece.read(alloc, input, room + 1)?;
    piece.truncate(room);
    Ok(count)
}
