//! The messages of a stream, one for each of its lines.

ghost use Rattle.std.specs.Prelude.{◌≡◌, ◌≤◌, false, ℕ, List, Option, None, IfOk, IsTrue};
ghost use Rattle.base_text.specs.Calls.{ReadsAtOnce};
ghost use Rattle.base_text.specs.Reader.{GaveLines};
ghost use Rattle.cargo_msgs.specs.Stream.{AnswersItem, GaveMessages, GaveOneMore, GivesItem, Item, TellsItem, is_fatal, is_out_of_memory, is_item_fault, item_of_bytes, items_after, new_stream};

use crate::messages::Message;
use base_text::{BoundedLines, ByteSource, Line, LineError};
use std::alloc::{AllocError, Global};
use std::marker::Model;

/// Why a line gave no message.
#[derive(Clone, Copy, Debug, PartialEq, Eq)]
pub enum ItemFault {
    /// The line is not UTF-8.
    NotUtf8,
    /// The line has more bytes than the bound. It was passed over.
    TooLong,
    /// The source failed.
    ReadFault,
    /// There was no memory.
    OutOfMemory,
}

/// Gives the messages of a source, one for each line, each as soon as its line is whole. In its life it
/// takes at most 2^64 - 1 bytes of the source.
#[derive(Drop)]
pub struct MessageIter<S> {
    alloc: Global,
    input: S,
    lines: BoundedLines,
    has_failed: bool,
}

impl<S> Model for MessageIter<S> {
    ghost use Rattle.cargo_msgs.specs.Stream.{Stream};

    ghost Value = { Stream S };

    ghost view = { λ m. record {
      input = m.input;
      lines = m.lines;
      has_failed = m.has_failed;
    } };
}

impl Message {
    /// The messages of a source, whose lines have at most so many bytes. Nothing is read yet.
    pub fn parse_stream<S: ByteSource>(
        alloc: Global,
        input: S,
        max_line: usize,
    ) -> Result<MessageIter<S>, AllocError>
        ensures { IfOk result (λ messages. messages ≡ new_stream input max_line) }
    {
        Ok(MessageIter {
            alloc,
            input,
            lines: BoundedLines::new(alloc, max_line),
            has_failed: false,
        })
    }
}

impl<S: ByteSource> MessageIter<S> {
    /// The message of the next line, or why it has none; none at the end. After a fault of the source,
    /// and out of memory, none is given any more, and nothing is read.
    pub fn next(&mut self) -> Option<Result<Message, ItemFault>>
        ensures gave { is_out_of_memory result ≡ false
            → (first : Option (List ℕ)) (given : List Item)
            → GaveMessages first (S.left self.old.input) given self.old.lines
            → GaveMessages first (S.left self.new.input) (items_after given result) self.new.lines }
        ensures taken { (first : Option (List ℕ)) (lines : List (Option (List ℕ)))
            → GaveLines first (S.left self.old.input) lines self.old.lines
            → GaveOneMore first (S.left self.new.input) lines self.new.lines }
        ensures reads { ReadsAtOnce S.read_gives (is_item_fault result) self.old.lines.piece
            self.old.input self.new.input }
        ensures answers { AnswersItem result self.old self.new
            (S.faults self.old.input) (S.faults self.new.input) }
        ensures ended { IsTrue self.old.has_failed → (result ≡ None) × (self.new ≡ self.old) }
    {
        if self.has_failed {
            return None;
        }
        let item = self.read_item();
        self.has_failed = matches!(
            item,
            Some(Err(ItemFault::ReadFault | ItemFault::OutOfMemory))
        );
        item
    }

    // The item of the next line.
    fn read_item(&mut self) -> Option<Result<Message, ItemFault>>
        requires { self.old.has_failed ≡ false }
        ensures gave { is_out_of_memory result ≡ false
            → (first : Option (List ℕ)) (given : List Item)
            → GaveMessages first (S.left self.old.input) given self.old.lines
            → GaveMessages first (S.left self.new.input) (items_after given result) self.new.lines }
        ensures taken { (first : Option (List ℕ)) (lines : List (Option (List ℕ)))
            → GaveLines first (S.left self.old.input) lines self.old.lines
            → GaveOneMore first (S.left self.new.input) lines self.new.lines }
        ensures reads { ReadsAtOnce S.read_gives (is_item_fault result) self.old.lines.piece
            self.old.input self.new.input }
        ensures told { TellsItem result self.old self.new
            (S.faults self.old.input) (S.faults self.new.input) }
        ensures faults { S.faults self.old.input ≤ S.faults self.new.input }
    {
        match self.lines.next(self.alloc, &mut self.input) {
            Ok(Some(Line::Whole(bytes))) => Some(item_of(self.alloc, bytes.as_slice())),
            Ok(Some(Line::TooLong)) => Some(Err(ItemFault::TooLong)),
            Ok(None) => None,
            Err(LineError::ReadFault) => Some(Err(ItemFault::ReadFault)),
            Err(LineError::OutOfMemory) => Some(Err(ItemFault::OutOfMemory)),
        }
    }
}

// The item of a line's bytes.
fn item_of(alloc: Global, bytes: &[u8]) -> Result<Message, ItemFault>
    ensures { GivesItem result (item_of_bytes bytes.now) }
{
    match std::str::from_utf8(bytes) {
        Ok(line) => match Message::of_line(alloc, line) {
            Ok(message) => Ok(message),
            Err(_) => Err(ItemFault::OutOfMemory),
        },
        Err(_) => Err(ItemFault::NotUtf8),
    }
}
