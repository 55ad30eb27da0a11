//! Laws for callers' proofs. Each is a function that does nothing: its contract is the law.

ghost use Rattle.std.specs.Prelude.{◌≡◌, ℕ, List, [], Option, Some, IsTrue, map};
ghost use Rattle.base_text.specs.Lines.{lines_of};
ghost use Rattle.base_text.specs.Reader.{IsFrontOf, Reader, new_reader};
ghost use Rattle.cargo_msgs.specs.Stream.{GaveMessages, Item, item_of_line};

/// What is given of a stream is the front of its lines' messages, and at the end it is all of them,
/// however the reads cut them.
pub fn streams_give_their_messages()
    ensures at_first { (max : ℕ) (left : Option (List ℕ)) → GaveMessages left left [] (new_reader max) }
    ensures front { (bytes : List ℕ) (left : Option (List ℕ)) (given : List Item) (reader : Reader)
        → GaveMessages (Some bytes) left given reader
        → IsFrontOf given (map (item_of_line reader.part.max_line) (lines_of bytes)) }
    ensures at_last { (bytes : List ℕ) (left : Option (List ℕ)) (given : List Item) (reader : Reader)
        → GaveMessages (Some bytes) left given reader → IsTrue reader.is_done
        → given ≡ map (item_of_line reader.part.max_line) (lines_of bytes) }
{}
