//! Laws for callers' proofs. Each is a function that does nothing: its contract is the law.

ghost use Rattle.std.specs.Prelude.{◌≡◌, ◌<◌, ◌^◌, ℕ, List, [], Option, Some, IsTrue, length, map};
ghost use Rattle.std.specs.Io.KnownBytes.{Consumes};
ghost use Rattle.base_text.specs.Lines.{lines_of};
ghost use Rattle.base_text.specs.Part.{item_of};
ghost use Rattle.base_text.specs.Reader.{GaveLines, IsFrontOf, Reader, new_reader};

/// What a reader gives of a source is the front of the source's lines, and at the end it is all of them,
/// however the reads cut them. In its life it takes at most 2^64 - 1 bytes.
pub fn readers_give_the_lines()
    ensures at_first { (max : ℕ) (left : Option (List ℕ)) → GaveLines left left [] (new_reader max) }
    ensures front { (bytes : List ℕ) (left : Option (List ℕ)) (given : List (Option (List ℕ)))
        (reader : Reader) → GaveLines (Some bytes) left given reader
        → IsFrontOf given (map (item_of reader.part.max_line) (lines_of bytes)) }
    ensures at_last { (bytes : List ℕ) (left : Option (List ℕ)) (given : List (Option (List ℕ)))
        (reader : Reader) → GaveLines (Some bytes) left given reader → IsTrue reader.is_done
        → given ≡ map (item_of reader.part.max_line) (lines_of bytes) }
    ensures within { (first left : Option (List ℕ)) (given : List (Option (List ℕ))) (reader : Reader)
        → GaveLines first left given reader
        → (taken : List ℕ) × Consumes first left taken × (length taken < 2 ^ 64) }
{}
