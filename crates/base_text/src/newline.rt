//! Where a line ends in bytes that were read.

ghost use Rattle.std.specs.Prelude.{◌≡◌, MatchOption, false};
ghost use Rattle.base_text.specs.Lines.{has_newline};
ghost use Rattle.base_text.specs.Pieces.{IsFirstNewline};

/// The place of the first newline, if there is one.
pub fn newline_at(bytes: &[u8]) -> Option<usize>
    ensures { MatchOption result (has_newline bytes.now ≡ false)
        (λ at. IsFirstNewline bytes.now at) }
{
    for (at, byte) in bytes.iter().enumerate() {
        if *byte == b'\n' {
            return Some(at);
        }
    }
    None
}
