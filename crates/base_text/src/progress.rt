//! Lines that say how far a call has come.

ghost use Rattle.std.specs.Prelude.{◌≡◌, ℕ, List, [], ◌∷◌, Option, None};
ghost use Rattle.base_text.specs.Progress.{with_lines};

/// Takes lines, one after another. Nothing else follows from them.
pub trait Progress {
    // The lines that were taken, where a list of them is known.
    ghost lines: { Self → Option (List (List ℕ)) };

    fn line(&mut self, text: &str)
        ensures { lines self.new ≡ with_lines (text.now ∷ []) (lines self.old) };
}

/// Takes lines and shows none of them.
#[derive(Clone, Copy, Debug, PartialEq, Eq)]
pub struct Quiet;

impl Progress for Quiet {
    ghost lines = { λ _. None };

    fn line(&mut self, _text: &str) {}
}
