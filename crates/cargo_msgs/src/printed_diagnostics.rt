//! What is printed of a diagnostic: the text that the compiler rendered.

use crate::diagnostic::Diagnostic;
use std::fmt;

impl fmt::Display for Diagnostic {
    ghost use Rattle.std.specs.Prelude.{Some};
    ghost use Rattle.cargo_msgs.specs.Printed.{printed_text};

    ghost output = { λ diagnostic. Some (printed_text diagnostic) };

    fn fmt<W: fmt::Write>(&self, f: &mut fmt::Formatter<W>) -> fmt::Result {
        match &self.rendered {
            Some(text) => f.write_str(text.as_str()),
            None => f.write_str("cargo didn't render this message"),
        }
    }
}
