//! What is printed of the compiler's message, and of a line that gave none.

use crate::message_iter::ItemFault;
use crate::messages::CompilerMessage;
use std::{error, fmt};

impl fmt::Display for CompilerMessage {
    ghost use Rattle.std.specs.Prelude.{Some};
    ghost use Rattle.cargo_msgs.specs.Printed.{printed_text};

    ghost output = { λ m. Some (printed_text m.message) };

    fn fmt<W: fmt::Write>(&self, f: &mut fmt::Formatter<W>) -> fmt::Result {
        write!(f, "{}", self.message)
    }
}

impl fmt::Display for ItemFault {
    ghost use Rattle.std.specs.Prelude.{Some};
    ghost use Rattle.cargo_msgs.specs.Stream.{fault_text};

    ghost output = { λ fault. Some (fault_text fault) };

    fn fmt<W: fmt::Write>(&self, f: &mut fmt::Formatter<W>) -> fmt::Result {
        match self {
            ItemFault::NotUtf8 => f.write_str("NotUtf8"),
            ItemFault::TooLong => f.write_str("TooLong"),
            ItemFault::ReadFault => f.write_str("ReadFault"),
            ItemFault::OutOfMemory => f.write_str("OutOfMemory"),
        }
    }
}

impl error::Error for ItemFault {}
