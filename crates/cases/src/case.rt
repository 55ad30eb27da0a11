//! A case: one JSON object, of which each call reads the members that it needs.

ghost use Rattle.std.specs.Prelude.{◌≤◌};

use crate::answer::Object;
use serde_json::Value;
use std::alloc::{AllocError, AllocFailed, Global};
use std::cell::Cell;
use std::fmt;
use thiserror::Error;

/// Why a case gives nothing.
#[derive(Debug, Drop, PartialEq, Eq, Error)]
pub enum Fault {
    #[error("out of memory")]
    OutOfMemory,
    #[error("no such kind of cases")]
    Kind,
    #[error("no such call")]
    Call,
    /// The member is missing, or is of another form.
    #[error("the member {0} does not fit")]
    Member(&'static str),
    /// What the case asks may not be asked of the library.
    #[error("the call does not take this")]
    Condition,
}

impl From<AllocError> for Fault {
    fn from(_error: AllocError) -> Self {
        Fault::OutOfMemory
    }
}

impl<T: Drop> From<AllocFailed<T>> for Fault {
    fn from(_error: AllocFailed<T>) -> Self {
        Fault::OutOfMemory
    }
}

/// A case, or a value that stands within it. What is missing, or is of another form, reads as nothing; its key is kept, and the
/// case fails.
#[derive(Clone, Copy)]
pub struct Case<'a> {
    value: &'a Value,
    missing: &'a Cell<Option<&'static str>>,
}

impl<'a> Case<'a> {
    pub fn new(value: &'a Value, missing: &'a Cell<Option<&'static str>>) -> Self {
        Case { value, missing }
    }

    /// A value that stands within the case.
    pub fn with(self, value: &'a Value) -> Self {
        Case {
            value,
            missing: self.missing,
        }
    }

    pub fn value(self) -> &'a Value {
        self.value
    }

    /// A member, if there is one.
    pub fn find(self, key: &'static str) -> Option<&'a Value> {
        self.value.get(key)
    }

    pub fn member(self, key: &'static str) -> &'a Value {
        match self.find(key) {
            Some(member) => member,
            None => {
                self.missing.set(Some(key));
                self.value
            }
        }
    }

    /// A member, to read on.
    pub fn of(self, key: &'static str) -> Self {
        self.with(self.member(key))
    }

    /// An item of a list, to read on.
    pub fn at(self, place: usize) -> Self {
        let items = self.items();
        match items.get(place) {
            Some(item) => self.with(item),
            None => {
                self.missing.set(Some("item"));
                self
            }
        }
    }

    pub fn optional_text(self, key: &'static str) -> Option<&'a str> {
        self.find(key).and_then(Value::as_str)
    }

    pub fn text(self, key: &'static str) -> &'a str {
        self.text_or_nothing(self.optional_text(key), key)
    }

    fn text_or_nothing(self, text: Option<&'a str>, key: &'static str) -> &'a str {
        match text {
            Some(text) => text,
            None => {
                self.missing.set(Some(key));
                ""
            }
        }
    }

    /// The text that this value is.
    pub fn as_text(self) -> &'a str {
        self.text_or_nothing(self.value.as_str(), "text")
    }

    /// The text of an item of a list.
    pub fn text_at(self, place: usize) -> &'a str {
        self.at(place).as_text()
    }

    /// The number that this value is.
    pub fn as_number(self) -> u64 {
        match self.value.as_u64() {
            Some(number) => number,
            None => {
                self.missing.set(Some("number"));
                0
            }
        }
    }

    pub fn number(self, key: &'static str) -> u64 {
        self.of(key).as_number()
    }

    /// A number of at most so much.
    fn number_within(self, most: u32) -> u32
        ensures { result ≤ most }
    {
        let number = self.as_number();
        if number <= most as u64 {
            number as u32
        } else {
            self.missing.set(Some("number"));
            0
        }
    }

    /// The number of 32 bits that this value is.
    pub fn as_u32(self) -> u32 {
        self.number_within(u32::MAX)
    }

    /// The number of 31 bits that this value is, as the numbers of files are.
    pub fn as_file_number(self) -> u32
        ensures { result ≤ 0x7fff_ffff }
    {
        self.number_within(0x7fff_ffff)
    }

    /// Whether a flag is set. Without the member it is not.
    pub fn flag(self, key: &'static str) -> bool {
        self.find(key).and_then(Value::as_bool).unwrap_or(false)
    }

    /// The items of the list that this value is.
    pub fn items(self) -> &'a [Value] {
        match self.value.as_array() {
            Some(items) => items.as_slice(),
            None => {
                self.missing.set(Some("list"));
                &[]
            }
        }
    }

    /// The items of a list. Without the member there are none.
    pub fn list(self, key: &'static str) -> &'a [Value] {
        match self.find(key) {
            Some(value) => self.with(value).items(),
            None => &[],
        }
    }
}

/// An answer that is a text.
pub fn text_answer(alloc: Global, text: &str) -> Result<Value, Fault> {
    Ok(Value::try_from_str(alloc, text)?)
}

/// An answer that is a text, or null.
pub fn optional_answer(alloc: Global, text: Option<&str>) -> Result<Value, Fault> {
    match text {
        Some(text) => text_answer(alloc, text),
        None => Ok(Value::Null),
    }
}

/// An answer that is what is printed of a value.
pub fn print_answer<T: fmt::Display>(alloc: Global, value: &T) -> Result<Value, Fault> {
    Ok(Value::String(format!(in alloc; "{value}")?))
}

/// An answer that is what is printed of a value that was made.
pub fn printed_answer<T: fmt::Display + Drop>(
    alloc: Global,
    made: Result<T, AllocError>,
) -> Result<Value, Fault> {
    print_answer(alloc, &made?)
}

/// An answer that is bytes as a text.
pub fn bytes_answer(alloc: Global, bytes: &[u8]) -> Result<Value, Fault> {
    let text = String::from_utf8_lossy(alloc, bytes)?;
    text_answer(alloc, text.as_str())
}

/// An answer that is an error, by its name.
pub fn error_answer(alloc: Global, name: &str) -> Result<Value, Fault> {
    Object::new(alloc).text("error", name).answer()
}

/// An answer that is a place of a document that does not fit.
pub fn missed_answer(alloc: Global, place: &str) -> Result<Value, Fault> {
    Object::new(alloc).text("missed", place).answer()
}
