//! The place of the first miss, composed on the way out: a key or a position goes before what is below it.

ghost use Rattle.std.specs.Prelude.{◌≡◌, ◌++◌, ◌∷◌, decimal, Ok, IfOk};
ghost use Rattle.json_fields.specs.Outcome.{Gives, Reading, below_key, below_position, whole_place_of};

use base_values::{Text, TryClone};
use std::alloc::{AllocError, AllocFailed, Global};
use std::{error, fmt};

/// Why a document was not read.
#[derive(Debug, PartialEq, Eq, Drop)]
pub enum ReadError {
    /// The first place that does not fit: keys joined by dots with positions as `[n]`.
    Missed(Text),
    OutOfMemory,
}

impl TryClone for ReadError {
    fn try_clone(&self, alloc: Global) -> Result<Self, AllocError> {
        match self {
            ReadError::Missed(place) => Ok(ReadError::Missed(place.try_clone(alloc)?)),
            ReadError::OutOfMemory => Ok(ReadError::OutOfMemory),
        }
    }
}

impl fmt::Display for ReadError {
    ghost use Rattle.std.specs.Prelude.{Some};
    ghost use Rattle.json_fields.specs.Printed.{read_error_text};

    ghost output = { λ e. Some (read_error_text e) };

    fn fmt<W: fmt::Write>(&self, f: &mut fmt::Formatter<W>) -> fmt::Result {
        match self {
            ReadError::Missed(place) => {
                f.write_str("the document does not fit its table: ")?;
                f.write_str(place.as_str())
            }
            ReadError::OutOfMemory => f.write_str("out of memory"),
        }
    }
}

impl error::Error for ReadError {}

impl From<AllocError> for ReadError {
    ghost use Rattle.std.specs.Prelude.{◌≡◌};
    ghost use Rattle.json_fields.specs.declared.place.ReadError.TheVariants.{OutOfMemory};

    ghost from_gives = { λ _ e. e ≡ OutOfMemory };

    fn from(_error: AllocError) -> ReadError {
        ReadError::OutOfMemory
    }
}

impl<T: Drop> From<AllocFailed<T>> for ReadError {
    ghost use Rattle.std.specs.Prelude.{◌≡◌};
    ghost use Rattle.json_fields.specs.declared.place.ReadError.TheVariants.{OutOfMemory};

    ghost from_gives = { λ _ e. e ≡ OutOfMemory };

    fn from(_error: AllocFailed<T>) -> ReadError {
        ReadError::OutOfMemory
    }
}

/// A miss below a member, as a place of the object that holds it.
#[inline(always)]
pub fn below<T>(alloc: Global, key: &str, answer: Result<T, ReadError>) -> Result<T, ReadError>
    ensures exact { (reading : Reading T) → Gives answer reading
        → Gives result (below_key key.now reading) }
    ensures same { IfOk result (λ x. answer ≡ Ok x) }
{
    match answer {
        Ok(value) => Ok(value),
        Err(ReadError::OutOfMemory) => Err(ReadError::OutOfMemory),
        Err(ReadError::Missed(place)) => {
            let whole = key_before(alloc, key, &place)?;
            Err(ReadError::Missed(whole))
        }
    }
}

/// A miss below an item, as a place of the list that holds it.
#[inline(always)]
pub fn below_item<T>(
    alloc: Global,
    position: usize,
    answer: Result<T, ReadError>,
) -> Result<T, ReadError>
    ensures exact { (reading : Reading T) → Gives answer reading
        → Gives result (below_position position reading) }
    ensures same { IfOk result (λ x. answer ≡ Ok x) }
{
    match answer {
        Ok(value) => Ok(value),
        Err(ReadError::OutOfMemory) => Err(ReadError::OutOfMemory),
        Err(ReadError::Missed(place)) => {
            let whole = position_before(alloc, position, &place)?;
            Err(ReadError::Missed(whole))
        }
    }
}

#[cold]
#[inline(never)]
fn key_before(alloc: Global, key: &str, place: &Text) -> Result<Text, AllocError>
    ensures { IfOk result (λ whole. whole ≡ (46 ∷ key.now) ++ place.now) }
{
    let below = place.as_str();
    let whole = format!(in alloc; ".{key}{below}")?;
    Ok(Text::new(whole))
}

#[cold]
#[inline(never)]
fn position_before(alloc: Global, position: usize, place: &Text) -> Result<Text, AllocError>
    ensures { IfOk result (λ whole. whole ≡ 91 ∷ (decimal position ++ (93 ∷ place.now))) }
{
    let below = place.as_str();
    let whole = format!(in alloc; "[{position}]{below}")?;
    Ok(Text::new(whole))
}

/// The place as a document's reader reports it: no dot at its front, and `$` for the whole document.
pub(crate) fn whole_place(alloc: Global, place: Text) -> Result<Text, AllocError>
    ensures { IfOk result (λ whole. whole ≡ whole_place_of place) }
{
    if place.as_str().is_empty() {
        return Text::of_str(alloc, "$");
    }
    match place.as_str().strip_prefix('.') {
        Some(rest) => Text::of_str(alloc, rest),
        None => Ok(place),
    }
}
