//! What a document's reader returned, with the error of metadata documents.

ghost use Rattle.std.specs.Prelude.{◌≡◌, IfOk, Ok};
ghost use Rattle.cargo_meta_values.specs.Errors.{GivesDocument};
ghost use Rattle.json_fields.specs.Outcome.{Gives, Reading};

use cargo_meta_values::Error;
use json_fields::ReadError;

pub(crate) fn as_error<T>(answer: Result<T, ReadError>) -> Result<T, Error>
    ensures exact { (reading : Reading T) → Gives answer reading → GivesDocument result reading }
    ensures same { IfOk result (λ x. answer ≡ Ok x) }
{
    match answer {
        Ok(x) => Ok(x),
        Err(ReadError::Missed(field)) => Err(Error::Json { field }),
        Err(ReadError::OutOfMemory) => Err(Error::OutOfMemory),
    }
}
