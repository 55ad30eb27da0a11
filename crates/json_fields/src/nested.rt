//! Tables that lead back to themselves, whose rows take what the table's own reader returned.

ghost use Rattle.std.specs.Prelude.{◌≡◌, suc, IfOk, IfSome, Ok, None, Some, option_map};
ghost use Rattle.serde_json.specs.Data.{Data, Members};
ghost use Rattle.serde_json.specs.Find.{get_member};
ghost use Rattle.serde_json.specs.View.{view, members_view};
ghost use Rattle.json_fields.specs.Fields.{optional_member, required_member, under};
ghost use Rattle.json_fields.specs.Nested.{GivesAt, not_null, present_member};
ghost use Rattle.json_fields.specs.Outcome.{Gives, Reading};

use crate::place::{ReadError, below};
use crate::reading::{member, miss};
use base_values::Boxed;
use serde_json::{Map, Value};
use std::alloc::Global;

/// The most levels of a document: a text nests to as many.
pub const MAX_LEVELS: usize = 127;

/// The levels that may be inside, where so many are left; none where no level is.
pub fn inner_levels(left: usize) -> Option<usize>
    ensures one { IfSome result (λ inner. left ≡ suc inner) }
    ensures none { result ≡ None → left ≡ 0 }
{
    left.checked_sub(1)
}

/// The value at a key, unless it is null.
pub fn present<'v>(members: &'v Map<String, Value>, key: &str) -> Option<&'v Value>
    ensures found { option_map (λ v. view v.now) result
        ≡ present_member key.now (members_view members.now.entries) }
{
    match member(members, key) {
        Some(value) => unless_null(value),
        None => None,
    }
}

fn unless_null(value: &Value) -> Option<&Value>
    ensures found { option_map (λ v. view v.now) result ≡ not_null (view value.now) }
{
    match value {
        Value::Null => None,
        _ => Some(value),
    }
}

/// A member that must be there, from what its reader returned where it is there.
#[tactic(auto, unfolding(crate::specs::Fields::required_member))]
pub fn required_by<T>(
    alloc: Global,
    key: &str,
    answer: Option<Result<T, ReadError>>,
) -> Result<T, ReadError>
    ensures exact { (reads : Data → Reading T) (ms : Members)
        → GivesAt reads (get_member key.now ms) answer → Gives result (required_member key.now reads ms) }
{
    match answer {
        Some(answer) => below(alloc, key, answer),
        None => below(alloc, key, miss(alloc)),
    }
}

/// A member that may be missing or null, from what its reader returned where it is neither.
#[tactic(auto, unfolding(crate::specs::Fields::optional_member))]
pub fn optional_by<T>(
    alloc: Global,
    key: &str,
    answer: Option<Result<T, ReadError>>,
) -> Result<Option<T>, ReadError>
    ensures exact { (reads : Data → Reading T) (ms : Members)
        → GivesAt reads (present_member key.now ms) answer
        → Gives result (optional_member key.now reads ms) }
{
    match answer {
        Some(answer) => some(below(alloc, key, answer)),
        None => Ok(None),
    }
}

fn some<T>(answer: Result<T, ReadError>) -> Result<Option<T>, ReadError>
    ensures exact { (reading : Reading T) → Gives answer reading
        → Gives result (under Some reading) }
{
    match answer {
        Ok(value) => Ok(Some(value)),
        Err(error) => Err(error),
    }
}

/// What was read, in a box.
pub fn in_box<T: Drop>(alloc: Global, answer: Result<T, ReadError>) -> Result<Boxed<T>, ReadError>
    ensures exact { (reading : Reading T) → Gives answer reading → Gives result reading }
    ensures same { IfOk result (λ x. answer ≡ Ok x) }
{
    match answer {
        Ok(value) => Ok(Boxed::new(alloc, value)?),
        Err(error) => Err(error),
    }
}
