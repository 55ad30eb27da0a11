//! The platforms that a configuration may state.

ghost use Rattle.std.specs.Prelude.{◌≡◌, IfOk, option_copied};
ghost use Rattle.toml.specs.View.{items_view, view};
ghost use Rattle.pm_tools_info.specs.StatedTargets.{joined_target, statement_root, targets_at, targets_from};

use base_text::{Items, Text};
use pm_tools_ask::Statement;
use std::alloc::{AllocError, Global};
use toml::Value;

/// The platforms that a value states, a text or a list of texts. The path of a JSON file is joined to the
/// directory that its text is relative to, by the statement of the value. None where the value is of another
/// shape.
pub fn targets_at(
    alloc: Global,
    statement: Option<&Statement>,
    value: &Value,
) -> Result<Option<Items<Text>>, AllocError>
    ensures { IfOk result (λ targets. targets
        ≡ targets_at (statement_root (option_copied statement.entry)) (view value.now)) }
{
    match value {
        Value::String(target) => {
            let target = joined_target(alloc, statement, None, target.as_str())?;
            Ok(Some(Items::new(vec![in alloc; target]?)))
        }
        Value::Array(items) => targets_of_items(alloc, statement, items.as_slice()),
        _ => Ok(None),
    }
}

// The platforms of a list's items, where each is a text.
fn targets_of_items(
    alloc: Global,
    statement: Option<&Statement>,
    items: &[Value],
) -> Result<Option<Items<Text>>, AllocError>
    ensures { IfOk result (λ targets. targets
        ≡ targets_from (statement_root (option_copied statement.entry)) 0 (items_view items.now)) }
{
    let mut targets = Vec::new(alloc);
    for (place, item) in items.iter().enumerate() {
        let Some(target) = item.as_str() else {
            return Ok(None);
        };
        targets.push(joined_target(alloc, statement, Some(place), target)?)?;
    }
    Ok(Some(Items::new(targets)))
}

// A platform, which is joined to the directory of its text where it is the path of a JSON file.
fn joined_target(
    alloc: Global,
    statement: Option<&Statement>,
    place: Option<usize>,
    target: &str,
) -> Result<Text, AllocError>
    ensures { IfOk result (λ text. text
        ≡ joined_target (statement_root (option_copied statement.entry) place) target.now) }
{
    match statement.and_then(|statement| statement.root_at(place)) {
        Some(root) if target.ends_with(".json") => {
            let path = root.as_path().join(alloc, target)?;
            Text::of_str(alloc, path.as_str())
        }
        _ => Text::of_str(alloc, target),
    }
}
