//! What the variables of a configuration's table `env` are relative to: the statements of a text are
//! read once.

ghost use Rattle.std.specs.Prelude.{◌≡◌, ℕ, List, IfOk, OnOk, Some, option_copied};
ghost use Rattle.std.specs.Option.{option_and_then, option_or};
ghost use Rattle.std.specs.Str.Lines.{lines};
ghost use Rattle.base_values.specs.ByText.{value_at};
ghost use Rattle.pm_tools_ask.specs.Statements.{statements};
ghost use Rattle.pm_tools_ask.specs.RelativeRoots.{relative_root, relative_variable, root_for};

use crate::statement::{Statement, statements};
use base_text::{AbsPathBuf, ByText, Text};
use std::alloc::{AllocError, Global};

/// The directory of the first statement of each variable's flag `relative`, by the variable's name.
pub(crate) fn relative_roots(
    alloc: Global,
    text: &str,
) -> Result<ByText<Option<AbsPathBuf>>, AllocError>
    ensures { IfOk result (λ roots. (name : List ℕ) → value_at name roots
        ≡ relative_root name (statements (lines text.now))) }
{
    let mut roots = ByText::empty(alloc);
    for statement in statements(alloc, text)?.into_inner() {
        let Statement {
            keys,
            root,
            items: _,
        } = statement;
        if let Some(name) = relative_variable(keys.as_slice()) {
            note(alloc, &mut roots, name, root)?;
        }
    }
    Ok(roots)
}

// Notes the directory of a variable, unless there is one already.
fn note(
    alloc: Global,
    roots: &mut ByText<Option<AbsPathBuf>>,
    name: &str,
    root: Option<AbsPathBuf>,
) -> Result<(), AllocError>
    ensures { OnOk result ((other : List ℕ) → value_at other roots.new
        ≡ option_or (value_at other roots.old) (root_for other (Some name.now) root)) }
{
    if roots.get(name).is_none() {
        drop(roots.insert(String::from_str(alloc, name)?, root)?);
    }
    Ok(())
}

// The variable whose flag `relative` stands at some keys.
fn relative_variable(keys: &[Text]) -> Option<&str>
    ensures { option_copied result ≡ relative_variable keys.now }
{
    match keys {
        [table, name, flag] if table.as_str() == "env" && flag.as_str() == "relative" => {
            Some(name.as_str())
        }
        _ => None,
    }
}

/// The directory that a variable is relative to, where its flag comes from one.
pub(crate) fn root_of<'a>(
    roots: &'a ByText<Option<AbsPathBuf>>,
    name: &str,
) -> Option<&'a AbsPathBuf>
    ensures { option_copied result ≡ option_and_then (λ root. root) (value_at name.now roots.now) }
{
    match roots.get(name) {
        Some(root) => root.as_ref(),
        None => None,
    }
}
