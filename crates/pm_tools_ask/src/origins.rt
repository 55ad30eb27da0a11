//! The directory that a value of a printed configuration is relative to.

ghost use Rattle.std.specs.Prelude.{◌≡◌, IfOk, option_copied};
ghost use Rattle.pm_tools_ask.specs.Statements.{origin_root, root_at, statement_of};

use crate::statement::{Statement, statements};
use base_text::{AbsPathBuf, Text, TryClone};
use std::alloc::{AllocError, Global};

impl Statement {
    /// The directory of the value, or of an item of its list.
    pub fn root_at(&self, item: Option<usize>) -> Option<&AbsPathBuf>
        ensures { option_copied result ≡ root_at item self.now }
    {
        match item {
            None => self.root.as_ref(),
            Some(place) => self.items.as_slice().get(place)?.as_ref(),
        }
    }
}

/// The first statement of some keys.
pub fn statement_of<'a>(statements: &'a [Statement], keys: &[Text]) -> Option<&'a Statement>
    ensures { option_copied result ≡ statement_of keys.now statements.now }
{
    for statement in statements {
        if statement.keys.as_slice() == keys {
            return Some(statement);
        }
    }
    None
}

/// The directory that the value at the keys is relative to, or an item of a list there: two levels
/// above the file that the comment on its line names. None where there is no such line or no such
/// comment. The text may be one that TOML refuses.
#[tactic(auto, unfolding(crate::specs::Statements::origin_root))]
pub fn origin_root(
    alloc: Global,
    text: &str,
    keys: &[Text],
    item: Option<usize>,
) -> Result<Option<AbsPathBuf>, AllocError>
    ensures { IfOk result (λ root. root ≡ origin_root text.now keys.now item) }
{
    let found = statements(alloc, text)?;
    let Some(statement) = statement_of(found.as_slice(), keys) else {
        return Ok(None);
    };
    match statement.root_at(item) {
        Some(root) => Ok(Some(root.try_clone(alloc)?)),
        None => Ok(None),
    }
}
