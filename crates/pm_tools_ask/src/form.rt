//! What a line is, where no list is open and where one is.

ghost use Rattle.std.specs.Prelude.{◌≡◌, IfOk, option_map};
ghost use Rattle.pm_tools_ask.specs.Line.{sides_of};
ghost use Rattle.pm_tools_ask.specs.Statements.{item_form, line_form};

use crate::comment::root_after;
use crate::keys::read_keys;
use crate::quotes::{behind, cut_outside};
use crate::value::{after_value, opens_list};
use base_text::{AbsPathBuf, Items, Text};
use std::alloc::{AllocError, Global};

/// A line where no list is open.
#[derive(Drop)]
pub(crate) enum Form {
    /// Keys and a value, with the directory that its comment gives.
    Value {
        keys: Items<Text>,
        root: Option<AbsPathBuf>,
    },
    /// Keys and the start of a list.
    Opens {
        keys: Items<Text>,
    },
    Other,
}

/// A line where a list is open.
#[derive(Drop)]
pub(crate) enum ItemForm {
    Item(Option<AbsPathBuf>),
    /// The end of the list, with the directory that the comment behind it gives.
    Closes(Option<AbsPathBuf>),
    Neither,
}

// What stands before and behind `=`.
fn sides_of(line: &str) -> Option<(&str, &str)>
    ensures { option_map (λ sides. (sides.0.now, sides.1.now)) result ≡ sides_of line.now }
{
    let (keys, value) = cut_outside(line, b'=')?;
    Some((keys.trim(), value.trim_start()))
}

impl Form {
    #[tactic(auto, unfolding(crate::specs::Statements::line_form))]
    pub(crate) fn of_line(alloc: Global, line: &str) -> Result<Self, AllocError>
        ensures { IfOk result (λ form. form ≡ line_form line.now) }
    {
        let Some((keys, value)) = sides_of(line) else {
            return Ok(Form::Other);
        };
        let Some(keys) = read_keys(alloc, keys)? else {
            return Ok(Form::Other);
        };
        if opens_list(value) {
            return Ok(Form::Opens { keys });
        }
        let Some(rest) = after_value(value) else {
            return Ok(Form::Other);
        };
        let root = root_after(alloc, rest)?;
        Ok(Form::Value { keys, root })
    }
}

impl ItemForm {
    #[tactic(auto, unfolding(crate::specs::Statements::item_form))]
    pub(crate) fn of_line(alloc: Global, line: &str) -> Result<Self, AllocError>
        ensures { IfOk result (λ form. form ≡ item_form line.now) }
    {
        let text = line.trim_start();
        if let Some(rest) = behind(text, ']') {
            let root = root_after(alloc, rest)?;
            return Ok(ItemForm::Closes(root));
        }
        let Some(rest) = after_value(text) else {
            return Ok(ItemForm::Neither);
        };
        let root = root_after(alloc, rest)?;
        Ok(ItemForm::Item(root))
    }
}
