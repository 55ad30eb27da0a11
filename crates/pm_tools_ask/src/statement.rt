//! The statements of a printed configuration, read line by line.

ghost use Rattle.std.specs.Prelude.{◌≡◌, ◌++◌, ◌∷◌, ℕ, List, Some, None, IfOk};
ghost use Rattle.pm_tools_ask.specs.Reader.{statements_left};
ghost use Rattle.pm_tools_ask.specs.Statements.{statements};
ghost use Rattle.std.specs.Str.Lines.{lines};

use crate::form::{Form, ItemForm};
use base_text::{AbsPathBuf, Items, Text, TryClone};
use std::alloc::{AllocError, Global};

/// A statement: keys, the directory that the value is relative to, and those of the items where
/// the value is a list with an item a line.
#[derive(Debug, Drop)]
pub struct Statement {
    pub keys: Items<Text>,
    pub root: Option<AbsPathBuf>,
    pub items: Items<Option<AbsPathBuf>>,
}

// A list that no line has closed yet.
#[derive(Drop)]
struct OpenList {
    keys: Items<Text>,
    items: Vec<Option<AbsPathBuf>>,
}

impl OpenList {
    fn close(self, root: Option<AbsPathBuf>) -> Statement
        ensures { result ≡ record { keys = self.keys; root = root; items = self.items.items } }
    {
        Statement {
            keys: self.keys,
            root,
            items: Items::new(self.items),
        }
    }

    // The list after a line, where the line does not close it.
    fn take_line(
        mut self,
        alloc: Global,
        line: &str,
        whole: &mut Vec<Statement>,
    ) -> Result<Option<OpenList>, AllocError>
        ensures { IfOk result (λ list. (lines : List (List ℕ))
            → whole.old.items ++ statements_left (Some self) (line.now ∷ lines)
            ≡ whole.new.items ++ statements_left list lines) }
    {
        match ItemForm::of_line(alloc, line)? {
            ItemForm::Closes(root) => {
                whole.push(self.close(root))?;
                Ok(None)
            }
            ItemForm::Item(root) => {
                self.items.push(root)?;
                Ok(Some(self))
            }
            ItemForm::Neither => Ok(Some(self)),
        }
    }
}

// Takes a line where no list is open, and gives the list that it opens.
fn take_line(
    alloc: Global,
    line: &str,
    whole: &mut Vec<Statement>,
) -> Result<Option<OpenList>, AllocError>
    ensures { IfOk result (λ list. (lines : List (List ℕ))
        → whole.old.items ++ statements_left None (line.now ∷ lines)
        ≡ whole.new.items ++ statements_left list lines) }
{
    match Form::of_line(alloc, line)? {
        Form::Value { keys, root } => {
            let items = Items::empty(alloc);
            whole.push(Statement { keys, root, items })?;
            Ok(None)
        }
        Form::Opens { keys } => {
            let items = Vec::new(alloc);
            Ok(Some(OpenList { keys, items }))
        }
        Form::Other => Ok(None),
    }
}

/// The statements of a text, in order. One whose list no line closes is the last.
pub fn statements(alloc: Global, text: &str) -> Result<Items<Statement>, AllocError>
    ensures { IfOk result (λ found. found ≡ statements (lines text.now)) }
{
    let mut whole = Vec::new(alloc);
    let mut list = None;
    for line in text.lines() {
        list = match list {
            None => take_line(alloc, line, &mut whole)?,
            Some(list) => list.take_line(alloc, line, &mut whole)?,
        };
    }
    if let Some(list) = list {
        whole.push(list.close(None))?;
    }
    Ok(Items::new(whole))
}

impl TryClone for Statement {
    fn try_clone(&self, alloc: Global) -> Result<Self, AllocError> {
        Ok(Statement {
            keys: self.keys.try_clone(alloc)?,
            root: self.root.try_clone(alloc)?,
            items: self.items.try_clone(alloc)?,
        })
    }
}
