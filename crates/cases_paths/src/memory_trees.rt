//! What a tree in memory answers about a path.

use base_text::{AbsPath, Items, MemoryTree, Text, Tree, TryClone};
use cases::{Case, Fault, absolute, optional_answer, texts_answer};
use serde_json::Value;
use std::alloc::{AllocError, Global};

/// What a copy of the tree of the files of a case answers.
pub fn answer(alloc: Global, case: Case<'_>) -> Result<Value, Fault> {
    let path = absolute(alloc, case.text("path"))?;
    let tree = tree_of(alloc, case)?.try_clone(alloc)?;
    ask(alloc, &tree, case.text("call"), path.as_path())
}

// The tree of files, each a path and a text, which are put in one after the other.
fn tree_of(alloc: Global, case: Case<'_>) -> Result<MemoryTree, Fault> {
    let mut tree = MemoryTree::new(alloc);
    for file in case.list("files") {
        insert(alloc, &mut tree, case.with(file))?;
    }
    Ok(tree)
}

fn insert(alloc: Global, tree: &mut MemoryTree, file: Case<'_>) -> Result<(), Fault> {
    let text = Text::of_str(alloc, file.text_at(1))?;
    tree.insert(absolute(alloc, file.text_at(0))?, text)?;
    Ok(())
}

// What a call gives, of any tree.
fn ask<T: Tree>(alloc: Global, tree: &T, call: &str, path: AbsPath<'_>) -> Result<Value, Fault> {
    match call {
        "Tree::holds" => Ok(Value::from(tree.holds(alloc, path)?)),
        "Tree::lists" => names_answer(alloc, tree.lists(alloc, path)),
        "Tree::reads" => {
            let text = tree.reads(alloc, path)?;
            optional_answer(alloc, text.as_ref().map(Text::as_str))
        }
        _ => Err(Fault::Call),
    }
}

// The names of a directory, or null.
fn names_answer(
    alloc: Global,
    names: Result<Option<Items<Text>>, AllocError>,
) -> Result<Value, Fault> {
    match names? {
        Some(names) => texts_answer(alloc, names.as_slice()),
        None => Ok(Value::Null),
    }
}
