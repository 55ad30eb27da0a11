//! Texts, paths and variables of cases.

use crate::answer::List;
use crate::case::{Case, Fault};
use base_text::{AbsPathBuf, ByText, CfgAtom, Items, PathError, Text, write_cfg};
use serde_json::Value;
use std::alloc::{AllocError, Global};

/// The texts of a list.
pub fn texts(alloc: Global, case: Case<'_>, key: &'static str) -> Result<Items<Text>, AllocError> {
    let mut texts = Vec::new(alloc);
    for value in case.list(key) {
        texts.push(Text::of_str(alloc, case.with(value).as_text())?)?;
    }
    Ok(Items::new(texts))
}

/// A list of texts, as it is compared.
pub fn texts_answer(alloc: Global, texts: &[Text]) -> Result<Value, Fault> {
    let mut values = List::new(alloc);
    for text in texts {
        values = values.text(text.as_str());
    }
    values.answer()
}

/// Atoms of conditional compilation, as they are compared.
pub fn atoms_answer(alloc: Global, atoms: &[CfgAtom]) -> Result<Value, Fault> {
    let mut texts = List::new(alloc);
    for atom in atoms {
        texts = texts.item(atom_answer(alloc, atom));
    }
    texts.answer()
}

fn atom_answer(alloc: Global, atom: &CfgAtom) -> Result<Value, Fault> {
    Ok(Value::String(write_cfg(alloc, atom)?))
}

/// A text, if there is one.
pub fn optional_text(
    alloc: Global,
    case: Case<'_>,
    key: &'static str,
) -> Result<Option<Text>, AllocError> {
    copy_text(alloc, case.optional_text(key))
}

/// The copy of a text, if there is one.
pub fn copy_text(alloc: Global, text: Option<&str>) -> Result<Option<Text>, AllocError> {
    match text {
        Some(text) => Ok(Some(Text::of_str(alloc, text)?)),
        None => Ok(None),
    }
}

/// An absolute path.
pub fn absolute(alloc: Global, text: &str) -> Result<AbsPathBuf, Fault> {
    match AbsPathBuf::new(alloc, text) {
        Ok(path) => Ok(path),
        Err(PathError::NotAbsolute) => Err(Fault::Member("path")),
        Err(PathError::OutOfMemory) => Err(Fault::OutOfMemory),
    }
}

/// An absolute path, if there is one.
pub fn optional_path(
    alloc: Global,
    case: Case<'_>,
    key: &'static str,
) -> Result<Option<AbsPathBuf>, Fault> {
    match case.optional_text(key) {
        Some(text) => Ok(Some(absolute(alloc, text)?)),
        None => Ok(None),
    }
}

/// The absolute paths of a list.
pub fn paths(alloc: Global, case: Case<'_>, key: &'static str) -> Result<Items<AbsPathBuf>, Fault> {
    let mut paths = Vec::new(alloc);
    for value in case.list(key) {
        paths.push(absolute(alloc, case.with(value).as_text())?)?;
    }
    Ok(Items::new(paths))
}

/// A list of paths, as it is compared.
pub fn paths_answer(alloc: Global, paths: &[AbsPathBuf]) -> Result<Value, Fault> {
    let mut values = List::new(alloc);
    for path in paths {
        values = values.text(path.as_str());
    }
    values.answer()
}

/// Variables of a list, each with its value, or removed where that is null.
pub fn variables(
    alloc: Global,
    case: Case<'_>,
    key: &'static str,
) -> Result<ByText<Option<Text>>, AllocError> {
    let mut variables = ByText::empty(alloc);
    for pair in case.list(key) {
        insert(alloc, &mut variables, case.with(pair))?;
    }
    Ok(variables)
}

fn insert(
    alloc: Global,
    variables: &mut ByText<Option<Text>>,
    pair: Case<'_>,
) -> Result<(), AllocError> {
    let (name, value) = variable_of(alloc, pair)?;
    drop(variables.insert(name.into_inner(), value)?);
    Ok(())
}

/// A name, and its value unless that is null.
pub fn variable_of(alloc: Global, pair: Case<'_>) -> Result<(Text, Option<Text>), AllocError> {
    let name = Text::of_str(alloc, pair.text_at(0))?;
    Ok((name, copy_text(alloc, pair.at(1).value().as_str())?))
}

/// The two texts of a pair, as copies.
pub fn texts_of_pair(alloc: Global, pair: Case<'_>) -> Result<(String, String), AllocError> {
    let first = String::from_str(alloc, pair.text_at(0))?;
    Ok((first, String::from_str(alloc, pair.text_at(1))?))
}
