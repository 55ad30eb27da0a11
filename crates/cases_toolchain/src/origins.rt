//! Where the values of a printed configuration come from.

use base_text::AbsPathBuf;
use cases::{Case, Fault, optional_answer, texts};
use pm_tools_ask::origin_root;
use serde_json::Value;
use std::alloc::{AllocError, Global};

/// The text of a case: the lines of `lines` with a newline between each two, or the text `text`.
pub fn text_of_case(alloc: Global, case: Case<'_>) -> Result<String, AllocError> {
    let mut text = String::from_str(alloc, case.optional_text("text").unwrap_or(""))?;
    for (place, line) in case.list("lines").iter().enumerate() {
        if place > 0 {
            text.push('\n')?;
        }
        text.push_str(case.with(line).as_text())?;
    }
    Ok(text)
}

/// The item of a case, where it names one.
pub fn item_of_case(case: Case<'_>) -> Option<usize> {
    let item = case.find("item")?;
    Some(case.with(item).as_u32() as usize)
}

/// The directory that a value of a text is relative to.
pub fn answer(alloc: Global, case: Case<'_>) -> Result<Value, Fault> {
    let item = item_of_case(case);
    let text = text_of_case(alloc, case)?;
    let keys = texts(alloc, case, "keys")?;
    let root = origin_root(alloc, text.as_str(), keys.as_slice(), item);
    root_answer(alloc, root)
}

/// A directory, or null.
pub fn root_answer(
    alloc: Global,
    root: Result<Option<AbsPathBuf>, AllocError>,
) -> Result<Value, Fault> {
    let root = root?;
    optional_answer(alloc, root.as_ref().map(AbsPathBuf::as_str))
}
