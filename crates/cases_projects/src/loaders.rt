//! Loaders in memory: files by their paths, and the file at a path.

use base_text::{FileId, TryClone};
use cases::{Case, Fault, absolute};
use pm_lower_crates::{Loader, MapLoader};
use serde_json::Value;
use std::alloc::Global;

/// The number of the file at the path of a case in a copy of the loader, or null.
pub fn answer(alloc: Global, case: Case<'_>) -> Result<Value, Fault> {
    let path = absolute(alloc, case.text("path"))?;
    let mut loader = MapLoader::new(alloc);
    for file in case.list("files") {
        let file = case.with(file);
        let place = file.at(1).as_file_number() as usize;
        insert(alloc, &mut loader, file.text_at(0), place)?;
    }
    let mut copy = loader.try_clone(alloc)?;
    match copy.load(alloc, path.as_path())? {
        Some(file) => Ok(Value::from(file.index())),
        None => Ok(Value::Null),
    }
}

/// The files that are live, each under its place in the list.
pub fn live_loader(alloc: Global, case: Case<'_>) -> Result<MapLoader, Fault> {
    let mut loader = MapLoader::new(alloc);
    for (place, path) in case.list("live").iter().enumerate() {
        insert(alloc, &mut loader, case.with(path).as_text(), place)?;
    }
    Ok(loader)
}

fn insert(alloc: Global, loader: &mut MapLoader, path: &str, place: usize) -> Result<(), Fault> {
    if place > 0x7fff_ffff {
        return Err(Fault::Condition);
    }
    loader.insert(absolute(alloc, path)?, FileId::from_raw(place as u32))?;
    Ok(())
}
