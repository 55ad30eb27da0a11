//! A loader's configuration, and the interface that a loader has.

use crate::entry::Entry;
use base_text_paths::{AbsPath, AbsPathBuf, Items, TryClone};
use std::alloc::{AllocError, Global};

/// What a loader loads and watches.
#[derive(Debug, Drop)]
pub struct Config {
    /// The number that ties messages to the configuration that they are about.
    pub version: u32,
    /// What is loaded at first.
    pub load: Items<Entry>,
    /// The places in `load` of the entries that are watched.
    pub watch: Items<usize>,
}

/// A loader of files, which is not part of this repository: nothing here implements or calls it, and
/// no clause speaks of it.
pub trait Handle {
    /// Loads and watches by another configuration from now on.
    fn set_config(&mut self, config: Config);

    /// The contents at a path have changed, and are to be loaded again.
    fn invalidate(&mut self, path: AbsPathBuf);

    /// The contents at a path, or None where there are none.
    fn load_sync(&mut self, path: AbsPath<'_>) -> Result<Option<Vec<u8>>, AllocError>;
}

impl TryClone for Config {
    fn try_clone(&self, alloc: Global) -> Result<Self, AllocError> {
        Ok(Config {
            version: self.version,
            load: self.load.try_clone(alloc)?,
            watch: Items::new(self.watch.as_slice().to_vec(alloc)?),
        })
    }
}
