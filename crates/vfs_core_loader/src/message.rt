//! What a loader says.

ghost use Rattle.std.specs.Prelude.{◌≡◌, IfOk};

use base_text_paths::{AbsPathBuf, Items, TryClone};
use std::alloc::{AllocError, Global};

/// How far a loader is.
#[derive(Clone, Copy, Debug, PartialEq, Eq)]
pub enum LoadingProgress {
    Started,
    /// So many files are loaded.
    Progress(usize),
    Finished,
}

/// A path with what was found there, or None where there was nothing.
pub type LoadedFile = (AbsPathBuf, Option<Items<u8>>);

/// A message of a loader.
#[derive(Debug, Drop)]
pub enum Message {
    /// Files are being loaded.
    Progress {
        /// How many there are to load.
        n_total: usize,
        n_done: LoadingProgress,
        /// The directory that is being loaded, if one is.
        dir: Option<AbsPathBuf>,
        /// The number of the configuration by which they are loaded.
        config_version: u32,
    },
    /// Files were loaded for the first time.
    Loaded {
        files: Items<LoadedFile>,
    },
    /// Files were loaded again.
    Changed {
        files: Items<LoadedFile>,
    },
}

impl TryClone for LoadingProgress {
    fn try_clone(&self, _alloc: Global) -> Result<Self, AllocError> {
        Ok(*self)
    }
}

impl TryClone for Message {
    fn try_clone(&self, alloc: Global) -> Result<Self, AllocError> {
        match self {
            Message::Progress {
                n_total,
                n_done,
                dir,
                config_version,
            } => Ok(Message::Progress {
                n_total: *n_total,
                n_done: *n_done,
                dir: dir.try_clone(alloc)?,
                config_version: *config_version,
            }),
            Message::Loaded { files } => Ok(Message::Loaded {
                files: copy_files(alloc, files.as_slice())?,
            }),
            Message::Changed { files } => Ok(Message::Changed {
                files: copy_files(alloc, files.as_slice())?,
            }),
        }
    }
}

// Copies of files with their contents.
fn copy_files(alloc: Global, files: &[LoadedFile]) -> Result<Items<LoadedFile>, AllocError>
    ensures { IfOk result (λ copies. copies ≡ files.now) }
{
    let mut copies = Vec::with_capacity(alloc, files.len())?;
    for (path, contents) in files {
        copies.push((path.try_clone(alloc)?, copy_contents(alloc, contents)?))?;
    }
    Ok(Items::new(copies))
}

fn copy_contents(
    alloc: Global,
    contents: &Option<Items<u8>>,
) -> Result<Option<Items<u8>>, AllocError>
    ensures { IfOk result (λ copy. copy ≡ contents.now) }
{
    match contents {
        None => Ok(None),
        Some(bytes) => Ok(Some(Items::new(bytes.as_slice().to_vec(alloc)?))),
    }
}
