//! Entries of a loader's configuration: files by their paths, or what lies below directories.

ghost use Rattle.std.specs.Prelude.{◌≡◌, ◌↔◌, ◌∷◌, [], IfOk, IsFalse, IsTrue, MatchOption, codes, map, option_map};
ghost use Rattle.std.specs.List.{All, list_any};
ghost use Rattle.base_text_paths.specs.AbsPath.{abs_text};
ghost use Rattle.base_text_paths.specs.PathOrder.{path_eq};
ghost use Rattle.vfs_core_loader.specs.Entries.{EntryHoldsDirectory, EntryHoldsFile, HoldsFile, IsBelow, IsIncluded, IsLongest, longer, rust_files_below};

use base_text_paths::{AbsPath, AbsPathBuf, Items, Text, TryClone};
use std::alloc::{AllocError, Global};

/// Files on the file system.
#[derive(Debug, Drop)]
pub enum Entry {
    /// These files.
    Files(Items<AbsPathBuf>),
    /// The files below directories.
    Directories(Directories),
}

/// The files with some extensions that lie below some directories.
#[derive(Debug, Drop)]
pub struct Directories {
    /// Each without a dot. A file without an extension has the empty one.
    pub extensions: Items<Text>,
    pub include: Items<AbsPathBuf>,
    /// Of an include and an exclude that hold a path the longer counts, and the exclude if they are
    /// equal.
    pub exclude: Items<AbsPathBuf>,
}

impl Entry {
    /// The Rust files below a directory, except those below its `.git`.
    pub fn rs_files_recursively(alloc: Global, base: AbsPathBuf) -> Result<Entry, AllocError>
        ensures { IfOk result (λ entry. entry ≡ rust_files_below base (codes ".git" ∷ [])) }
    {
        rust_files_below(alloc, base, &[".git"])
    }

    /// The Rust files of a package that is edited: except those below its `.git` and `target`.
    pub fn local_cargo_package(alloc: Global, base: AbsPathBuf) -> Result<Entry, AllocError>
        ensures { IfOk result (λ entry.
            entry ≡ rust_files_below base (codes ".git" ∷ codes "target" ∷ [])) }
    {
        rust_files_below(alloc, base, &[".git", "target"])
    }

    /// The Rust files of a package that others depend on, except those below its `.git`. As in the
    /// original, `/tests`, `/examples` and `/benches` are absolute and so no directories of the
    /// package.
    pub fn cargo_package_dependency(alloc: Global, base: AbsPathBuf) -> Result<Entry, AllocError>
        ensures { IfOk result (λ entry. entry ≡ rust_files_below base
            (codes ".git" ∷ codes "/tests" ∷ codes "/examples" ∷ codes "/benches" ∷ [])) }
    {
        rust_files_below(alloc, base, &[".git", "/tests", "/examples", "/benches"])
    }

    /// Whether the entry holds a file.
    pub fn contains_file(&self, path: AbsPath<'_>) -> bool
        ensures { IsTrue result ↔ EntryHoldsFile self.now (abs_text path.entry) }
    {
        match self {
            Entry::Files(files) => is_one_of(files.as_slice(), path),
            Entry::Directories(directories) => directories.contains_file(path),
        }
    }

    /// Whether the entry holds a directory. An entry of files holds none.
    pub fn contains_dir(&self, path: AbsPath<'_>) -> bool
        ensures { IsTrue result ↔ EntryHoldsDirectory self.now (abs_text path.entry) }
    {
        match self {
            Entry::Files(_) => false,
            Entry::Directories(directories) => directories.contains_dir(path),
        }
    }
}

impl Directories {
    /// No directories.
    pub fn new(alloc: Global) -> Directories
        ensures { result ≡ record { extensions = []; include = []; exclude = [] } }
    {
        Directories {
            extensions: Items::empty(alloc),
            include: Items::empty(alloc),
            exclude: Items::empty(alloc),
        }
    }

    /// Whether a file with a listed extension is included.
    pub fn contains_file(&self, path: AbsPath<'_>) -> bool
        ensures { IsTrue result ↔ HoldsFile self.now (abs_text path.entry) }
    {
        let extension = path.extension().unwrap_or("");
        let is_listed = self
            .extensions
            .as_slice()
            .iter()
            .any(|it| it.as_str() == extension);
        is_listed && self.contains_dir(path)
    }

    /// Whether a directory is included, whatever its name ends in.
    pub fn contains_dir(&self, path: AbsPath<'_>) -> bool
        ensures { IsTrue result ↔ IsIncluded self.now (abs_text path.entry) }
    {
        match longest_above(self.include.as_slice(), path) {
            None => false,
            Some(include) => !is_excluded(self.exclude.as_slice(), path, include),
        }
    }
}

// Whether a path is one of these.
fn is_one_of(files: &[AbsPathBuf], path: AbsPath<'_>) -> bool
    ensures { result ≡ list_any (λ file. path_eq file (abs_text path.entry)) files.now }
{
    files.iter().any(|file| file.as_path() == path)
}

// The longest of the directories that a path lies below.
fn longest_above<'d>(directories: &'d [AbsPathBuf], path: AbsPath<'_>) -> Option<AbsPath<'d>>
    ensures { MatchOption result
        (All (λ directory. IsBelow (abs_text path.entry) directory → ⊥) directories.now)
        (λ longest. IsLongest directories.now (abs_text path.entry) (abs_text longest)) }
{
    let mut longest: Option<AbsPath<'d>> = None;
    for directory in directories {
        let directory = directory.as_path();
        if path.starts_with(directory) {
            longest = Some(longer(longest, directory));
        }
    }
    longest
}

// The longer of two directories above one path, the second if there is one only.
fn longer<'d>(longest: Option<AbsPath<'d>>, directory: AbsPath<'d>) -> AbsPath<'d>
    ensures { abs_text result
        ≡ longer (option_map abs_text longest.entry) (abs_text directory.entry) }
{
    match longest {
        None => directory,
        Some(it) => {
            if directory.starts_with(it) {
                directory
            } else {
                it
            }
        }
    }
}

// Whether a path lies below an exclude that lies below the include.
fn is_excluded(excludes: &[AbsPathBuf], path: AbsPath<'_>, include: AbsPath<'_>) -> bool
    ensures { IsFalse result ↔ All (λ exclude. IsBelow (abs_text path.entry) exclude
        → ¬ (IsBelow exclude (abs_text include.entry))) excludes.now }
{
    excludes.iter().any(|exclude| path.starts_with(exclude.as_path())
        && exclude.as_path().starts_with(include))
}

// The Rust files below a directory, except those below its joins with some paths.
fn rust_files_below(alloc: Global, base: AbsPathBuf, tails: &[&str]) -> Result<Entry, AllocError>
    ensures { IfOk result (λ entry. entry ≡ rust_files_below base (map (λ tail. tail.now) tails.now)) }
{
    let mut exclude = Vec::with_capacity(alloc, tails.len())?;
    for tail in tails {
        exclude.push(base.as_path().join(alloc, tail)?)?;
    }
    let extension = Text::of_str(alloc, "rs")?;
    Ok(Entry::Directories(Directories {
        extensions: Items::new(vec![in alloc; extension]?),
        include: Items::new(vec![in alloc; base]?),
        exclude: Items::new(exclude),
    }))
}

impl TryClone for Entry {
    fn try_clone(&self, alloc: Global) -> Result<Self, AllocError> {
        match self {
            Entry::Files(files) => Ok(Entry::Files(files.try_clone(alloc)?)),
            Entry::Directories(directories) => {
                Ok(Entry::Directories(directories.try_clone(alloc)?))
            }
        }
    }
}

impl TryClone for Directories {
    fn try_clone(&self, alloc: Global) -> Result<Self, AllocError> {
        Ok(Directories {
            extensions: self.extensions.try_clone(alloc)?,
            include: self.include.try_clone(alloc)?,
            exclude: self.exclude.try_clone(alloc)?,
        })
    }
}
