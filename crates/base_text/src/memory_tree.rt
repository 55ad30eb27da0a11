//! A tree in memory. Its files stand in the order of their paths, in which what is below a directory
//! stands together right behind it, so that a question costs a look-up for each name of its answer.

ghost use Rattle.std.specs.Prelude.{◌≡◌, ℕ, List, [], ◌∷◌, ◌++◌, ◌||◌, Some, if◌then◌else◌, IfOk, IfSome, OnErr, OnOk};
ghost use Rattle.std.specs.List.Sorted.{IsStrictlySortedBy};
ghost use Rattle.std.specs.Map.{keys_of};
ghost use Rattle.std.specs.Option.{option_copied, option_map};
ghost use Rattle.base_text_paths.specs.AbsPath.{abs_text};
ghost use Rattle.base_text_paths.specs.PathOrder.{path_cmp};
ghost use Rattle.base_text_paths.specs.Paths.{components, is_prefix, normal};
ghost use Rattle.base_text_paths.specs.Rows.{Lacks};
ghost use Rattle.base_text.specs.MemoryTree.{first_after, first_component, first_from, is_same_file, with_tree_file};
ghost use Rattle.base_text.specs.Tree.{entry_name, entry_names, file_text, holds_path, names_in};

use crate::tree::Tree;
use base_text_paths::paths::is_component;
use base_text_paths::{AbsPath, AbsPathBuf, Items, SharedText, Text, TryClone};
use std::alloc::{AllocError, Global};
use std::collections::BTreeMap;
use std::marker::Model;

/// A tree in memory, seen as its files in the order of their paths. A copy shares their texts.
#[derive(Drop)]
pub struct MemoryTree {
    alloc: Global,
    files: BTreeMap<AbsPathBuf, SharedText>,
}

impl Model for MemoryTree {
    ghost use Rattle.base_text.specs.Tree.{TreeFiles};

    ghost Value = { TreeFiles };

    ghost view = { λ a. a.files.entries };
}

impl MemoryTree {
    /// A tree with no files, which holds no memory.
    pub fn new(alloc: Global) -> Self
        ensures { result ≡ [] }
    {
        MemoryTree {
            alloc,
            files: BTreeMap::new(alloc),
        }
    }

    /// Puts a file with a copy of a text at the normal path, in place of an earlier one.
    pub fn insert(&mut self, path: AbsPathBuf, text: Text) -> Result<(), AllocError>
        ensures ok { OnOk result (self.new ≡ with_tree_file path text self.old) }
        ensures last_counts { OnOk result ((asked : List ℕ) → file_text self.new asked
            ≡ (if is_same_file asked path then Some text else file_text self.old asked)) }
        ensures one_more { OnOk result ((asked : List ℕ) → holds_path self.new asked
            ≡ (is_prefix (normal asked) (normal path) || holds_path self.old asked)) }
        ensures err { OnErr result (self.new ≡ self.old) }
    {
        let text = SharedText::of_str(self.alloc, text.as_str())?;
        self.insert_shared(path, text)
    }

    /// Puts a file at the normal path, in place of an earlier one. Its text stays shared.
    pub fn insert_shared(&mut self, path: AbsPathBuf, text: SharedText) -> Result<(), AllocError>
        ensures ok { OnOk result (self.new ≡ with_tree_file path text self.old) }
        ensures last_counts { OnOk result ((asked : List ℕ) → file_text self.new asked
            ≡ (if is_same_file asked path then Some text else file_text self.old asked)) }
        ensures one_more { OnOk result ((asked : List ℕ) → holds_path self.new asked
            ≡ (is_prefix (normal asked) (normal path) || holds_path self.old asked)) }
        ensures err { OnErr result (self.new ≡ self.old) }
    {
        let path = path.as_path().normalize(self.alloc)?;
        drop(self.files.insert(path, text)?);
        Ok(())
    }

    // The first file that does not come before a path.
    fn first_from(&self, path: &AbsPathBuf) -> Option<AbsPath<'_>>
        ensures first { option_map abs_text result ≡ first_from path.now self.now }
        ensures ordered { IsStrictlySortedBy path_cmp (keys_of self.now) }
    {
        let (file, _) = self.files.range(path..).next()?;
        Some(file.as_path())
    }

    // The first name in a directory that comes after a name.
    fn name_after(
        &self,
        alloc: Global,
        directory: AbsPath<'_>,
        name: &str,
    ) -> Result<Option<&str>, AllocError>
        requires { Lacks 47 name.now }
        ensures first { IfOk result (λ found. option_copied found
            ≡ first_after name.now (entry_names self.now (components (abs_text directory.entry)))) }
        ensures name { IfOk result (λ found. IfSome found (λ it. Lacks 47 it.now)) }
    {
        let start = path_behind(alloc, directory, name)?;
        match self.first_from(&start) {
            Some(file) => Ok(entry_name(directory, file)),
            None => Ok(None),
        }
    }
}

// The name of the entry of a directory that a file is, or lies below.
fn entry_name<'a>(directory: AbsPath<'_>, file: AbsPath<'a>) -> Option<&'a str>
    ensures { option_copied result
        ≡ entry_name (components (abs_text directory.entry)) (components (abs_text file.entry)) }
{
    let below = file.strip_prefix(directory)?;
    first_component(below.as_str())
}

fn first_component(text: &str) -> Option<&str>
    ensures { option_copied result ≡ first_component text.now }
{
    text.split('/').find(|part| is_component(part))
}

// The least path behind a name in a directory and behind all that lies below it.
fn path_behind(alloc: Global, directory: AbsPath<'_>, name: &str) -> Result<AbsPathBuf, AllocError>
    requires { Lacks 47 name.now }
    ensures { IfOk result (λ path. components path
        ≡ components (abs_text directory.entry) ++ (name.now ++ 0 ∷ []) ∷ []) }
{
    let mut tail = String::from_str(alloc, name)?;
    tail.push('\0')?;
    directory.join(alloc, tail.as_str())
}

impl TryClone for MemoryTree {
    fn try_clone(&self, alloc: Global) -> Result<Self, AllocError> {
        let mut files = BTreeMap::new(alloc);
        for (path, text) in self.files.iter() {
            drop(files.insert(path.try_clone(alloc)?, text.try_clone(alloc)?)?);
        }
        Ok(MemoryTree { alloc, files })
    }
}

impl Tree for MemoryTree {
    ghost files = { λ a. a };

    fn holds(&self, alloc: Global, path: AbsPath<'_>) -> Result<bool, AllocError>
        ensures { IfOk result (λ answer. answer ≡ holds_path self.now (abs_text path.entry)) }
    {
        let path = path.normalize(alloc)?;
        match self.first_from(&path) {
            Some(file) => Ok(file.starts_with(path.as_path())),
            None => Ok(false),
        }
    }

    fn lists(&self, alloc: Global, path: AbsPath<'_>) -> Result<Option<Items<Text>>, AllocError>
        ensures { IfOk result (λ answer. answer ≡ names_in self.now (abs_text path.entry)) }
    {
        let directory = path.normalize(alloc)?;
        let mut names = Vec::new(alloc);
        let mut last = "";
        while let Some(name) = self.name_after(alloc, directory.as_path(), last)? {
            names.push(Text::of_str(alloc, name)?)?;
            last = name;
        }
        if names.is_empty() {
            Ok(None)
        } else {
            Ok(Some(Items::new(names)))
        }
    }

    fn reads(&self, alloc: Global, path: AbsPath<'_>) -> Result<Option<Text>, AllocError>
        ensures { IfOk result (λ answer. answer ≡ file_text self.now (abs_text path.entry)) }
    {
        let file = path.normalize(alloc)?;
        match self.files.get(&file) {
            Some(text) => Ok(Some(Text::of_str(alloc, text.as_str())?)),
            None => Ok(None),
        }
    }
}
