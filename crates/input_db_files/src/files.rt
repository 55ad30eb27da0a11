//! The files of a database: their texts, the source roots, and which root each file is in.

ghost use Rattle.std.specs.Prelude.{◌≡◌, IsSome, OnErr, OnOk, Some, is_some};
ghost use Rattle.input_db_files.specs.Files.{SetsFileRoot, SetsRoot, SetsText, file_root_of, kept_durability};
ghost use Rattle.input_db_files.specs.Files.{no_file_tables, source_root_at, text_of_file};
ghost use Rattle.input_db_files.specs.Files.{stored_place, stored_root, stored_text};
ghost use Rattle.input_db_files.specs.Files.{with_file_root, with_root, with_same_durability, with_text};

use crate::durability::Durability;
use crate::inputs::{FileSourceRootInput, FileText, SourceRootInput};
use crate::source_root::{SourceRoot, SourceRootId};
use base_text_paths::{ByNumber, FileId, Text, TryClone};
use std::alloc::{AllocError, Global};
use std::marker::Model;

/// The texts of files, the source roots, and the roots of files.
#[derive(Debug, Drop)]
pub struct Files {
    alloc: Global,
    texts: ByNumber<FileText>,
    roots: ByNumber<SourceRootInput>,
    file_roots: ByNumber<FileSourceRootInput>,
}

impl Model for Files {
    ghost use Rattle.input_db_files.specs.Files.{FileTables, file_tables_code};

    ghost Value = { FileTables };

    ghost coded = { file_tables_code };

    ghost view = { λ a. record { texts = a.texts; roots = a.roots; file_roots = a.file_roots } };
}

impl Files {
    /// No texts and no roots.
    pub fn new(alloc: Global) -> Self
        ensures { result ≡ no_file_tables }
    {
        Files {
            alloc,
            texts: ByNumber::new(alloc),
            roots: ByNumber::new(alloc),
            file_roots: ByNumber::new(alloc),
        }
    }

    /// Whether a file has a text.
    pub fn has_text(&self, id: FileId) -> bool
        ensures { result ≡ is_some (text_of_file self.now id) }
    {
        self.texts.get(id.index()).is_some()
    }

    /// Whether a source root is there.
    pub fn has_root(&self, id: SourceRootId) -> bool
        ensures { result ≡ is_some (source_root_at self.now id) }
    {
        self.roots.get(id.0).is_some()
    }

    /// Whether a file has a source root.
    pub fn has_file_root(&self, id: FileId) -> bool
        ensures { result ≡ is_some (file_root_of self.now id) }
    {
        self.file_roots.get(id.index()).is_some()
    }

    /// The text of a file that has one, as `has_text` reports.
    pub fn file_text(&self, id: FileId) -> &FileText
        requires { IsSome (text_of_file self.now id) }
        ensures { text_of_file self.now id ≡ Some result.now }
    {
        self.texts.get(id.index()).unwrap()
    }

    /// A source root that is there, as `has_root` reports.
    pub fn source_root(&self, id: SourceRootId) -> &SourceRootInput
        requires { IsSome (source_root_at self.now id) }
        ensures { source_root_at self.now id ≡ Some result.now }
    {
        self.roots.get(id.0).unwrap()
    }

    /// The source root of a file that has one, as `has_file_root` reports.
    pub fn file_source_root(&self, id: FileId) -> &FileSourceRootInput
        requires { IsSome (file_root_of self.now id) }
        ensures { file_root_of self.now id ≡ Some result.now }
    {
        self.file_roots.get(id.index()).unwrap()
    }

    /// Sets a text. It is as durable as the one that was there, and `Low` where none was.
    pub fn set_file_text(&mut self, id: FileId, text: &str) -> Result<(), AllocError>
        ensures ok { OnOk result (self.new ≡ with_same_durability self.old id text.now) }
        ensures alone { OnOk result (SetsText self.old self.new id
            (stored_text id text.now (kept_durability (text_of_file self.old id)))) }
        ensures err { OnErr result (self.new ≡ self.old) }
    {
        let durability = match self.texts.get(id.index()) {
            Some(old) => old.durability,
            None => Durability::Low,
        };
        self.set_file_text_with_durability(id, text, durability)
    }

    #[tactic(auto, using(crate::proofs::Entries::get_set))]
    pub fn set_file_text_with_durability(
        &mut self,
        id: FileId,
        text: &str,
        durability: Durability,
    ) -> Result<(), AllocError>
        ensures ok { OnOk result (self.new ≡ with_text self.old id text.now durability) }
        ensures alone { OnOk result
            (SetsText self.old self.new id (stored_text id text.now durability)) }
        ensures err { OnErr result (self.new ≡ self.old) }
    {
        let text = Text::of_str(self.alloc, text)?;
        let stored = FileText {
            text,
            file_id: id,
            durability,
        };
        drop(self.texts.insert(id.index(), stored)?);
        Ok(())
    }

    #[tactic(auto, using(crate::proofs::Entries::get_set))]
    pub fn set_source_root_with_durability(
        &mut self,
        id: SourceRootId,
        root: SourceRoot,
        durability: Durability,
    ) -> Result<(), AllocError>
        ensures ok { OnOk result (self.new ≡ with_root self.old id root durability) }
        ensures alone { OnOk result (SetsRoot self.old self.new id (stored_root root durability)) }
        ensures err { OnErr result (self.new ≡ self.old) }
    {
        let input = SourceRootInput {
            source_root: root,
            durability,
        };
        drop(self.roots.insert(id.0, input)?);
        Ok(())
    }

    #[tactic(auto, using(crate::proofs::Entries::get_set))]
    pub fn set_file_source_root_with_durability(
        &mut self,
        id: FileId,
        root: SourceRootId,
        durability: Durability,
    ) -> Result<(), AllocError>
        ensures ok { OnOk result (self.new ≡ with_file_root self.old id root durability) }
        ensures alone { OnOk result
            (SetsFileRoot self.old self.new id (stored_place root durability)) }
        ensures err { OnErr result (self.new ≡ self.old) }
    {
        let input = FileSourceRootInput {
            source_root_id: root,
            durability,
        };
        drop(self.file_roots.insert(id.index(), input)?);
        Ok(())
    }
}

impl TryClone for Files {
    fn try_clone(&self, alloc: Global) -> Result<Self, AllocError> {
        let texts = self.texts.try_clone(alloc)?;
        let roots = self.roots.try_clone(alloc)?;
        let file_roots = self.file_roots.try_clone(alloc)?;
        Ok(Files {
            alloc,
            texts,
            roots,
            file_roots,
        })
    }
}
