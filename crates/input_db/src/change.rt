//! A change of a database: source roots that are given, the new texts of files, and a graph of crates.

ghost use Rattle.std.specs.Prelude.{◌≡◌, ◌<◌, ◌^◌, [], ◌∷◌, ◌++◌, IfOk, IfSome, None, OnErr, OnOk, Some};
ghost use Rattle.std.specs.Prelude.{length, string_bytes, true};
ghost use Rattle.std.specs.Option.{option_map};
ghost use Rattle.input_db.specs.Applied.{database_after_change};
ghost use Rattle.input_db.specs.Change.{IsChanged, SetsCrates, fits, fits_file, given_roots};

use crate::applying::{fits_file, give_roots, set_texts};
use crate::lowering::{CratesIdMap, set_in_db};
use crate::source_database::SourceDatabase;
use base_text_paths::{FileId, Items, Text, TryClone};
use crate_graph::CrateGraphBuilder;
use crate_graph_values::CrateBuilderId;
use input_db_files::SourceRoot;
use std::alloc::{AllocError, Global};
use std::mem;

/// What changed: source roots, where they are given, files with their new texts, and the crates.
#[derive(Drop)]
pub struct FileChange {
    alloc: Global,
    /// All source roots there are now. Where none are given the roots stay.
    pub roots: Option<Items<SourceRoot>>,
    /// A file that was deleted has no text.
    pub files_changed: Items<(FileId, Option<Text>)>,
    /// All crates there are now. Where no graph is given the crates stay.
    pub crate_graph: Option<CrateGraphBuilder>,
}

impl FileChange {
    /// Nothing changed.
    pub fn new(alloc: Global) -> Self
        ensures roots { result.roots ≡ None }
        ensures files_changed { result.files_changed ≡ [] }
        ensures crate_graph { result.crate_graph ≡ None }
    {
        FileChange {
            alloc,
            roots: None,
            files_changed: Items::empty(alloc),
            crate_graph: None,
        }
    }

    /// All source roots there are now. The place of each is its number.
    pub fn set_roots(&mut self, roots: Vec<SourceRoot>)
        ensures { self.new ≡ record self.old { roots = Some roots.items } }
    {
        self.roots = Some(Items::new(roots));
    }

    /// All crates there are now.
    pub fn set_crate_graph(&mut self, graph: CrateGraphBuilder)
        ensures { self.new ≡ record self.old { crate_graph = Some graph } }
    {
        self.crate_graph = Some(graph);
    }

    /// A file has a new text, or was deleted where there is none.
    pub fn change_file(
        &mut self,
        file_id: FileId,
        new_text: Option<String>,
    ) -> Result<(), AllocError>
        ensures ok { OnOk result (self.new ≡ record self.old {
          files_changed = self.old.files_changed
              ++ (file_id, option_map string_bytes new_text) ∷ [];
        }) }
        ensures err { OnErr result (self.new ≡ self.old) }
    {
        let mut changed = mem::replace(
            &mut self.files_changed,
            Items::empty(self.alloc),
        ).into_inner();
        let answer = push_change(&mut changed, file_id, new_text.map(Text::new));
        self.files_changed = Items::new(changed);
        answer
    }
}

impl FileChange {
    /// Whether each file that changed will have a source root that is there: it is in one of the given
    /// roots, or has one already that is there or is given.
    pub fn fits<D: SourceDatabase>(&self, db: &D) -> bool
        ensures { result ≡ fits (D.seen db.now).files self.now }
    {
        let roots = match &self.roots {
            Some(roots) => roots.as_slice(),
            None => &[],
        };
        let files = db.files();
        self.files_changed
            .as_slice()
            .iter()
            .all(|changed| fits_file(files, roots, changed.0))
    }

    /// Whether a file will have a source root that is there, as `fits` asks of each file that changed.
    pub fn fits_file<D: SourceDatabase>(&self, db: &D, file: FileId) -> bool
        ensures { result ≡ fits_file (D.seen db.now).files (given_roots self.now) file }
    {
        match &self.roots {
            Some(roots) => fits_file(db.files(), roots.as_slice(), file),
            None => fits_file(db.files(), &[], file),
        }
    }

    /// Makes the change: the given roots with the roots of their files, the lists of roots, then the
    /// texts, and last the crates, where a graph is given. The answer is then the crate that each of
    /// the graph's is.
    pub fn apply<D: SourceDatabase>(
        self,
        alloc: Global,
        db: &mut D,
    ) -> Result<Option<CratesIdMap>, AllocError>
        requires fits { fits (D.seen db.old).files self ≡ true }
        requires few { IfSome self.roots (λ roots. length roots < 2 ^ 32) }
        ensures ok { OnOk result (IsChanged self (D.seen db.old) (D.seen db.new)) }
        ensures steps { IfOk result (SetsCrates ⟦<CrateBuilderId as Ord>⟧.cmp self.crate_graph
            (database_after_change self (D.seen db.old)) (D.seen db.new)) }
    {
        let graph = self.make(alloc, db)?;
        Ok(set_crates(alloc, graph, db)?)
    }

    // Makes the change except for the crates, and returns their graph.
    fn make<D: SourceDatabase>(
        self,
        alloc: Global,
        db: &mut D,
    ) -> Result<Option<CrateGraphBuilder>, AllocError>
        requires { IfSome self.roots (λ roots. length roots < 2 ^ 32) }
        ensures applied { OnOk result (D.seen db.new ≡ database_after_change self (D.seen db.old)) }
        ensures graph { IfOk result (λ graph. graph ≡ self.crate_graph) }
    {
        let FileChange {
            roots,
            files_changed,
            crate_graph,
            ..
        } = self;
        match roots {
            Some(roots) => give_roots(alloc, db, roots)?,
            None => {}
        }
        set_texts(db, files_changed)?;
        Ok(crate_graph)
    }
}

// Sets the crates of a graph, where one is given.
fn set_crates<D: SourceDatabase>(
    alloc: Global,
    graph: Option<CrateGraphBuilder>,
    db: &mut D,
) -> Result<Option<CratesIdMap>, AllocError>
    ensures { IfOk result (SetsCrates ⟦<CrateBuilderId as Ord>⟧.cmp graph (D.seen db.old)
        (D.seen db.new)) }
{
    match graph {
        None => Ok(None),
        Some(graph) => {
            let ids = set_in_db(alloc, graph, db)?;
            Ok(Some(ids))
        }
    }
}

impl TryClone for FileChange {
    fn try_clone(&self, alloc: Global) -> Result<Self, AllocError> {
        let roots = self.roots.try_clone(alloc)?;
        let files_changed = self.files_changed.try_clone(alloc)?;
        let crate_graph = self.crate_graph.try_clone(alloc)?;
        Ok(FileChange {
            alloc,
            roots,
            files_changed,
            crate_graph,
        })
    }
}

// Appends a file with its new text.
fn push_change(
    changed: &mut Vec<(FileId, Option<Text>)>,
    file_id: FileId,
    new_text: Option<Text>,
) -> Result<(), AllocError>
    ensures ok { OnOk result (changed.new.items ≡ changed.old.items ++ (file_id, new_text) ∷ []) }
    ensures err { OnErr result (changed.new.items ≡ changed.old.items) }
{
    changed.push((file_id, new_text))?;
    Ok(())
}
