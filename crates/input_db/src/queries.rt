//! What is asked of the crates of a database.

ghost use Rattle.std.specs.Prelude.{◌≡◌, ◌↔◌, ◌⊎◌, ℕ, ◌<◌, ◌∷◌, IfOk, Some, filter, length};
ghost use Rattle.std.specs.List.{All, Contains};
ghost use Rattle.std.specs.Option.{option_map};
ghost use Rattle.graph_base.specs.Reach.{Reaches};
ghost use Rattle.input_db.specs.Database.{with_crate_list};
ghost use Rattle.input_db_files.specs.EditionedFileId.{edition_of_file, file_of};
ghost use Rattle.input_db.specs.Identity.{crate_edges, input_in};
ghost use Rattle.input_db.specs.Channel.{channel_in};
ghost use Rattle.input_db.specs.Queries.{AreMarksOf, IsListedDependent, IsWithItselfFirst, is_marked, others};

use crate::crate_input::{BuiltCrateData, Crate};
use crate::source_database::SourceDatabase;
use base_text_paths::CfgOptions;
use crate_graph_values::{CrateWorkspaceData, Env, ExtraCrateData, ReleaseChannel};
use graph_base::Rows;
use input_db_files::{Durability, EditionedFileId};
use std::alloc::{AllocError, Global};

/// The crates that there are now, in the order in which they were stored. `set_in_db` stores each after
/// those that it depends on.
pub fn all_crates<D: SourceDatabase>(db: &D) -> &[Crate]
    ensures list { result.now ≡ (D.seen db.now).listed }
    ensures known { All (λ krate. krate < length (D.seen db.now).crates) (D.seen db.now).listed }
{
    db.all_crates_list()
}

/// Says which crates there are now. Each of them is there already, as `has_crate` reports.
pub fn set_all_crates_with_durability<D: SourceDatabase>(
    db: &mut D,
    crates: Vec<Crate>,
    durability: Durability,
)
    requires { All (λ krate. krate < length (D.seen db.old).crates) crates.items }
    ensures { D.seen db.new ≡ with_crate_list (D.seen db.old) crates.items durability }
{
    db.store_all_crates(crates, durability);
}

/// The channel that a crate's toolchain was released on: that which the pre-release of its version names, where it is known.
/// The crate is there, as `has_crate` reports.
pub fn toolchain_channel<D: SourceDatabase>(db: &D, krate: Crate) -> Option<ReleaseChannel>
    requires { krate < length (D.seen db.now).crates }
    ensures { result ≡ channel_in (D.seen db.now).crates krate }
{
    let version = krate.workspace_data(db).toolchain.as_ref()?;
    ReleaseChannel::from_text(version.as_version().pre.as_str())
}

// Each getter asks that the crate is there, as `has_crate` of the database reports.
impl Crate {
    pub fn data<D: SourceDatabase>(self, db: &D) -> &BuiltCrateData
        requires { self < length (D.seen db.now).crates }
        ensures { option_map (λ input. input.crate_data) (input_in (D.seen db.now).crates self)
            ≡ Some result.now }
    {
        &db.crate_input(self).crate_data
    }

    pub fn extra_data<D: SourceDatabase>(self, db: &D) -> &ExtraCrateData
        requires { self < length (D.seen db.now).crates }
        ensures { option_map (λ input. input.extra_data) (input_in (D.seen db.now).crates self)
            ≡ Some result.now }
    {
        &db.crate_input(self).extra_data
    }

    pub fn workspace_data<D: SourceDatabase>(self, db: &D) -> &CrateWorkspaceData
        requires { self < length (D.seen db.now).crates }
        ensures { option_map (λ input. input.workspace_data) (input_in (D.seen db.now).crates self)
            ≡ Some result.now }
    {
        db.crate_input(self).workspace_data.get()
    }

    pub fn cfg_options<D: SourceDatabase>(self, db: &D) -> &CfgOptions
        requires { self < length (D.seen db.now).crates }
        ensures { option_map (λ input. input.cfg_options) (input_in (D.seen db.now).crates self)
            ≡ Some result.now }
    {
        &db.crate_input(self).cfg_options
    }

    pub fn env<D: SourceDatabase>(self, db: &D) -> &Env
        requires { self < length (D.seen db.now).crates }
        ensures { option_map (λ input. input.env) (input_in (D.seen db.now).crates self)
            ≡ Some result.now }
    {
        &db.crate_input(self).env
    }

    /// The crate's root file, in the crate's edition.
    pub fn root_file_id<D: SourceDatabase>(self, db: &D) -> EditionedFileId
        requires { self < length (D.seen db.now).crates }
        ensures file { option_map (λ input. input.crate_data.root_file_id)
            (input_in (D.seen db.now).crates self) ≡ Some (file_of result) }
        ensures edition { option_map (λ input. input.crate_data.edition)
            (input_in (D.seen db.now).crates self) ≡ Some (edition_of_file result) }
    {
        let data = &db.crate_input(self).crate_data;
        EditionedFileId::new(data.root_file_id, data.edition)
    }

    /// The crates that a crate reaches over dependencies: itself first, then the others in no promised
    /// order.
    pub fn transitive_deps<D: SourceDatabase>(
        self,
        alloc: Global,
        db: &D,
    ) -> Result<Vec<Crate>, AllocError>
        requires { self < length (D.seen db.now).crates }
        ensures exact { IfOk result (λ crates. (krate : ℕ) → Contains crates.items krate
            ↔ Reaches (crate_edges (D.seen db.now).crates) self krate) }
        ensures once { IfOk result (λ crates. IsWithItselfFirst self crates.items) }
    {
        let table = db.crates_map();
        let reached = graph_base::reachable_nodes(alloc, table, table.number(self))?;
        itself_first(alloc, self, &reached)
    }

    /// The crates that reach a crate over dependencies, of those that there are now: itself first, then the
    /// others in no promised order.
    pub fn transitive_rev_deps<D: SourceDatabase>(
        self,
        alloc: Global,
        db: &D,
    ) -> Result<Vec<Crate>, AllocError>
        requires { self < length (D.seen db.now).crates }
        ensures exact { IfOk result (λ crates. (krate : ℕ) → Contains crates.items krate
            ↔ ((krate ≡ self) ⊎ IsListedDependent (D.seen db.now) krate self)) }
        ensures once { IfOk result (λ crates. IsWithItselfFirst self crates.items) }
    {
        let table = db.crates_map();
        let back = Rows::reversed(alloc, table)?;
        let reaching = graph_base::reachable_nodes(alloc, &back, table.number(self))?;
        let is_listed = listed_marks(alloc, table.len(), all_crates(db))?;
        let dependents = marked_among(alloc, &reaching, &is_listed)?;
        itself_first(alloc, self, &dependents)
    }
}

// Whether each number below a count is that of a crate of the list.
fn listed_marks(alloc: Global, count: usize, listed: &[Crate]) -> Result<Vec<bool>, AllocError>
    requires { All (λ krate. krate < count) listed.now }
    ensures count { IfOk result (λ marks. length marks.items ≡ count) }
    ensures listed { IfOk result (λ marks. AreMarksOf marks.items listed.now) }
{
    let mut marks = vec![in alloc; false; count]?;
    for krate in listed {
        marks[krate.place()] = true;
    }
    Ok(marks)
}

// The nodes that are marked, of some.
fn marked_among(alloc: Global, nodes: &[u32], marks: &[bool]) -> Result<Vec<u32>, AllocError>
    requires { All (λ node. node < length marks.now) nodes.now }
    ensures { IfOk result (λ marked. marked.items ≡ filter (is_marked marks.now) nodes.now) }
{
    let mut marked = Vec::new(alloc);
    for node in nodes {
        if marks[*node as usize] {
            marked.push(*node)?;
        }
    }
    Ok(marked)
}

// The crate, and then the other crates of the list.
fn itself_first(alloc: Global, krate: Crate, reached: &[u32]) -> Result<Vec<Crate>, AllocError>
    ensures { IfOk result (λ crates. crates.items ≡ krate ∷ others krate reached.now) }
{
    let mut crates = Vec::new(alloc);
    crates.push(krate)?;
    for node in reached {
        if *node as usize != krate.place() {
            crates.push(Crate::at(*node as usize))?;
        }
    }
    Ok(crates)
}
