//! A flush.

ghost use Rattle.std.specs.Prelude.{◌≡◌, ◌<◌, ◌+◌, ◌^◌, [], OnErr, OnOk, length};
ghost use Rattle.vfs_core.specs.Files.{existing_files};
ghost use Rattle.vfs_sets.specs.Probes.{RaisesAtMost, most_probes};
ghost use Rattle.input_db.specs.SetInDb.{KeepsFiles};
ghost use Rattle.live_page.specs.Refresh.{GivesCrates, KeepsIdentities, Refreshes};

use crate::changes::{give_changes, give_roots};
use crate::source_roots::source_roots;
use base_text::{Ledger, Steps};
use crate_graph::CrateGraphBuilder;
use crate_graph_values::CrateBuilderId;
use input_db::{InputDb, set_in_db};
use std::alloc::{AllocError, Global};
use vfs_core::Vfs;
use vfs_sets::FileRoot;
use vfs_sets::file_root::file_sets;

/// Brings the files that exist, by the sets of these roots, what has changed of them since the last flush, and the crates of a
/// graph, where there is one, into a database. Each prefix that is tried to place a file is a step. There are fewer than
/// 2^32 - 1 roots. When out of memory the changes may be lost, and no more is said of the database.
pub fn refresh<L: Ledger>(
    alloc: Global,
    files: &mut Vfs,
    db: &mut InputDb,
    roots: &[FileRoot],
    graph: Option<CrateGraphBuilder>,
    steps: &mut Steps<L>,
) -> Result<(), AllocError>
    requires { length roots.now + 1 < 2 ^ 32 }
    ensures ok { OnOk result (Refreshes roots.now files.old db.old db.new) }
    ensures crates { OnOk result (GivesCrates ⟦<CrateBuilderId as Ord>⟧.cmp graph db.old db.new) }
    ensures stable { OnOk result (KeepsIdentities db.old.crates db.new.crates) }
    ensures files { OnOk result (files.new ≡ record files.old { batch = [] }) }
    ensures err { OnErr result (files.new ≡ record files.old { batch = files.new.batch }) }
    ensures most { RaisesAtMost (most_probes (existing_files files.old))
        (L.count steps.old.ledger) (L.count steps.new.ledger) }
{
    let config = file_sets(alloc, roots)?;
    let sets = config.partition_counted(alloc, files, steps)?;
    let roots = source_roots(alloc, roots, sets)?;
    give_roots(alloc, db, roots)?;
    let changes = files.take_changes();
    give_changes(alloc, db, changes)?;
    set_graph(alloc, db, graph)
}

// Sets the crates of a graph, where there is one.
fn set_graph(
    alloc: Global,
    db: &mut InputDb,
    graph: Option<CrateGraphBuilder>,
) -> Result<(), AllocError>
    ensures crates { OnOk result (GivesCrates ⟦<CrateBuilderId as Ord>⟧.cmp graph db.old db.new) }
    ensures beside { OnOk result (KeepsFiles db.old db.new) }
{
    match graph {
        None => Ok(()),
        Some(graph) => {
            set_in_db(alloc, graph, db)?;
            Ok(())
        }
    }
}
