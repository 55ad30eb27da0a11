//! Where the libraries of procedural macros go when their crates get new numbers.

ghost use Rattle.std.specs.Prelude.{◌≡◌, ◌<◌, length, IfOk};
ghost use Rattle.std.specs.BTreeMap as tree;
ghost use Rattle.std.specs.List.{All};
ghost use Rattle.base_text_paths.specs.Arena.{number_of};
ghost use Rattle.crate_graph.specs.Extend.{Id, moved_entry, new_id_at};

use crate::graph::renaming::new_id_at;
use base_text_paths::{AbsPathBuf, Text, TryClone};
use crate_graph_values::{CrateBuilderId, ProcMacroLoadingError, ProcMacroPaths};
use std::alloc::{AllocError, Global};
use std::collections::BTreeMap;

// A copy of what is known of a crate's library.
fn copy_of(
    alloc: Global,
    library: &Result<(Text, AbsPathBuf), ProcMacroLoadingError>,
) -> Result<Result<(Text, AbsPathBuf), ProcMacroLoadingError>, AllocError>
    ensures { IfOk result (λ copy. copy ≡ library.now) }
{
    match library {
        Ok((name, path)) => {
            let name = name.try_clone(alloc)?;
            let path = path.try_clone(alloc)?;
            Ok(Ok((name, path)))
        }
        Err(error) => {
            let error = error.try_clone(alloc)?;
            Ok(Err(error))
        }
    }
}

// The libraries under the new numbers of their crates: of two under one, that of the greater old one stays.
pub(super) fn renumber_macros(
    alloc: Global,
    new_numbers: &[u32],
    macros: &ProcMacroPaths,
) -> Result<ProcMacroPaths, AllocError>
    requires { All (λ id. number_of id < length new_numbers.now) (tree.keys macros.now) }
    ensures { IfOk result (λ new. (id : Id)
        → tree.get ⟦<CrateBuilderId as Ord>⟧.cmp new id
        ≡ moved_entry (new_id_at new_numbers.now) macros.now.entries id) }
{
    let mut new_macros = BTreeMap::new(alloc);
    for (id, library) in macros.iter() {
        let library = copy_of(alloc, library)?;
        drop(new_macros.insert(new_id_at(new_numbers, *id), library)?);
    }
    Ok(new_macros)
}
