//! Why a dependency is refused: a path of the graph that it would close to a cycle.

ghost use Rattle.std.specs.Prelude.{◌≡◌, map, IfOk, Some};
ghost use Rattle.std.specs.Fmt.{DisplaysOnOk};
ghost use Rattle.std.specs.Option.{option_copied};
ghost use Rattle.crate_graph.specs.Cyclic.{back_text, end_text, names, numbers, shown_of, step_text};

use base_text_paths::{Items, TryClone};
use crate_graph_values::{CrateBuilder, CrateBuilderId, CrateDisplayName};
use std::alloc::{AllocError, Global};
use std::error::Error;
use std::fmt;
use std::marker::Model;

/// A path from the crate that was to get a dependency back to the crate that it was to depend on:
/// each crate of the path depends on the one before it.
#[derive(Debug, PartialEq, Eq, Drop)]
pub struct CyclicDependenciesError {
    path: Items<(CrateBuilderId, Option<CrateDisplayName>)>,
}

impl Model for CyclicDependenciesError {
    ghost use Rattle.std.specs.Prelude.{List};
    ghost use Rattle.crate_graph.specs.Cyclic.{Step};

    ghost Value = { List Step };

    ghost view = { λ a. a.path };

    ghost inverse = { λ path. record { path = path } };
}

impl CyclicDependenciesError {
    /// The path along numbers of crates.
    pub(crate) fn along(
        alloc: Global,
        crates: &[CrateBuilder],
        path: &[u32],
    ) -> Result<Self, AllocError>
        ensures numbers { IfOk result (λ error. numbers error ≡ path.now) }
        ensures names { IfOk result (λ error. names error ≡ map (shown_of crates.now) path.now) }
    {
        let mut steps = Vec::new(alloc);
        for id in path {
            let name = names_of(alloc, crates, *id)?;
            steps.push((CrateBuilderId::from_raw(*id), name))?;
        }
        Ok(CyclicDependenciesError {
            path: Items::new(steps),
        })
    }

    /// The crates of the path and the names that they are shown under.
    pub fn path(&self) -> &[(CrateBuilderId, Option<CrateDisplayName>)]
        ensures { result.now ≡ self.now }
    {
        self.path.as_slice()
    }
}

// The names that the crate of a number is shown under.
fn names_of(
    alloc: Global,
    crates: &[CrateBuilder],
    id: u32,
) -> Result<Option<CrateDisplayName>, AllocError>
    ensures { IfOk result (λ name. name ≡ shown_of crates.now id) }
{
    match crates.get(id as usize) {
        Some(krate) => krate.extra.display_name.try_clone(alloc),
        None => Ok(None),
    }
}

// Writes a crate of a path: its name and its number, or its number alone.
fn write_step<W: fmt::Write>(
    f: &mut fmt::Formatter<W>,
    step: &(CrateBuilderId, Option<CrateDisplayName>),
) -> fmt::Result
    ensures { DisplaysOnOk W.write_str_gives f.old result (Some (step_text step.now)) f.new }
{
    let id = step.0.into_raw();
    match &step.1 {
        Some(name) => write!(f, "{name}({id})"),
        None => write!(f, "{id}"),
    }
}

// Writes an end of a path.
fn write_end<W: fmt::Write>(
    f: &mut fmt::Formatter<W>,
    end: Option<&(CrateBuilderId, Option<CrateDisplayName>)>,
) -> fmt::Result
    ensures { DisplaysOnOk W.write_str_gives f.old result
        (Some (end_text (option_copied end.entry))) f.new }
{
    match end {
        Some(step) => write_step(f, step),
        None => Ok(()),
    }
}

// Writes a path from its last crate to its first, joined by arrows.
fn write_back<W: fmt::Write>(
    f: &mut fmt::Formatter<W>,
    path: &[(CrateBuilderId, Option<CrateDisplayName>)],
) -> fmt::Result
    ensures { DisplaysOnOk W.write_str_gives f.old result (Some (back_text path.now)) f.new }
{
    let Some((last, before)) = path.split_last() else {
        return Ok(());
    };
    write_step(f, last)?;
    for step in before.iter().rev() {
        f.write_str(" -> ")?;
        write_step(f, step)?;
    }
    Ok(())
}

impl fmt::Display for CyclicDependenciesError {
    ghost use Rattle.crate_graph.specs.Cyclic.{cyclic_text};

    ghost output = { λ error. Some (cyclic_text error) };

    fn fmt<W: fmt::Write>(&self, f: &mut fmt::Formatter<W>) -> fmt::Result {
        let path = self.path.as_slice();
        f.write_str("cyclic deps: ")?;
        write_end(f, path.first())?;
        f.write_str(" -> ")?;
        write_end(f, path.last())?;
        f.write_str(", alternative path: ")?;
        write_back(f, path)
    }
}

impl Error for CyclicDependenciesError {}

impl TryClone for CyclicDependenciesError {
    fn try_clone(&self, alloc: Global) -> Result<Self, AllocError> {
        let path = self.path.try_clone(alloc)?;
        Ok(CyclicDependenciesError { path })
    }
}

/// Why a dependency was not added.
#[derive(Debug, PartialEq, Eq, Drop)]
pub enum AddDepError {
    /// The crate to depend on depends on this one already, over whatever others.
    Cyclic(CyclicDependenciesError),
    OutOfMemory,
}

impl fmt::Display for AddDepError {
    ghost use Rattle.crate_graph.specs.Refused.{add_dep_error_text};

    ghost output = { λ error. Some (add_dep_error_text error) };

    fn fmt<W: fmt::Write>(&self, f: &mut fmt::Formatter<W>) -> fmt::Result {
        match self {
            AddDepError::Cyclic(_) => f.write_str("Cyclic"),
            AddDepError::OutOfMemory => f.write_str("OutOfMemory"),
        }
    }
}

impl Error for AddDepError {}

impl TryClone for AddDepError {
    fn try_clone(&self, alloc: Global) -> Result<Self, AllocError> {
        match self {
            AddDepError::Cyclic(error) => {
                let error = error.try_clone(alloc)?;
                Ok(AddDepError::Cyclic(error))
            }
            AddDepError::OutOfMemory => Ok(AddDepError::OutOfMemory),
        }
    }
}

impl From<AllocError> for AddDepError {
    ghost use Rattle.crate_graph.specs.declared.cyclic.AddDepError.TheVariants.{OutOfMemory};

    ghost from_gives = { λ _ e. e ≡ OutOfMemory };

    fn from(_error: AllocError) -> Self {
        AddDepError::OutOfMemory
    }
}
