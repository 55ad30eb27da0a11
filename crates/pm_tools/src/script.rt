//! What a build script says of its package.

ghost use Rattle.std.specs.Prelude.{◌≡◌, OnOk};
ghost use Rattle.crate_graph_values.specs.Env.{with_pairs};
ghost use Rattle.pm_tools.specs.Reading.{Leaves};
ghost use Rattle.pm_tools.specs.Script.{GivesAtom, GivesAtoms, named_atoms, output_after_script, output_with_dir};

use crate::build_error::BuildError;
use crate::library::absolute_path;
use base_text::{AbsPathBuf, CfgAtom, CfgError, Items, Text, TryClone, parse_cfg};
use cargo_msgs::BuildScript;
use crate_graph_values::Env;
use pm_cargo::BuildScriptOutput;
use std::alloc::{AllocError, AllocFailed, Global};
use std::mem;

/// Why some texts are no list of atoms.
#[derive(Debug, Drop)]
pub(crate) enum AtomsError {
    /// This one is no atom.
    Invalid(Text),
    OutOfMemory,
}

impl From<AllocError> for AtomsError {
    ghost use Rattle.std.specs.Prelude.{◌≡◌};
    ghost use Rattle.pm_tools.specs.declared.script.AtomsError.TheVariants.{OutOfMemory};

    ghost from_gives = { λ _ e. e ≡ OutOfMemory };

    fn from(_error: AllocError) -> AtomsError {
        AtomsError::OutOfMemory
    }
}

impl<T: Drop> From<AllocFailed<T>> for AtomsError {
    ghost use Rattle.std.specs.Prelude.{◌≡◌};
    ghost use Rattle.pm_tools.specs.declared.script.AtomsError.TheVariants.{OutOfMemory};

    ghost from_gives = { λ _ e. e ≡ OutOfMemory };

    fn from(_error: AllocFailed<T>) -> AtomsError {
        AtomsError::OutOfMemory
    }
}

// The atom that a text names.
fn atom_of(alloc: Global, text: &Text) -> Result<CfgAtom, AtomsError>
    ensures { GivesAtom result text.now }
{
    match parse_cfg(alloc, text.as_str()) {
        Ok(atom) => Ok(atom),
        Err(CfgError::BadCfg) => Err(AtomsError::Invalid(text.try_clone(alloc)?)),
        Err(CfgError::OutOfMemory) => Err(AtomsError::OutOfMemory),
    }
}

/// The atoms that some texts name, or the first text that names none.
pub(crate) fn atoms_of(alloc: Global, texts: &[Text]) -> Result<Items<CfgAtom>, AtomsError>
    ensures { GivesAtoms result (named_atoms texts.now) }
{
    let mut atoms = Vec::new(alloc);
    for text in texts {
        atoms.push(atom_of(alloc, text)?)?;
    }
    Ok(Items::new(atoms))
}

// Sets each variable in turn.
fn set_variables(envs: &mut Env, variables: Items<(Text, Text)>) -> Result<(), AllocError>
    ensures { OnOk result (envs.new ≡ with_pairs envs.old variables) }
{
    for (name, value) in variables.into_inner() {
        envs.set(name.into_inner(), value.into_inner())?;
    }
    Ok(())
}

// Gives an output its directory and its atoms.
fn set_directory(
    alloc: Global,
    output: &mut BuildScriptOutput,
    dir: AbsPathBuf,
    atoms: Items<CfgAtom>,
) -> Result<(), AllocError>
    ensures { OnOk result (output.new ≡ output_with_dir atoms output.old dir) }
{
    let name = String::from_str(alloc, "OUT_DIR")?;
    let value = String::from_str(alloc, dir.as_str())?;
    output.envs.set(name, value)?;
    output.out_dir = Some(dir);
    output.cfgs = atoms;
    Ok(())
}

/// Takes a build script that has these atoms. Its variables are moved.
#[tactic(auto, unfolding(crate::specs::Script::output_after_script))]
pub(crate) fn take_script(
    alloc: Global,
    script: &mut BuildScript,
    atoms: Items<CfgAtom>,
    output: &mut BuildScriptOutput,
) -> Result<(), BuildError>
    ensures { Leaves result output.new (output_after_script script.old atoms output.old) }
{
    let variables = mem::replace(&mut script.env, Items::empty(alloc));
    set_variables(&mut output.envs, variables)?;
    if script.out_dir.as_str().is_empty() {
        return Ok(());
    }
    let dir = absolute_path(alloc, script.out_dir.as_str())?;
    set_directory(alloc, output, dir, atoms)?;
    Ok(())
}
