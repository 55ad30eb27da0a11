//! The root of a workspace, which cargo locates for the manifest of one of its packages.

ghost use Rattle.std.specs.Prelude.{◌≡◌, IfOk};
ghost use Rattle.pm_lower_load.specs.Loading.{Gives, of_reading};
ghost use Rattle.pm_lower_load.specs.Located as spec;
ghost use Rattle.pm_lower_load.specs.Located.{locate_words, located_root_at, root_named};
ghost use Rattle.pm_cargo_reading.specs.Packages.{absolute_manifest};
ghost use Rattle.pm_tools_ask.specs.Ask.{means_of};

use crate::load_error::LoadError;
use base_text::{ManifestPath, Runner, Text, Tool, Tree, TryClone};
use base_text_outside::command_words::push_word;
use json_fields::{ReadError, ReadJson, members, of_text, required_member};
use pm_cargo_reading::absolute_path;
use pm_tools_ask::{Ask, Sysroot, serving_answer};
use serde_json::Value;
use std::alloc::{AllocError, Global};

/// What `cargo locate-project` answers.
#[derive(Debug, Drop)]
pub(crate) struct LocatedRoot {
    root: Text,
}

#[tactic(auto, unfolding(crate::specs::Located::located_root_at))]
impl ReadJson for LocatedRoot {
    ghost reads = { located_root_at };

    fn read(alloc: Global, value: &Value) -> Result<LocatedRoot, ReadError> {
        let fields = members(alloc, value)?;
        Ok(LocatedRoot {
            root: required_member(alloc, fields, "root")?,
        })
    }
}

// The words of the question for the root.
#[tactic(auto, unfolding(crate::specs::Located::locate_words))]
fn locate_words(alloc: Global, manifest: &ManifestPath) -> Result<Vec<Text>, AllocError>
    ensures { IfOk result (λ words. words.items ≡ locate_words manifest.now) }
{
    let mut words = Vec::new(alloc);
    push_word(alloc, &mut words, "locate-project")?;
    push_word(alloc, &mut words, "--workspace")?;
    push_word(alloc, &mut words, "--manifest-path")?;
    push_word(alloc, &mut words, manifest.as_path().as_str())?;
    Ok(words)
}

// The root that an answer names, where it fits the table.
fn root_named(alloc: Global, answer: &str) -> Result<Option<Text>, AllocError>
    ensures { IfOk result (λ root. root ≡ root_named answer.now) }
{
    match of_text::<LocatedRoot>(alloc, answer) {
        Ok(located) => Ok(Some(located.root)),
        Err(ReadError::Missed(_)) => Ok(None),
        Err(ReadError::OutOfMemory) => Err(AllocError),
    }
}

// The root that cargo locates, if it does.
#[tactic(auto, unfolding(crate::specs::Located::located_root))]
fn located_root<R: Runner, T: Tree>(
    alloc: Global,
    sysroot: &Sysroot,
    manifest: &ManifestPath,
    ask: &Ask<'_, R, T>,
) -> Result<Option<Text>, AllocError>
    ensures { IfOk result (λ root. root
        ≡ spec.located_root sysroot.now manifest.now (means_of R.answers T.files ask.now)) }
{
    let words = locate_words(alloc, manifest)?;
    let dir = manifest.parent();
    let line = sysroot.question(alloc, Tool::Cargo, dir.as_str(), words, ask)?;
    match serving_answer(alloc, ask.runner, &line)? {
        Some(answer) => root_named(alloc, answer.as_str()),
        None => Ok(None),
    }
}

// The manifest of a root that was located.
fn manifest_of(alloc: Global, root: &str) -> Result<ManifestPath, LoadError>
    ensures { Gives result (of_reading (absolute_manifest root.now)) }
{
    let path = absolute_path(alloc, root)?;
    match ManifestPath::new(path) {
        Ok(manifest) => Ok(manifest),
        Err(root) => Err(LoadError::NoParent(Text::of_str(alloc, root.as_str())?)),
    }
}

/// The manifest of the workspace's root, as cargo locates it. Where its answer does not serve or does not
/// fit the table, the given manifest stays.
pub fn located_manifest<R: Runner, T: Tree>(
    alloc: Global,
    sysroot: &Sysroot,
    manifest: &ManifestPath,
    ask: &Ask<'_, R, T>,
) -> Result<ManifestPath, LoadError>
    ensures { Gives result
        (spec.located_manifest sysroot.now manifest.now (means_of R.answers T.files ask.now)) }
{
    match located_root(alloc, sysroot, manifest, ask)? {
        Some(root) => manifest_of(alloc, root.as_str()),
        None => Ok(manifest.try_clone(alloc)?),
    }
}
