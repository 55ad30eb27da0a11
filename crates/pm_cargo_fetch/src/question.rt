//! The command that asks for metadata, but for its options.

ghost use Rattle.std.specs.Prelude.{◌≡◌, [], ◌++◌, false, codes, IfOk, OnOk, Some, unwrap_or};
ghost use Rattle.cargo_meta.specs.Command.{with_env};
ghost use Rattle.base_text_paths.specs.AbsPath.{abs_text};
ghost use Rattle.pm_cargo_fetch.specs.Questions.{enables_all, leaves_default_out, named_features, question_variables, with_variables};
ghost use Rattle.pm_cargo_fetch.specs.Settings.{settings_of};

use base_text::{AbsPath, ManifestPath, Text, Tool, ToolRoot, TryClone};
use cargo_meta::{CargoOpt, MetadataCommand};
use pm_cargo_config::{CargoFeatures, CargoMetadataConfig};
use std::alloc::{AllocError, Global};

/// The command that asks for the metadata of a workspace, with no options.
pub(crate) fn metadata_command(
    alloc: Global,
    cargo_toml: &ManifestPath,
    dir: AbsPath<'_>,
    config: &CargoMetadataConfig,
    tool_root: &ToolRoot,
) -> Result<MetadataCommand, AllocError>
    ensures { IfOk result (λ command. command
        ≡ settings_of cargo_toml.now (abs_text dir.entry) config.now tool_root.now) }
{
    let start = tool_root.command(alloc, Tool::Cargo, dir.as_str(), &config.extra_env)?;
    let manifest = Text::of_str(alloc, cargo_toml.as_path().as_str())?;
    let mut command = MetadataCommand::new(alloc);
    command
        .cargo_path(start.program)
        .current_dir(start.dir)
        .manifest_path(manifest);
    set_question(
        alloc,
        &mut command,
        &config.features,
        start.env.into_inner(),
    )?;
    Ok(command)
}

// Sets which features are enabled and these variables, of a command that says nothing of either yet.
fn set_question(
    alloc: Global,
    command: &mut MetadataCommand,
    features: &CargoFeatures,
    variables: Vec<(Text, Option<Text>)>,
) -> Result<(), AllocError>
    requires all { command.old.all_features ≡ false }
    requires default { command.old.no_default_features ≡ false }
    requires env { command.old.env ≡ [] }
    ensures { OnOk result (command.new ≡ record command.old {
      features = command.old.features ++ named_features features.now;
      all_features = enables_all features.now;
      no_default_features = leaves_default_out features.now;
      env = question_variables variables.items;
    }) }
{
    set_features(alloc, command, features)?;
    install_nothing(alloc, command)?;
    set_variables(alloc, command, variables)
}

// Sets which features are enabled, of a command that says nothing of it yet.
fn set_features(
    alloc: Global,
    command: &mut MetadataCommand,
    features: &CargoFeatures,
) -> Result<(), AllocError>
    requires all { command.old.all_features ≡ false }
    requires default { command.old.no_default_features ≡ false }
    ensures { OnOk result (command.new ≡ record command.old {
      features = command.old.features ++ named_features features.now;
      all_features = enables_all features.now;
      no_default_features = leaves_default_out features.now;
    }) }
{
    match features {
        CargoFeatures::All => command.add_features(CargoOpt::AllFeatures),
        CargoFeatures::Selected {
            features,
            no_default_features,
        } => {
            if *no_default_features {
                command.add_features(CargoOpt::NoDefaultFeatures)?;
            }
            command.add_features(CargoOpt::SomeFeatures(features.try_clone(alloc)?))
        }
    }
}

// Sets the variable that keeps `rustup` from installing what is missing.
fn install_nothing(alloc: Global, command: &mut MetadataCommand) -> Result<(), AllocError>
    ensures { OnOk result (command.new ≡ with_env (codes "RUSTUP_AUTO_INSTALL")
        (Some (codes "0")) command.old) }
{
    let name = Text::of_str(alloc, "RUSTUP_AUTO_INSTALL")?;
    let value = Text::of_str(alloc, "0")?;
    command.set_variable(name, Some(value))
}

// Sets these variables, those without a value to the empty text.
fn set_variables(
    alloc: Global,
    command: &mut MetadataCommand,
    variables: Vec<(Text, Option<Text>)>,
) -> Result<(), AllocError>
    ensures { OnOk result (command.new
        ≡ record command.old { env = with_variables variables.items command.old.env }) }
{
    for (name, value) in variables {
        let value = text_or_empty(alloc, value)?;
        command.set_variable(name, Some(value))?;
    }
    Ok(())
}

// The text, or the empty one where there is none.
fn text_or_empty(alloc: Global, text: Option<Text>) -> Result<Text, AllocError>
    ensures { IfOk result (λ given. given ≡ unwrap_or text []) }
{
    match text {
        Some(text) => Ok(text),
        None => Text::of_str(alloc, ""),
    }
}
