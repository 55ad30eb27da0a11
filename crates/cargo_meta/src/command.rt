//! The command that asks for metadata, set option by option.

ghost use Rattle.std.specs.Prelude.{◌≡◌, true, IfOk, OnErr, OnOk, Some, None};
ghost use Rattle.std.specs.Borrow.{sem};
ghost use Rattle.base_values.specs.ByText.{HasAscendingKeys};
ghost use Rattle.cargo_meta.specs.Command.{IsFirstGiven, metadata_command, nothing_set, with_features, with_env, words_of};

use crate::words::{first_words, push_features, text_or, variables};
use base_text_outside::CommandLine;
use base_text_outside::command_words::{append, push_flag, push_option, push_words};
use base_values::{ByText, Items, Text, TryClone};
use std::alloc::{AllocError, Global};
use std::marker::Model;

/// Which features are asked for.
#[derive(Debug, Drop)]
pub enum CargoOpt {
    /// `--all-features`
    AllFeatures,
    /// `--no-default-features`
    NoDefaultFeatures,
    /// `--features` with these names
    SomeFeatures(Items<Text>),
}

impl TryClone for CargoOpt {
    fn try_clone(&self, alloc: Global) -> Result<Self, AllocError> {
        match self {
            CargoOpt::AllFeatures => Ok(CargoOpt::AllFeatures),
            CargoOpt::NoDefaultFeatures => Ok(CargoOpt::NoDefaultFeatures),
            CargoOpt::SomeFeatures(names) => Ok(CargoOpt::SomeFeatures(names.try_clone(alloc)?)),
        }
    }
}

/// A `cargo metadata` command that is set option by option, seen as what was set.
#[derive(Drop)]
pub struct MetadataCommand {
    cargo_path: Option<Text>,
    manifest_path: Option<Text>,
    current_dir: Option<Text>,
    no_deps: bool,
    features: Vec<Text>,
    all_features: bool,
    no_default_features: bool,
    other_options: Items<Text>,
    env: ByText<Option<Text>>,
    verbose: bool,
}

impl Model for MetadataCommand {
    ghost use Rattle.cargo_meta.specs.Command.{Settings};

    ghost Value = { Settings };

    ghost view = { λ a. record {
      cargo_path = a.cargo_path;
      manifest_path = a.manifest_path;
      current_dir = a.current_dir;
      no_deps = a.no_deps;
      features = a.features.items;
      all_features = a.all_features;
      no_default_features = a.no_default_features;
      other_options = a.other_options;
      env = a.env;
      verbose = a.verbose;
    } };
}

impl MetadataCommand {
    ghost use Rattle.cargo_meta.specs.GivesBack.{unchanged_if_refused};

    /// The command with nothing set, which takes no memory.
    pub fn new(alloc: Global) -> MetadataCommand
        ensures { result ≡ nothing_set }
    {
        MetadataCommand {
            cargo_path: None,
            manifest_path: None,
            current_dir: None,
            no_deps: false,
            features: Vec::new(alloc),
            all_features: false,
            no_default_features: false,
            other_options: Items::empty(alloc),
            env: ByText::empty(alloc),
            verbose: false,
        }
    }

    /// The program, in place of `cargo`.
    pub fn cargo_path(&mut self, path: Text) -> &mut MetadataCommand
        ensures same_command { result.ghost_name ≡ self.entry.ghost_name }
        ensures set { result.now ≡ record self.old { cargo_path = Some path } }
    {
        self.cargo_path = Some(path);
        self
    }

    /// The manifest that is asked about.
    pub fn manifest_path(&mut self, path: Text) -> &mut MetadataCommand
        ensures same_command { result.ghost_name ≡ self.entry.ghost_name }
        ensures set { result.now ≡ record self.old { manifest_path = Some path } }
    {
        self.manifest_path = Some(path);
        self
    }

    /// The directory to run in.
    pub fn current_dir(&mut self, path: Text) -> &mut MetadataCommand
        ensures same_command { result.ghost_name ≡ self.entry.ghost_name }
        ensures set { result.now ≡ record self.old { current_dir = Some path } }
    {
        self.current_dir = Some(path);
        self
    }

    /// Asks for the workspace's members alone.
    pub fn no_deps(&mut self) -> &mut MetadataCommand
        ensures same_command { result.ghost_name ≡ self.entry.ghost_name }
        ensures set { result.now ≡ record self.old { no_deps = true } }
    {
        self.no_deps = true;
        self
    }

    /// Names features behind those named before, or sets a flag, which is set once alone.
    pub fn add_features(&mut self, features: CargoOpt) -> Result<(), AllocError>
        requires { IsFirstGiven features self.old }
        ensures ok { OnOk result (self.new ≡ with_features features self.old) }
        ensures err { OnErr result (self.new ≡ self.old) }
    {
        match features {
            CargoOpt::AllFeatures => self.all_features = true,
            CargoOpt::NoDefaultFeatures => self.no_default_features = true,
            CargoOpt::SomeFeatures(names) => append(&mut self.features, names)?,
        }
        Ok(())
    }

    /// As `add_features`, and gives the command back.
    pub fn features(&mut self, features: CargoOpt) -> Result<&mut MetadataCommand, AllocError>
        requires { IsFirstGiven features self.old }
        ensures* err { sem 𝓛 (unchanged_if_refused self.entry result) }
        ensures same_command { IfOk result (λ command. command.ghost_name ≡ self.entry.ghost_name) }
        ensures set { IfOk result (λ command. command.now ≡ with_features features self.old) }
    {
        self.add_features(features)?;
        Ok(self)
    }

    /// Whether all features are asked for.
    pub fn has_all_features(&self) -> bool
        ensures { result ≡ self.now.all_features }
    {
        self.all_features
    }

    /// Whether the default features are left out.
    pub fn has_no_default_features(&self) -> bool
        ensures { result ≡ self.now.no_default_features }
    {
        self.no_default_features
    }

    /// The options that stand last, in place of those set before.
    pub fn other_options(&mut self, options: Items<Text>) -> &mut MetadataCommand
        ensures same_command { result.ghost_name ≡ self.entry.ghost_name }
        ensures set { result.now ≡ record self.old { other_options = options } }
    {
        self.other_options = options;
        self
    }

    /// Sets a variable of the command, or removes it where it has no value, in place of what was said of it before.
    pub fn set_variable(&mut self, key: Text, value: Option<Text>) -> Result<(), AllocError>
        ensures ok { OnOk result (self.new ≡ with_env key value self.old) }
        ensures err { OnErr result (self.new ≡ self.old) }
    {
        drop(self.env.insert(key.into_inner(), value)?);
        Ok(())
    }

    /// Sets a variable of the command, as `set_variable`, and gives the command back.
    pub fn env(&mut self, key: Text, val: Text) -> Result<&mut MetadataCommand, AllocError>
        ensures* err { sem 𝓛 (unchanged_if_refused self.entry result) }
        ensures same_command { IfOk result (λ command. command.ghost_name ≡ self.entry.ghost_name) }
        ensures set { IfOk result (λ command. command.now ≡ with_env key (Some val) self.old) }
    {
        self.set_variable(key, Some(val))?;
        Ok(self)
    }

    /// Removes a variable of the command, as `set_variable`, and gives the command back.
    pub fn env_remove(&mut self, key: Text) -> Result<&mut MetadataCommand, AllocError>
        ensures* err { sem 𝓛 (unchanged_if_refused self.entry result) }
        ensures same_command { IfOk result (λ command. command.ghost_name ≡ self.entry.ghost_name) }
        ensures set { IfOk result (λ command. command.now ≡ with_env key None self.old) }
    {
        self.set_variable(key, None)?;
        Ok(self)
    }

    /// Whether the error stream is shown. It is kept, and has no effect.
    pub fn verbose(&mut self, verbose: bool) -> &mut MetadataCommand
        ensures same_command { result.ghost_name ≡ self.entry.ghost_name }
        ensures set { result.now ≡ record self.old { verbose = verbose } }
    {
        self.verbose = verbose;
        self
    }

    /// The command line that was set.
    pub fn cargo_command(&self, alloc: Global) -> Result<CommandLine, AllocError>
        ensures command { IfOk result (λ line. line ≡ metadata_command self.now) }
        ensures ascending { OnOk result (HasAscendingKeys self.now.env) }
    {
        Ok(CommandLine {
            program: text_or(alloc, &self.cargo_path, "cargo")?,
            words: self.words(alloc)?,
            dir: text_or(alloc, &self.current_dir, "")?,
            env: variables(alloc, &self.env)?,
        })
    }

    #[tactic(auto, unfolding(crate::specs::Command::words_of))]
    fn words(&self, alloc: Global) -> Result<Items<Text>, AllocError>
        ensures { IfOk result (λ words. words ≡ words_of self.now) }
    {
        let mut words = first_words(alloc)?;
        push_flag(alloc, &mut words, self.no_deps, "--no-deps")?;
        push_features(alloc, &mut words, self.features.as_slice())?;
        push_flag(alloc, &mut words, self.all_features, "--all-features")?;
        push_flag(
            alloc,
            &mut words,
            self.no_default_features,
            "--no-default-features",
        )?;
        push_option(alloc, &mut words, "--manifest-path", &self.manifest_path)?;
        append(&mut words, self.other_options.try_clone(alloc)?)?;
        Ok(Items::new(words))
    }
}

impl TryClone for MetadataCommand {
    fn try_clone(&self, alloc: Global) -> Result<Self, AllocError> {
        let mut features = Vec::new(alloc);
        push_words(alloc, &mut features, self.features.as_slice())?;
        Ok(MetadataCommand {
            cargo_path: self.cargo_path.try_clone(alloc)?,
            manifest_path: self.manifest_path.try_clone(alloc)?,
            current_dir: self.current_dir.try_clone(alloc)?,
            no_deps: self.no_deps,
            features,
            all_features: self.all_features,
            no_default_features: self.no_default_features,
            other_options: self.other_options.try_clone(alloc)?,
            env: self.env.try_clone(alloc)?,
            verbose: self.verbose,
        })
    }
}
