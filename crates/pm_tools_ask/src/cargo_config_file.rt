//! The configuration that cargo prints for a manifest. Its values are what TOML reads; where they
//! come from is given by comments alone.

ghost use Rattle.std.specs.Prelude.{◌≡◌, IfOk, option_map, string_bytes};
ghost use Rattle.base_text_paths.specs.AbsPath.{abs_text};
ghost use Rattle.toml.specs.Parse.{parse_document};
ghost use Rattle.toml.specs.View.{table_view, view};
ghost use Rattle.pm_tools_ask.specs.Statements.{origin_root};
ghost use Rattle.pm_tools_ask.specs.Ask.{means_of};
ghost use Rattle.pm_tools_ask.specs.Config.{below_keys, value_at_keys};
ghost use Rattle.pm_tools_ask.specs.ConfigQuestion.{printed_config};

use crate::answers::serving_answer;
use crate::ask::Ask;
use crate::config_question::config_question;
use crate::sysroot::Sysroot;
use base_text::{AbsPath, AbsPathBuf, ManifestPath, Runner, Text, Tree, TryClone};
use std::alloc::{AllocError, Global};
use std::marker::Model;
use toml::{Table, Value};

/// A printed configuration. The text may be one that TOML refuses, which has no values.
#[derive(Debug, Drop)]
pub struct CargoConfigFile {
    text: Text,
}

/// Contracts see the text.
impl Model for CargoConfigFile {
    ghost use Rattle.std.specs.Prelude.{ℕ, List};

    ghost Value = { List ℕ };

    ghost view = { λ a. a.text };

    ghost inverse = { λ text. record { text = text } };
}

// The value below some keys.
fn below_keys<'a>(document: &'a Value, keys: &[Text]) -> Option<&'a Value>
    ensures { option_map (λ value. view value.now) result ≡ below_keys (view document.now) keys.now }
{
    let mut value = document;
    for key in keys {
        value = value.get(key.as_str())?;
    }
    Some(value)
}

impl CargoConfigFile {
    /// The configuration that `cargo` prints for a manifest, with the file at `config_path` given to it.
    /// None where no answer is recorded, or where the command failed.
    pub fn load<R: Runner, T: Tree>(
        alloc: Global,
        manifest: &ManifestPath,
        sysroot: &Sysroot,
        config_path: Option<AbsPath<'_>>,
        ask: &Ask<'_, R, T>,
    ) -> Result<Option<CargoConfigFile>, AllocError>
        ensures { IfOk result (λ file. file ≡ printed_config manifest.now sysroot.now
            (option_map abs_text config_path.entry) (means_of R.answers T.files ask.now)) }
    {
        let question = config_question(alloc, manifest, sysroot, config_path, ask)?;
        match serving_answer(alloc, ask.runner, &question)? {
            Some(text) => Ok(Some(CargoConfigFile { text })),
            None => Ok(None),
        }
    }

    pub fn from_text(text: String) -> Self
        ensures { result ≡ string_bytes text }
    {
        CargoConfigFile {
            text: Text::new(text),
        }
    }

    pub fn as_str(&self) -> &str
        ensures { result.now ≡ self.now }
    {
        self.text.as_str()
    }

    /// The document, where TOML reads the text as one.
    pub fn read(&self, alloc: Global) -> Result<Option<Table>, AllocError>
        ensures { IfOk result (λ table. option_map table_view table ≡ parse_document self.now) }
    {
        match toml::table_from_str(alloc, self.text.as_str()) {
            Ok(table) => Ok(Some(table)),
            Err(error) if error.is_memory() => Err(AllocError),
            Err(_error) => Ok(None),
        }
    }

    /// A copy of the value at the keys. With no keys there is none.
    #[tactic(auto, unfolding(crate::specs::Config::value_at_keys))]
    pub fn get(&self, alloc: Global, keys: &[Text]) -> Result<Option<Value>, AllocError>
        ensures { IfOk result (λ value. option_map view value ≡ value_at_keys self.now keys.now) }
    {
        let Some(table) = self.read(alloc)? else {
            return Ok(None);
        };
        if keys.is_empty() {
            return Ok(None);
        }
        let document = Value::Table(table);
        match below_keys(&document, keys) {
            Some(value) => Ok(Some(value.clone()?)),
            None => Ok(None),
        }
    }

    /// The directory that the value at the keys is relative to, or an item of a list there.
    pub fn origin_root(
        &self,
        alloc: Global,
        keys: &[Text],
        item: Option<usize>,
    ) -> Result<Option<AbsPathBuf>, AllocError>
        ensures { IfOk result (λ root. root ≡ origin_root self.now keys.now item) }
    {
        crate::origins::origin_root(alloc, self.text.as_str(), keys, item)
    }
}

impl TryClone for CargoConfigFile {
    fn try_clone(&self, alloc: Global) -> Result<Self, AllocError> {
        let text = self.text.try_clone(alloc)?;
        Ok(CargoConfigFile { text })
    }
}
