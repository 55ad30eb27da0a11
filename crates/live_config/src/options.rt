//! The table of options, and the options that words give by it.

ghost use Rattle.std.specs.Prelude.{◌≡◌, ◌≤◌, IfOk, IfSome, IsErrOf, OnErr, OnOk, map, string_bytes, Some, None};
ghost use Rattle.live_config.specs.Config.{features_by, limits_by, set_by};
ghost use Rattle.live_config.specs.Options.{FitsGiven, flag_row, has_conflict, nothing_given, given_options, with_flag, option_row, set_once, split_texts, option_value, valued_row};
ghost use Rattle.live_config.specs.Options.{with_limit, with_option, with_options};
ghost use Rattle.live_config.specs.Values.{number_up_to};

use crate::config::{LiveConfig, WordsError};
use crate::values::{feature_names, push_path, read_number, set_process_variable, set_variable};
use base_text::{AbsPathBuf, ByText, Items, Limit, Limits, Text, Tools};
use crate_graph_values::Env;
use pm_cargo_config::{CargoConfig, CargoFeatures};
use std::alloc::Global;

// An option of the command line.
#[derive(Clone, Copy)]
pub(crate) enum LiveOption {
    Target,
    Features,
    NoDefaultFeatures,
    AllFeatures,
    NoDeps,
    ExtraInclude,
    Env,
    ProcessEnv,
    Limit(Limit),
}

// How an option is given: by its word alone, or with the next word as its value.
#[derive(Clone, Copy)]
pub(crate) enum OptionForm {
    Flag,
    Valued,
}

// A row of the table of options.
#[derive(Clone, Copy)]
pub(crate) struct OptionRow {
    option: LiveOption,
    form: OptionForm,
}

impl OptionRow {
    fn flag(option: LiveOption) -> Self
        ensures { result ≡ flag_row option }
    {
        OptionRow {
            option,
            form: OptionForm::Flag,
        }
    }

    fn with_value(option: LiveOption) -> Self
        ensures { result ≡ valued_row option }
    {
        OptionRow {
            option,
            form: OptionForm::Valued,
        }
    }
}

// The row of a word in the table of options.
#[tactic(auto, unfolding(crate::specs::Options::option_row))]
fn row_of(word: &str) -> Option<OptionRow>
    ensures { result ≡ option_row word.now }
{
    match word {
        "--target" => Some(OptionRow::with_value(LiveOption::Target)),
        "--features" => Some(OptionRow::with_value(LiveOption::Features)),
        "--no-default-features" => Some(OptionRow::flag(LiveOption::NoDefaultFeatures)),
        "--all-features" => Some(OptionRow::flag(LiveOption::AllFeatures)),
        "--no-deps" => Some(OptionRow::flag(LiveOption::NoDeps)),
        "--extra-include" => Some(OptionRow::with_value(LiveOption::ExtraInclude)),
        "--env" => Some(OptionRow::with_value(LiveOption::Env)),
        "--process-env" => Some(OptionRow::with_value(LiveOption::ProcessEnv)),
        "--limit-bytes" => Some(OptionRow::with_value(LiveOption::Limit(Limit::Bytes))),
        "--limit-paths" => Some(OptionRow::with_value(LiveOption::Limit(Limit::Paths))),
        "--limit-packages" => Some(OptionRow::with_value(LiveOption::Limit(Limit::Packages))),
        "--limit-targets" => Some(OptionRow::with_value(LiveOption::Limit(Limit::Targets))),
        "--limit-crates" => Some(OptionRow::with_value(LiveOption::Limit(Limit::Crates))),
        _ => None,
    }
}

// The value of an option, which is empty for a flag, and the words that follow it.
fn option_value(form: OptionForm, words: &[String]) -> Option<(&str, &[String])>
    ensures { split_texts result ≡ option_value form (map string_bytes words.now) }
{
    match form {
        OptionForm::Flag => Some(("", words)),
        OptionForm::Valued => match words.split_first() {
            Some((value, more)) => Some((value.as_str(), more)),
            None => None,
        },
    }
}

// The options that were given so far.
#[derive(Drop)]
pub(crate) struct Given {
    target: Option<Text>,
    features: GivenFeatures,
    no_deps: bool,
    extra_includes: Items<AbsPathBuf>,
    env: ByText<Option<Text>>,
    process_env: Env,
    limits: GivenLimits,
}

// The options of features that were given so far.
#[derive(Drop)]
pub(crate) struct GivenFeatures {
    names: Option<Items<Text>>,
    no_default: bool,
    all: bool,
}

// The limits that were given so far.
#[derive(Clone, Copy)]
pub(crate) struct GivenLimits {
    bytes: Option<u64>,
    paths: Option<u32>,
    packages: Option<u32>,
    targets: Option<u32>,
    crates: Option<u32>,
}

// The options that the words give. All features exclude the other options of features.
pub(crate) fn read_options(alloc: Global, words: &[String]) -> Result<Given, WordsError>
    ensures ok { IfOk result (λ given. given_options (map string_bytes words.now) ≡ Some given) }
    ensures fits { IfOk result (λ given. FitsGiven given.limits) }
    ensures usage { IsErrOf result WordsError.Usage
        → given_options (map string_bytes words.now) ≡ None }
{
    let mut given = Given::new(alloc);
    given.read(alloc, words)?;
    if given.features.has_conflict() {
        return Err(WordsError::Usage);
    }
    Ok(given)
}

impl Given {
    // No option is given.
    pub(crate) fn new(alloc: Global) -> Self
        ensures { result ≡ nothing_given }
    {
        Given {
            target: None,
            features: GivenFeatures {
                names: None,
                no_default: false,
                all: false,
            },
            no_deps: false,
            extra_includes: Items::empty(alloc),
            env: ByText::empty(alloc),
            process_env: Env::new(alloc),
            limits: GivenLimits {
                bytes: None,
                paths: None,
                packages: None,
                targets: None,
                crates: None,
            },
        }
    }

    // Reads the words option by option.
    fn read(&mut self, alloc: Global, words: &[String]) -> Result<(), WordsError>
        ensures ok { OnOk result (with_options self.old (map string_bytes words.now)
            ≡ Some self.new) }
        ensures fits { OnOk result (FitsGiven self.old.limits → FitsGiven self.new.limits) }
        ensures usage { IsErrOf result WordsError.Usage
            → with_options self.old (map string_bytes words.now) ≡ None }
    {
        let mut left = words;
        while let Some((word, after)) = left.split_first() {
            let Some(row) = row_of(word) else {
                return Err(WordsError::Usage);
            };
            let Some((value, more)) = option_value(row.form, after) else {
                return Err(WordsError::Usage);
            };
            self.take(alloc, row.option, value)?;
            left = more;
        }
        Ok(())
    }

    // Takes one more option with its value.
    #[tactic(auto, unfolding(crate::specs::Options::with_option))]
    fn take(&mut self, alloc: Global, option: LiveOption, value: &str) -> Result<(), WordsError>
        ensures ok { OnOk result (with_option self.old option value.now ≡ Some self.new) }
        ensures fits { OnOk result (FitsGiven self.old.limits → FitsGiven self.new.limits) }
        ensures usage { IsErrOf result WordsError.Usage
            → with_option self.old option value.now ≡ None }
    {
        match option {
            LiveOption::Target => {
                let target = Text::of_str(alloc, value)?;
                set_once(&mut self.target, target)
            }
            LiveOption::Features => {
                let names = feature_names(alloc, value)?;
                set_once(&mut self.features.names, names)
            }
            LiveOption::NoDefaultFeatures => set_flag(&mut self.features.no_default),
            LiveOption::AllFeatures => set_flag(&mut self.features.all),
            LiveOption::NoDeps => set_flag(&mut self.no_deps),
            LiveOption::ExtraInclude => push_path(alloc, &mut self.extra_includes, value),
            LiveOption::Env => set_variable(alloc, &mut self.env, value),
            LiveOption::ProcessEnv => set_process_variable(alloc, &mut self.process_env, value),
            LiveOption::Limit(limit) => self.limits.take(alloc, limit, value),
        }
    }

    // The configuration that these options set, with these tools.
    pub(crate) fn into_config(self, alloc: Global, tools: Tools) -> LiveConfig
        ensures { result ≡ record (set_by self) { tools = tools } }
    {
        LiveConfig {
            cargo: CargoConfig {
                features: self.features.into_features(alloc),
                target: self.target,
                extra_includes: self.extra_includes,
                extra_env: self.env,
                no_deps: self.no_deps,
                ..CargoConfig::new(alloc)
            },
            process_env: self.process_env,
            tools,
            limits: self.limits.limits(),
        }
    }
}

impl GivenFeatures {
    // Whether all features were asked for, and beside them names or that the default ones are left out.
    fn has_conflict(&self) -> bool
        ensures { result ≡ has_conflict self.now }
    {
        self.all && (self.no_default || self.names.is_some())
    }

    // The features that these options enable.
    fn into_features(self, alloc: Global) -> CargoFeatures
        ensures { result ≡ features_by self }
    {
        if self.all {
            CargoFeatures::All
        } else {
            CargoFeatures::Selected {
                features: self.names.unwrap_or(Items::empty(alloc)),
                no_default_features: self.no_default,
            }
        }
    }
}

impl GivenLimits {
    // Takes one more limit.
    #[tactic(auto, unfolding(crate::specs::Options::with_limit))]
    fn take(&mut self, alloc: Global, limit: Limit, value: &str) -> Result<(), WordsError>
        ensures ok { OnOk result (with_limit self.old limit value.now ≡ Some self.new) }
        ensures fits { OnOk result (FitsGiven self.old → FitsGiven self.new) }
        ensures usage { IsErrOf result WordsError.Usage → with_limit self.old limit value.now ≡ None }
    {
        let greatest = Limits::greatest();
        match limit {
            Limit::Bytes => {
                let bytes = read_number(alloc, greatest.bytes, value)?;
                set_once(&mut self.bytes, bytes)
            }
            Limit::Paths => set_count_once(alloc, &mut self.paths, greatest.paths, value),
            Limit::Packages => set_count_once(alloc, &mut self.packages, greatest.packages, value),
            Limit::Targets => set_count_once(alloc, &mut self.targets, greatest.targets, value),
            Limit::Crates => set_count_once(alloc, &mut self.crates, greatest.crates, value),
        }
    }

    // The limits that these options set. One that is not given is the greatest.
    fn limits(self) -> Limits
        ensures { result ≡ limits_by self }
    {
        let greatest = Limits::greatest();
        Limits {
            bytes: self.bytes.unwrap_or(greatest.bytes),
            paths: self.paths.unwrap_or(greatest.paths),
            packages: self.packages.unwrap_or(greatest.packages),
            targets: self.targets.unwrap_or(greatest.targets),
            crates: self.crates.unwrap_or(greatest.crates),
        }
    }
}

// Sets a flag that was not given before.
fn set_flag(flag: &mut bool) -> Result<(), WordsError>
    ensures ok { OnOk result (with_flag flag.old ≡ Some flag.new) }
    ensures err { OnErr result (with_flag flag.old ≡ None) }
{
    if *flag {
        return Err(WordsError::Usage);
    }
    *flag = true;
    Ok(())
}

// Fills in a value that was not given before.
fn set_once<T: Drop>(slot: &mut Option<T>, value: T) -> Result<(), WordsError>
    ensures ok { OnOk result (set_once slot.old (Some value) ≡ Some slot.new) }
    ensures err { OnErr result (set_once slot.old (Some value) ≡ None) }
{
    if slot.is_some() {
        return Err(WordsError::Usage);
    }
    *slot = Some(value);
    Ok(())
}

// Fills in a count, up to the greatest, that was not given before.
fn set_count_once(
    alloc: Global,
    slot: &mut Option<u32>,
    most: u32,
    text: &str,
) -> Result<(), WordsError>
    ensures ok { OnOk result (set_once slot.old (number_up_to most text.now) ≡ Some slot.new) }
    ensures most { OnOk result (IfSome slot.new (λ n. n ≤ most)) }
    ensures usage { IsErrOf result WordsError.Usage
        → set_once slot.old (number_up_to most text.now) ≡ None }
{
    let count = read_number(alloc, most.into(), text)?;
    set_once(slot, count as u32)
}
