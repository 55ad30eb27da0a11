//! What was said to a session: the configuration, the files with their texts, and the answers.

ghost use Rattle.live_config.specs.Config.{Fits};

use crate::kept_files::kept_files;
use crate::live_answers::LiveAnswers;
use crate::live_texts::LiveTexts;
use crate::shared_config::SharedConfig;
use crate::sources::Sources;
use base_text::{CommandLine, Output, Text, TryClone};
use live_config::LiveConfig;
use std::alloc::{AllocError, Global};
use vfs_core::{Vfs, VfsError, VfsPath};

/// The configuration of a session, the files of which it was told with the texts of those that live, and the answers that were
/// recorded. A load takes what it keeps from here. Sessions of every kind hold one beside their projects.
#[derive(Drop)]
pub struct Recorded {
    pub config: SharedConfig,
    pub files: Vfs,
    pub texts: LiveTexts,
    pub answers: LiveAnswers,
    pub ghost fits: { Fits config },
}

impl Recorded {
    ghost use Rattle.std.specs.Prelude.{◌≡◌, ℕ, List, Option, [], IfOk, IsErrOf, OnErr, OnOk};
    ghost use Rattle.base_text_outside.specs.Command.{question_of};
    ghost use Rattle.base_text_outside.specs.Runner.{with_answer};
    ghost use Rattle.vfs_core.specs.Files.{IsFullFor, kind_of, no_files};
    ghost use Rattle.live_config.specs.Config.{Fits};
    ghost use Rattle.vfs_core.specs.Texts.{BringsTo, KeepsBringing};
    ghost use Rattle.vfs_core.specs.declared.marks.MarkKind.TheVariants.{Out};
    ghost use Rattle.live_project.specs.LiveTexts.{HoldsSaid, RecordsMark, sources_kept};
    ghost use Rattle.live_project.specs.Sources.{Said};

    /// Nothing was said yet but the configuration.
    pub fn new(alloc: Global, config: LiveConfig) -> Result<Self, AllocError>
        requires { Fits config }
        ensures holds { IfOk result (λ recorded. HoldsSaid recorded
            (record { config = config; marks = []; answers = [] })) }
        ensures config { IfOk result (λ recorded. recorded.config ≡ config) }
        ensures files { IfOk result (λ recorded. recorded.files ≡ no_files config.limits.paths) }
        ensures brings { IfOk result (λ recorded. (known : ℕ → Option (List ℕ))
            → BringsTo recorded.files known []) }
    {
        let texts = LiveTexts::new(alloc)?;
        let answers = LiveAnswers::new(alloc)?;
        Ok(Recorded {
            files: Vfs::new(alloc, config.limits.paths),
            config: SharedConfig::new(config),
            texts,
            answers,
        })
    }

    /// The configuration. A changed one can be given to `configure`.
    pub fn config(&self) -> &LiveConfig
        ensures config { result.now ≡ self.now.config }
        ensures fits { Fits result.now }
    {
        self.config.get()
    }

    /// Changes the configuration alone. Paths that have a number keep it.
    pub fn configure(&mut self, config: LiveConfig)
        requires { Fits config }
        ensures holds { (said : Said) → HoldsSaid self.old said
            → HoldsSaid self.new (record said { config = config }) }
        ensures config { self.new.config ≡ config }
        ensures files { self.new.files ≡ record self.old.files { limit = config.limits.paths } }
        ensures brings { KeepsBringing self.old.files self.new.files }
        ensures kept { (self.new.texts ≡ self.old.texts) × (self.new.answers ≡ self.old.answers) }
    {
        self.files.set_limit(config.limits.paths);
        self.config = SharedConfig::new(config);
    }

    /// Sets the text of a file, or deletes it where there is none.
    pub fn put(&mut self, alloc: Global, path: VfsPath, text: Option<Text>) -> Result<(), VfsError>
        ensures ok { OnOk result (RecordsMark self.old self.new
            (record { path = path; kind = kind_of text })) }
        ensures room { OnOk result (¬ (IsFullFor self.old.files path)) }
        ensures too_many { IsErrOf result VfsError.TooMany → IsFullFor self.old.files path }
        ensures err { OnErr result (self.new ≡ self.old) }
    {
        self.texts.put(alloc, &mut self.files, path, text)
    }

    /// Leaves a file out, for good.
    pub fn exclude(&mut self, path: VfsPath) -> Result<(), VfsError>
        ensures ok { OnOk result (RecordsMark self.old self.new (record { path = path; kind = Out })) }
        ensures room { OnOk result (¬ (IsFullFor self.old.files path)) }
        ensures too_many { IsErrOf result VfsError.TooMany → IsFullFor self.old.files path }
        ensures err { OnErr result (self.new ≡ self.old) }
    {
        self.texts.exclude(&mut self.files, path)
    }

    /// Records what a command answered, in place of an earlier answer of the same question.
    pub fn record_answer(&mut self, line: CommandLine, output: Output) -> Result<(), AllocError>
        ensures ok { OnOk result (self.new
            ≡ record self.old { answers = with_answer (question_of line) output self.old.answers }) }
        ensures err { OnErr result (self.new ≡ self.old) }
    {
        self.answers.insert(line, output)
    }

    /// What a load keeps: the configuration, the answers and the files that live, as they are now. No text is copied.
    pub fn sources(&mut self, alloc: Global, path: Text) -> Result<Sources, AllocError>
        ensures kept { IfOk result (λ sources. sources ≡ sources_kept self.old path) }
        ensures fits { IfOk result (λ sources. Fits sources.config) }
        ensures same { self.new ≡ self.old }
    {
        Ok(Sources {
            config: self.config.share(alloc)?,
            answers: self.answers.try_clone(alloc)?,
            files: kept_files(alloc, &self.files, &self.texts)?,
            path,
        })
    }
}
