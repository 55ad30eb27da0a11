//! A session that takes events one by one.

mod build;
mod flush;
mod load;

use crate::last_flush::LastFlush;
use base_text::{ByteSink, Counter, Ledger, Limit, Numbers, Shared, Steps, Text, TryClone};
use input_db::InputDb;
use input_db_files::Nonce;
use live_config::LiveConfig;
use live_page::Event;
use live_project::{LiveAnswers, LiveTexts, Project, Recorded};
use live_script::{LiveError, StepError};
use pm_lower::ProjectWorkspace;
use std::alloc::{AllocError, Global};
use vfs_core::{Vfs, VfsError, VfsPath};

/// A session: what a script said so far.
#[derive(Drop)]
pub struct Live {
    recorded: Recorded,
    project: Option<Shared<Project>>,
    flushed: Option<LastFlush>,
    db: InputDb,
    probes: Steps<Counter>,
    ended: bool,
}

impl Live {
    ghost use Rattle.std.specs.Prelude.{◌≡◌, ◌↔◌, ◌⊎◌, ◌≤◌, ◌^◌, [], IfOk, IfErr, IsErrOf, IsTrue, OnErr, OnOk, Some, Err, is_err};
    ghost use Rattle.std.specs.Option.{option_copied, option_map};
    ghost use Rattle.input_db.specs.Database.{empty_database};
    ghost use Rattle.vfs_core.specs.Files.{IsFullFor, kind_of};
    ghost use Rattle.vfs_core.specs.declared.marks.MarkKind.TheVariants.{Out};
    ghost use Rattle.live_config.specs.Config.{Fits, config_of};
    ghost use Rattle.live_script.specs.Fault.{turn_statuses};
    ghost use Rattle.live.specs.Marked.{AddsMarkTo};
    ghost use Rattle.live.specs.Session.{State, state_after_failure, turn, with_config};
    ghost use Rattle.live.specs.Turn.{EndsLiveTurn, FailsStep, HasEnded, HasStepCause, Holds, LeavesAsWas, ShowsShape, TakesLiveTurn, first_state};
    ghost use Rattle.live_script.specs.Written.{HasWriteCause};
    ghost use Rattle.live_page.specs.declared.event.Event.TheVariants.{Flush};
    ghost use Rattle.live_script.specs.declared.fault.LiveError.TheVariants.{OutOfMemory, TooMany};
    ghost use Rattle.live_script.specs.declared.fault.StepError.TheVariants.{Ended, Refused};
    ghost use Rattle.base_text_outside.specs.declared.limits.Limit.TheVariants.{Paths};

    /// A session to which nothing was said, with the configuration of no words and an empty database.
    pub fn new(alloc: Global) -> Result<Live, AllocError>
        ensures holds { IfOk result (λ live. Holds live first_state) }
        ensures not_ended { IfOk result (λ live. ¬ HasEnded live) }
        ensures config { IfOk result (λ live. config_of [] ≡ Some live.recorded.config) }
        ensures empty { IfOk result (λ live. live.db ≡ empty_database 0) }
        ensures probes { IfOk result (λ live. live.probes.ledger ≡ 0) }
    {
        let nonce = Nonce::new(&mut Numbers::new()).unwrap_or(Nonce::invalid());
        let config = LiveConfig::new(alloc)?;
        Ok(Live {
            recorded: Recorded::new(alloc, config)?,
            project: None,
            flushed: None,
            db: InputDb::new(alloc, nonce),
            probes: Steps {
                ledger: Counter::new(),
            },
            ended: false,
        })
    }

    /// Changes the configuration alone. Paths that have a number keep it, and a project keeps the configuration of its load.
    pub fn configure(&mut self, config: LiveConfig)
        requires { Fits config }
        ensures holds { (s : State) → Holds self.old s
            → Holds self.new (with_config s config) }
        ensures ended { HasEnded self.new ↔ HasEnded self.old }
        ensures config { self.new.recorded.config ≡ config }
        ensures files { self.new.recorded.files
            ≡ record self.old.recorded.files { limit = config.limits.paths } }
        ensures kept { (self.new.db ≡ self.old.db)
            × (self.new.recorded.texts ≡ self.old.recorded.texts)
            × (self.new.probes ≡ self.old.probes) }
        ensures projects { (self.new.recorded.answers ≡ self.old.recorded.answers)
            × (self.new.project ≡ self.old.project) × (self.new.flushed ≡ self.old.flushed) }
    {
        self.recorded.configure(config);
    }

    /// The configuration. A changed one can be given to `configure`.
    pub fn config(&self) -> &LiveConfig
        ensures config { result.now ≡ self.now.recorded.config }
        ensures fits { Fits result.now }
    {
        self.recorded.config()
    }

    /// Whether an earlier flush was refused. No event is taken any more then.
    pub fn ended(&self) -> bool
        ensures { IsTrue result ↔ HasEnded self.now }
    {
        self.ended
    }

    /// The files of which the events spoke.
    pub fn files(&self) -> &Vfs
        ensures { result.now ≡ self.now.recorded.files }
    {
        &self.recorded.files
    }

    /// The texts of the files that live, by file number.
    pub fn texts(&self) -> &LiveTexts
        ensures { result.now ≡ self.now.recorded.texts }
    {
        &self.recorded.texts
    }

    /// The answers that were recorded.
    pub fn answers(&self) -> &LiveAnswers
        ensures { result.now ≡ self.now.recorded.answers }
    {
        &self.recorded.answers
    }

    /// The project that was loaded last, as its load read it, with what its last build gave.
    pub fn project(&self) -> Option<&ProjectWorkspace>
        ensures { option_copied result ≡ option_map (λ p. p.workspace) self.now.project }
    {
        match &self.project {
            None => None,
            Some(project) => Some(project.get().workspace()),
        }
    }

    /// What the last flush brought into the database, if there was one.
    pub fn last_flush(&self) -> Option<&LastFlush>
        ensures { option_copied result ≡ self.now.flushed }
    {
        self.flushed.as_ref()
    }

    /// The database that the last flush made.
    pub fn db(&self) -> &InputDb
        ensures { result.now ≡ self.now.db }
    {
        &self.db
    }

    /// How many probes flushes took so far, to find the sets of files: each front of the text by which a file is placed that was tried
    /// as a root, also one that is longer than every root and is not looked up. The count stops at the greatest u64.
    pub fn probes(&self) -> u64
        ensures { result ≡ self.now.probes.ledger }
    {
        self.probes.ledger.count()
    }

    // How many bytes one run takes.
    pub(crate) fn byte_limit(&self) -> u64
        ensures limit { result ≡ self.now.recorded.config.limits.bytes }
        ensures small { result ≤ 2 ^ 30 }
    {
        self.config().limits.bytes
    }

    /// Takes one event. A flush that is refused, or whose page was not written whole, ends the session.
    pub fn step<K: ByteSink>(
        &mut self,
        alloc: Global,
        event: &Event,
        out: &mut K,
    ) -> Result<(), StepError>
        ensures ok { OnOk result ((s : State) → Holds self.old s
            → TakesLiveTurn (turn s event.now) self.new (K.held out.old, K.held out.new)) }
        ensures err { IfErr result (λ e. (s : State) → Holds self.old s
            → FailsStep s event.now e self.new (K.held out.old, K.held out.new)) }
        ensures ended { (result ≡ Err Ended) ↔ HasEnded self.old }
        ensures cause { HasStepCause result (K.faults out.old, K.faults out.new) }
        ensures image { OnOk result (event.now ≡ Flush
            → (s : State) → Holds self.old s → ShowsShape self.new s) }
        ensures rest { LeavesAsWas event.now (is_err result)
            (IsErrOf result (Refused OutOfMemory)) self.old self.new }
    {
        if self.ended {
            return Err(StepError::Ended);
        }
        let event = match event.try_clone(alloc) {
            Ok(event) => event,
            Err(error) => return Err(StepError::Refused(LiveError::from(error))),
        };
        match self.turn(alloc, event, out) {
            Ok(()) => Ok(()),
            Err(error) => Err(StepError::Refused(error)),
        }
    }

    // One event of a session that has not ended.
    #[tactic(auto, unfolding(crate::specs::Session::turn))]
    pub(crate) fn turn<K: ByteSink>(
        &mut self,
        alloc: Global,
        event: Event,
        out: &mut K,
    ) -> Result<(), LiveError>
        requires { ¬ HasEnded self.old }
        ensures ok { OnOk result ((s : State) → Holds self.old s
            → TakesLiveTurn (turn s event) self.new (K.held out.old, K.held out.new)) }
        ensures err { IfErr result (λ e. (s : State) → Holds self.old s
            → EndsLiveTurn (turn s event) (state_after_failure s event) e
            self.new (K.held out.old, K.held out.new)) }
        ensures cause { HasWriteCause result turn_statuses (K.faults out.old, K.faults out.new) }
        ensures image { OnOk result (event ≡ Flush
            → (s : State) → Holds self.old s → ShowsShape self.new s) }
        ensures rest { LeavesAsWas event (is_err result)
            (IsErrOf result OutOfMemory) self.old self.new }
    {
        match event {
            Event::File { path, text } => self.put_file(alloc, path, text),
            Event::Exclude { path } => self.exclude(path),
            Event::Answer { line, output } => self.record_answer(line, output),
            Event::Load { path } => self.load(alloc, path),
            Event::Build { output } => self.build(alloc, &output),
            Event::Flush => self.flush(alloc, out),
        }
    }

    // Sets the text of a file, or deletes it where there is none.
    fn put_file(
        &mut self,
        alloc: Global,
        path: VfsPath,
        text: Option<Text>,
    ) -> Result<(), LiveError>
        ensures ok { OnOk result (AddsMarkTo self.old self.new
            (record { path = path; kind = kind_of text })) }
        ensures room { OnOk result (¬ (IsFullFor self.old.recorded.files path)) }
        ensures too_many { IsErrOf result (TooMany Paths) → IsFullFor self.old.recorded.files path }
        ensures only { IfErr result (λ e. (e ≡ OutOfMemory) ⊎ (e ≡ TooMany Paths)) }
        ensures err { OnErr result (self.new ≡ self.old) }
    {
        match self.recorded.put(alloc, path, text) {
            Ok(()) => Ok(()),
            Err(VfsError::TooMany) => Err(LiveError::TooMany(Limit::Paths)),
            Err(VfsError::OutOfMemory) => Err(LiveError::OutOfMemory),
        }
    }

    // Leaves a file out.
    fn exclude(&mut self, path: VfsPath) -> Result<(), LiveError>
        ensures ok { OnOk result (AddsMarkTo self.old self.new
            (record { path = path; kind = Out })) }
        ensures room { OnOk result (¬ (IsFullFor self.old.recorded.files path)) }
        ensures too_many { IsErrOf result (TooMany Paths) → IsFullFor self.old.recorded.files path }
        ensures only { IfErr result (λ e. (e ≡ OutOfMemory) ⊎ (e ≡ TooMany Paths)) }
        ensures err { OnErr result (self.new ≡ self.old) }
    {
        match self.recorded.exclude(path) {
            Ok(()) => Ok(()),
            Err(VfsError::TooMany) => Err(LiveError::TooMany(Limit::Paths)),
            Err(VfsError::OutOfMemory) => Err(LiveError::OutOfMemory),
        }
    }
}
