//! Recording an answer, and loading a project.

ghost use Rattle.std.specs.Prelude.{◌≡◌, IfErr, OnErr, OnOk};
ghost use Rattle.live.specs.Marked.{AddsAnswer, FailsLoad, LoadsProject};
ghost use Rattle.live_script.specs.declared.fault.LiveError.TheVariants.{OutOfMemory};

use crate::session::Live;
use base_text::{CommandLine, Output, Shared, Text};
use live_project::Project;
use live_script::LiveError;
use std::alloc::Global;
use std::rc::Rc;

impl Live {
    // Records what a command answered, in place of an earlier answer of the same question. No project that was loaded has it.
    pub(crate) fn record_answer(
        &mut self,
        line: CommandLine,
        output: Output,
    ) -> Result<(), LiveError>
        ensures ok { OnOk result (AddsAnswer self.old self.new line output) }
        ensures only { IfErr result (λ e. e ≡ OutOfMemory) }
        ensures err { OnErr result (self.new ≡ self.old) }
    {
        match self.recorded.record_answer(line, output) {
            Ok(()) => Ok(()),
            Err(error) => Err(LiveError::from(error)),
        }
    }

    // Loads the project of the manifest that a path names, in place of an earlier one. A load that is refused changes nothing.
    pub(crate) fn load(&mut self, alloc: Global, path: Text) -> Result<(), LiveError>
        ensures ok { OnOk result (LoadsProject self.old self.new path) }
        ensures refused { IfErr result (FailsLoad self.old path) }
        ensures err { OnErr result (self.new ≡ self.old) }
    {
        let sources = self.recorded.sources(alloc, path)?;
        let project = Project::load(alloc, sources)?;
        let project = Rc::new(alloc, project)?;
        self.project = Some(Shared::new(project));
        Ok(())
    }
}
