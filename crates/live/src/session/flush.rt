//! A flush: what has changed is brought into the database, and a page is written.

ghost use Rattle.std.specs.Prelude.{◌≡◌, ◌+◌, ◌<◌, ◌^◌, ◌⊎◌, IfErr, IfOk, IsErrOf, OnErr, OnOk, is_err, length};
ghost use Rattle.vfs_core.specs.Files.{existing_files};
ghost use Rattle.live_page.specs.declared.event.Event.TheVariants.{Flush};
ghost use Rattle.live_script.specs.Fault.{flush_statuses};
ghost use Rattle.live.specs.Marked.{SparesFiles};
ghost use Rattle.live.specs.Page.{roots_by};
ghost use Rattle.live.specs.Refresh.{FailsFlush, GivesGraph, KeepsLast, RefreshesLive};
ghost use Rattle.live.specs.Session.{State, ended_state, flush_turn};
ghost use Rattle.live.specs.Turn.{CountsFlush, EndsLiveTurn, HasEnded, Holds, LeavesAsWas, ShowsShape, TakesLiveTurn};
ghost use Rattle.live_script.specs.Written.{HasWriteCause};
ghost use Rattle.live_script.specs.declared.fault.LiveError.TheVariants.{OutOfMemory};

use crate::last_flush::LastFlush;
use crate::page::write_page;
use crate::session::Live;
use base_text::{ByteSink, Items, Shared, TryClone};
use crate_graph::CrateGraphBuilder;
use live_project::Project;
use live_script::LiveError;
use pm_lower_crates::LowerError;
use std::alloc::{AllocError, Global};
use vfs_core::Vfs;
use vfs_sets::FileRoot;

// The roots that place files: those of a project, and none where there is no project.
fn file_roots(
    alloc: Global,
    project: &Option<Shared<Project>>,
) -> Result<Items<FileRoot>, AllocError>
    ensures roots { IfOk result (λ roots. roots ≡ roots_by project.now) }
    ensures few { length (roots_by project.now) + 1 < 2 ^ 32 }
{
    match project {
        None => Ok(Items::empty(alloc)),
        Some(project) => project.get().file_roots(alloc),
    }
}

// The graph of a project's crates by the files that exist, and none where there is no project.
fn crate_graph(
    alloc: Global,
    project: &Option<Shared<Project>>,
    files: &Vfs,
) -> Result<Option<CrateGraphBuilder>, LowerError>
    ensures { GivesGraph project.now (existing_files files.now) result }
{
    match project {
        None => Ok(None),
        Some(project) => match project.get().crate_graph(alloc, files) {
            Ok(graph) => Ok(Some(graph)),
            Err(error) => Err(error),
        },
    }
}

impl Live {
    // Brings what has changed into the database and writes a page. A flush that is refused, or whose page
    // does not reach the sink whole, ends the session.
    pub(crate) fn flush<K: ByteSink>(&mut self, alloc: Global, out: &mut K) -> Result<(), LiveError>
        requires { ¬ HasEnded self.old }
        ensures ok { OnOk result ((s : State) → Holds self.old s
            → TakesLiveTurn (flush_turn s) self.new (K.held out.old, K.held out.new)) }
        ensures image { OnOk result ((s : State) → Holds self.old s → ShowsShape self.new s) }
        ensures err { IfErr result (λ e. (s : State) → Holds self.old s
            → EndsLiveTurn (flush_turn s) (ended_state s) e self.new (K.held out.old, K.held out.new)) }
        ensures cause { HasWriteCause result flush_statuses (K.faults out.old, K.faults out.new) }
        ensures rest { LeavesAsWas Flush (is_err result)
            (IsErrOf result OutOfMemory) self.old self.new }
    {
        let last = match self.refresh(alloc) {
            Ok(last) => last,
            Err(error) => {
                self.ended = true;
                return Err(error);
            }
        };
        match write_page(alloc, &self.db, out) {
            Ok(()) => {
                self.flushed = Some(last);
                Ok(())
            }
            Err(error) => {
                self.ended = true;
                Err(error)
            }
        }
    }

    // Brings the files that exist, by the roots of the project, what has changed of them, and the crates that the project has by them
    // into the database. What is to be kept of the flush is the answer.
    fn refresh(&mut self, alloc: Global) -> Result<LastFlush, LiveError>
        ensures ok { OnOk result (RefreshesLive self.old self.new) }
        ensures last { IfOk result (KeepsLast self.old) }
        ensures refused { IfErr result (FailsFlush self.old) }
        ensures err { OnErr result (SparesFiles self.old self.new) }
        ensures spared { IfErr result (λ e. (e ≡ OutOfMemory) ⊎ (self.new.db ≡ self.old.db)) }
        ensures probes { CountsFlush self.old self.new }
    {
        let last = self.kept_now(alloc)?;
        let roots = file_roots(alloc, &self.project)?;
        let graph = crate_graph(alloc, &self.project, &self.recorded.files)?;
        live_page::refresh(
            alloc,
            &mut self.recorded.files,
            &mut self.db,
            roots.as_slice(),
            graph,
            &mut self.probes,
        )?;
        Ok(last)
    }

    // What is kept of a flush that is made now: a count of the texts, and one of the project.
    fn kept_now(&self, alloc: Global) -> Result<LastFlush, AllocError>
        ensures { IfOk result (KeepsLast self.now) }
    {
        Ok(LastFlush {
            texts: self.recorded.texts.try_clone(alloc)?,
            project: self.project.try_clone(alloc)?,
        })
    }
}
