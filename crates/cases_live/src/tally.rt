//! Files that are counted between flushes.

ghost use Rattle.std.specs.Prelude.{◌≡◌, ◌<◌, ◌≤◌, ◌+◌, ◌∷◌, ◌⊎◌, ℕ, List, [], Some, IfErr, IfOk, IsErrOf, OnErr, OnOk, string_bytes};
ghost use Rattle.std.specs.Io.KnownBytes.{Appends};
ghost use Rattle.cases_live.specs.Tally.{HoldsTally, TallyState, most_files, tally_rules, tally_text, tally_turn};
ghost use Rattle.live_page.specs.declared.event.Event.TheVariants.{Flush};
ghost use Rattle.live_script.specs.Fault.{flush_statuses, run_statuses, status_of};
ghost use Rattle.live_script.specs.Run.{Completes, EndsFrom, Finishes, HasStatusCause, IsFaultless, TakesAtMost};
ghost use Rattle.live_script.specs.Session.{session_by};
ghost use Rattle.live_script.specs.Turn.{EndsTurn, TakesTurn};
ghost use Rattle.live_script.specs.Written.{AppendsFront, HasWriteCause};
ghost use Rattle.live_script.specs.declared.fault.LiveError.TheVariants.{OutOfMemory, TooMany, WriteFault};
ghost use Rattle.base_text_outside.specs.Sink.{AppendsPart};
ghost use Rattle.base_text_outside.specs.declared.limits.Limit.TheVariants.{Paths};

use base_text::{ByteSink, ByteSource, Limit};
use live_page::Event;
use live_script::{LiveError, Stepper, run_script, write_text};
use std::alloc::{AllocError, Global};

/// How many files were spoken of since the last flush, and how many that one had.
#[derive(Drop)]
pub struct Tally {
    files: u64,
    last: Option<u64>,
}

impl Tally {
    /// No file was spoken of, and there was no flush.
    pub fn new() -> Tally
        ensures { HoldsTally result [] (record { files = 0 }) }
    {
        Tally {
            files: 0,
            last: None,
        }
    }

    // Counts one more file.
    fn count(&mut self) -> Result<(), LiveError>
        ensures ok { OnOk result ((self.old.files < most_files)
            × (self.new.files ≡ self.old.files + 1) × (self.new.last ≡ self.old.last)) }
        ensures err { OnErr result ((most_files ≤ self.old.files) × (self.new ≡ self.old)) }
        ensures only { IfErr result (λ e. e ≡ TooMany Paths) }
    {
        if self.files >= 1000 {
            return Err(LiveError::TooMany(Limit::Paths));
        }
        self.files += 1;
        Ok(())
    }

    // Writes the count, and begins a new one.
    fn flush<K: ByteSink>(&mut self, alloc: Global, out: &mut K) -> Result<(), LiveError>
        ensures ok { OnOk result ((s : TallyState) (before : List ℕ) → HoldsTally self.old before s
            → TakesTurn tally_rules (tally_turn s Flush) before self.new
            (K.held out.old, K.held out.new)) }
        ensures err { IfErr result (λ e. (s : TallyState) (before : List ℕ)
            → HoldsTally self.old before s
            → EndsTurn tally_rules (tally_turn s Flush) (λ left. left ≡ s) e before self.new
            (K.held out.old, K.held out.new)) }
        ensures cause { HasWriteCause result flush_statuses (K.faults out.old, K.faults out.new) }
    {
        match write_count(alloc, self.last, self.files, out) {
            Ok(()) => {
                self.last = Some(self.files);
                self.files = 0;
                Ok(())
            }
            Err(error) => Err(error),
        }
    }
}

// Writes a count, whole or a front of its text.
fn write_count<K: ByteSink>(
    alloc: Global,
    last: Option<u64>,
    files: u64,
    out: &mut K,
) -> Result<(), LiveError>
    ensures ok { OnOk result (Appends (K.held out.old) (K.held out.new) (tally_text last files)) }
    ensures err { OnErr result (AppendsFront (K.held out.old, K.held out.new)
        (tally_text last files ∷ [])) }
    ensures cut { IsErrOf result WriteFault
        → AppendsPart (K.held out.old) (K.held out.new) (tally_text last files) }
    ensures only { IfErr result (λ e. (e ≡ OutOfMemory) ⊎ (e ≡ WriteFault)) }
    ensures cause { HasWriteCause result flush_statuses (K.faults out.old, K.faults out.new) }
{
    let text = text_of(alloc, last, files)?;
    write_text(out, text.as_str())
}

// What is written at a flush.
fn text_of(alloc: Global, last: Option<u64>, files: u64) -> Result<String, AllocError>
    ensures { IfOk result (λ text. string_bytes text ≡ tally_text last files) }
{
    match last {
        None => format!(in alloc; "{files} files\n"),
        Some(before) => {
            if before == files {
                format!(in alloc; "{files} files, as before\n")
            } else {
                format!(in alloc; "{files} files\n")
            }
        }
    }
}

impl Stepper for Tally {
    ghost use Rattle.cases_live.specs.Tally.{tally_rules};

    ghost rules = { tally_rules };

    ghost has_ended = { λ tally. ⊥ };

    ghost keeps = { λ result old new. Unit {0} };

    fn take<K: ByteSink>(
        &mut self,
        alloc: Global,
        event: Event,
        out: &mut K,
    ) -> Result<(), LiveError> {
        match event {
            Event::File { .. } => self.count(),
            Event::Flush => self.flush(alloc, out),
            Event::Exclude { .. } => Ok(()),
            Event::Answer { .. } => Ok(()),
            Event::Load { .. } => Ok(()),
            Event::Build { .. } => Ok(()),
        }
    }

    ghost keeps_itself = { λ result p. tt };

    ghost keeps_on = { λ done result p q r first second. tt };
}

/// Runs a script of at most a million bytes.
pub fn tally_run<S: ByteSource, K: ByteSink>(
    alloc: Global,
    tally: &mut Tally,
    input: &mut S,
    out: &mut K,
) -> Result<(), LiveError>
    ensures ok { OnOk result ((s : TallyState) (before : List ℕ) → HoldsTally tally.old before s
        → Finishes tally_rules 1000000 s before tally.new
        (S.left input.old, S.left input.new) (K.held out.old, K.held out.new)) }
    ensures err { IfErr result (λ e. (s : TallyState) (before : List ℕ)
        → HoldsTally tally.old before s → EndsFrom tally_rules 1000000 s before e tally.new
        (S.left input.old, S.left input.new) (K.held out.old, K.held out.new)) }
    ensures cause { IfErr result (λ e. HasStatusCause run_statuses (status_of e)
        (S.faults input.old, S.faults input.new) (K.faults out.old, K.faults out.new)) }
    ensures taken { TakesAtMost 1000001 (S.left input.old, S.left input.new) }
    ensures complete { (s : TallyState) (before : List ℕ) → HoldsTally tally.old before s
        → (all : List ℕ) → S.left input.old ≡ Some all
        → IsFaultless (S.faults input.old, S.faults input.new) (K.faults out.old, K.faults out.new)
        → Completes (session_by 1000000 tally_turn s all).refusal result }
{
    run_script(alloc, 1000000, tally, input, out)
}
