//! Writing what a run made: the text of a flush, and the text of an error.

ghost use Rattle.std.specs.Prelude.{◌≡◌, ◌⊎◌, ◌∷◌, [], IfErr, IsErrOf, OnErr, OnOk};
ghost use Rattle.std.specs.Io.KnownBytes.{Appends};
ghost use Rattle.base_text_outside.specs.Sink.{AppendsPart};
ghost use Rattle.live_script.specs.Fault.{flush_statuses, live_error_text};
ghost use Rattle.live_script.specs.Written.{AppendsFront, HasWriteCause, TellsLine};
ghost use Rattle.live_script.specs.declared.fault.LiveError.TheVariants.{OutOfMemory, WriteFault};

use crate::fault::{LiveError, text_by};
use base_text_outside::{ByteSink, SinkError, write_all};
use std::alloc::Global;

/// Writes the text of a flush, whole or a front of it.
pub fn write_text<K: ByteSink>(out: &mut K, text: &str) -> Result<(), LiveError>
    ensures ok { OnOk result (Appends (K.held out.old) (K.held out.new) text.now) }
    ensures err { OnErr result (AppendsFront (K.held out.old, K.held out.new) (text.now ∷ [])) }
    ensures cut { IsErrOf result WriteFault
        → AppendsPart (K.held out.old) (K.held out.new) text.now }
    ensures only { IfErr result (λ e. (e ≡ OutOfMemory) ⊎ (e ≡ WriteFault)) }
    ensures cause { HasWriteCause result flush_statuses (K.faults out.old, K.faults out.new) }
{
    match write_all(out, text.as_bytes()) {
        Ok(()) => Ok(()),
        Err(SinkError::Failed) => Err(LiveError::WriteFault),
        Err(SinkError::OutOfMemory) => Err(LiveError::OutOfMemory),
    }
}

/// Writes the text of an error and a newline, for a command whose usage text this is. The line is made before any of it is written.
pub fn tell<E: ByteSink>(
    alloc: Global,
    usage: &str,
    error: &LiveError,
    err: &mut E,
) -> Result<(), SinkError>
    ensures { TellsLine result (live_error_text usage.now error.now)
        (E.held err.old, E.held err.new) (E.faults err.old, E.faults err.new) }
{
    let mut line = text_by(alloc, usage, error)?;
    line.push('\n')?;
    write_all(err, line.as_bytes())
}
