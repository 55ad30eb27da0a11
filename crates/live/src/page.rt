//! Writing the page of a flush.

ghost use Rattle.std.specs.Prelude.{◌≡◌, ◌∷◌, ◌⊎◌, [], IfErr, OnErr, OnOk};
ghost use Rattle.std.specs.Io.KnownBytes.{Appends};
ghost use Rattle.std.specs.Result.{IsErrOf};
ghost use Rattle.live_script.specs.Fault.{flush_statuses};
ghost use Rattle.live_script.specs.Written.{AppendsFront, HasWriteCause};
ghost use Rattle.live_script.specs.declared.fault.LiveError.TheVariants.{OutOfMemory, WriteFault};
ghost use Rattle.base_text_outside.specs.Sink.{AppendsPart};
ghost use Rattle.live_page.specs.Page.{page_of};

use base_text::ByteSink;
use input_db::InputDb;
use live_page::page;
use live_script::{LiveError, write_text};
use std::alloc::Global;

/// Writes the page that a database shows.
pub(crate) fn write_page<K: ByteSink>(
    alloc: Global,
    db: &InputDb,
    out: &mut K,
) -> Result<(), LiveError>
    ensures ok { OnOk result (Appends (K.held out.old) (K.held out.new) (page_of db.now)) }
    ensures err { OnErr result (AppendsFront (K.held out.old, K.held out.new)
        (page_of db.now ∷ [])) }
    ensures cut { IsErrOf result WriteFault
        → AppendsPart (K.held out.old) (K.held out.new) (page_of db.now) }
    ensures only { IfErr result (λ e. (e ≡ OutOfMemory) ⊎ (e ≡ WriteFault)) }
    ensures cause { HasWriteCause result flush_statuses (K.faults out.old, K.faults out.new) }
{
    let text = page(alloc, db)?;
    write_text(out, text.as_str())
}
