//! The program: the standard streams as source and sinks, and the words of the command line.
#![tactic(auto)]

ghost use Rattle.std.specs.IoError.{error_kind};
ghost use Rattle.std.specs.Prelude.{◌≡◌};

mod top;

use base_text_outside::{ReaderSource, WriterSink};
use live::usage_text;
use live_script::{LiveError, tell};
use std::env;
use std::io::{self, ErrorKind};
use std::process::ExitCode;
pub use top::live_top;

fn main(rt: HostRuntime) -> ExitCode {
    let mut err = WriterSink::new(rt.stderr());
    let args = match env::args(&rt) {
        Ok(args) => args,
        Err(error) => {
            let fault = refused_words(&error);
            let _ = tell(rt.alloc(), usage_text(), &fault, &mut err);
            return ExitCode::from(fault.status());
        }
    };
    let words: Vec<String> = match args.skip(1).collect(rt.alloc()) {
        Ok(words) => words,
        Err(_) => return ExitCode::from(LiveError::OutOfMemory.status()),
    };
    let mut input = ReaderSource::new(rt.stdin());
    let mut out = WriterSink::new(rt.stdout());
    let status = live_top(rt.alloc(), words.as_slice(), &mut input, &mut out, &mut err);
    ExitCode::from(status)
}

// Why the system gave no words: out of memory, or else they are wrong, as where one of them is not UTF-8.
fn refused_words(error: &io::Error) -> LiveError
    ensures memory { error_kind error.now ≡ ErrorKind.OutOfMemory → result ≡ LiveError.OutOfMemory }
    ensures usage { ¬ (error_kind error.now ≡ ErrorKind.OutOfMemory) → result ≡ LiveError.Usage }
{
    match error.kind() {
        ErrorKind::OutOfMemory => LiveError::OutOfMemory,
        _ => LiveError::Usage,
    }
}
