//! The traits of the outside, with their forms in memory and over the streams of std: where bytes come from and go, who answers
//! command lines, numbers that are given once, counts of steps, and limits; and the symbols and atoms that tools print.
#![tactic(auto)]

pub mod cfg;
pub mod command;
pub mod command_words;
mod faults;
pub mod ledger;
pub mod limits;
pub mod nonce;
pub mod runner;
pub mod sink;
pub mod source;
pub mod streams;
pub mod symbol;

pub use cfg::{CfgAtom, CfgError, parse_cfg, write_cfg};
pub use command::{CommandLine, Output, Question};
pub use ledger::{Counter, Ledger, Steps};
pub use limits::{Limit, Limits};
pub use nonce::{NonceSource, Numbers};
pub use runner::{RecordedRunner, Runner};
pub use sink::{ByteSink, FaultSink, MemorySink, SinkError, write_all};
pub use source::{ByteSource, Failed, FaultSource, MemorySource};
pub use streams::{ReaderSource, WriterSink};
pub use symbol::Symbol;
