//! The messages of a build, line by line, with the diagnostics that a compiler reports in them.
#![tactic(auto)]

pub mod artifact;
pub mod build;
mod copies;
pub mod debuginfo;
pub mod diagnostic;
pub mod laws;
pub mod level;
pub mod message_iter;
pub mod messages;
mod printed;
mod printed_diagnostics;
pub mod span;

pub use artifact::{Artifact, ArtifactProfile};
pub use build::{BuildFinished, BuildScript};
pub use debuginfo::ArtifactDebuginfo;
pub use diagnostic::{Diagnostic, DiagnosticCode};
pub use level::{Applicability, DiagnosticLevel};
pub use message_iter::{ItemFault, MessageIter};
pub use messages::{CompilerMessage, Message};
pub use span::{DiagnosticSpan, DiagnosticSpanLine, DiagnosticSpanMacroExpansion};
