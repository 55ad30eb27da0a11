//! What goes into a session and what comes out of it: the lines of a script and the event of each, and a script that is generated; a
//! flush into a database, and its page.
#![tactic(auto)]

mod changes;
pub mod crate_entry;
mod entries;
pub mod event;
mod generated;
mod generated_lines;
pub mod laws;
pub mod lines;
mod page_text;
mod piece;
mod refreshing;
pub mod source_roots;

pub use crate_entry::{CrateEntry, DependencyEntry};
pub use entries::crate_entries;
pub use event::{Event, EventError};
pub use generated::generated_document;
pub use generated_lines::generated_script;
pub use lines::{LineError, Lines};
pub use page_text::{entry_values, line_of, page, page_value, set_value};
pub use refreshing::refresh;
pub use vfs_sets::FileRoot;
