//! Which members of a workspace each member depends on, over dependencies between members.
#![tactic(auto)]

mod closure;
pub mod members;

pub use members::with_all_member_deps;
