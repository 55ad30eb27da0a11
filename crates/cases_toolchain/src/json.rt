//! Documents of JSON projects, the projects that they make on a base, and what a command printed of one.

mod crates;
pub mod documents;
pub mod projects;
