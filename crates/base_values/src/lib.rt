//! Values that contracts see as their content, where they would see buffers and capacities: texts,
//! lists, maps, boxes, shared values, versions and names, with their copies and their sorting.
#![tactic(auto)]

pub mod boxed;
pub mod by_number;
pub mod by_text;
pub mod copies;
pub mod items;
pub mod laws;
pub mod name;
pub mod shared;
pub mod shared_text;
pub mod sorted;
pub mod text;
pub mod try_clone;
pub mod version;

pub use boxed::Boxed;
pub use by_number::ByNumber;
pub use by_text::ByText;
pub use copies::{copy_entries, copy_items};
pub use items::Items;
pub use name::Name;
pub use shared::Shared;
pub use shared_text::SharedText;
pub use sorted::sort_all;
pub use text::Text;
pub use try_clone::TryClone;
pub use version::Version;
