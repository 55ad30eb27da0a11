//! Tables of fields: how a JSON document is read into a type, and written from it again.
#![tactic(auto)]

pub mod any_value;
pub mod bare;
pub mod cfg;
pub mod document;
pub mod equal;
pub mod floats;
pub mod maps;
pub mod nested;
pub mod numbers;
pub mod pairs;
pub mod place;
pub mod reading;
pub mod text_json;
pub mod values;
pub mod versions;
pub mod writing;

pub use any_value::AnyValue;
pub use bare::{BareError, BareVersion, bare_version};
pub use base_values::Version;
pub use document::{normal_text, of_bytes, of_text, of_value, to_text};
pub use equal::same_value;
pub use floats::holds_float;
pub use nested::{MAX_LEVELS, in_box, inner_levels, optional_by, present, required_by};
pub use place::{ReadError, below, below_item};
pub use reading::{
    Json, Present, ReadJson, default_member, list_member, map_member, member, members, miss,
    optional_member, required_member,
};
pub use text_json::TextJson;
pub use versions::Requirement;
pub use writing::{set, set_unless_null, set_value};
