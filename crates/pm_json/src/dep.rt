//! The crates that a crate depends on, each under a name.

ghost use Rattle.std.specs.Prelude.{◌≡◌, ◌==◌};
ghost use Rattle.pm_json.specs.Dep.{crate_name_of, dep_at, dep_data, dep_data-present};
ghost use Rattle.pm_json.specs.laws.Dep.{crate_name-again, dep-round_trips};

use base_text_paths::TryClone;
use crate_graph_values::CrateName;
use json_fields::{
    Json, Present, ReadError, ReadJson, TextJson, members, miss, required_member, set, set_value,
};
use serde_json::{Map, Value};
use std::alloc::{AllocError, Global};
use std::marker::Model;

/// The place of a crate in its document's list.
#[derive(Clone, Copy, Debug, PartialEq, Eq, Hash)]
pub struct CrateArrayIdx(pub usize);

impl TryClone for CrateArrayIdx {
    fn try_clone(&self, _alloc: Global) -> Result<Self, AllocError> {
        Ok(*self)
    }
}

/// A crate that another one depends on, under the name that code knows it by.
#[derive(Debug, PartialEq, Eq, Drop)]
pub struct Dep {
    pub krate: CrateArrayIdx,
    pub name: CrateName,
}

impl TryClone for Dep {
    fn try_clone(&self, alloc: Global) -> Result<Self, AllocError> {
        Ok(Dep {
            krate: self.krate,
            name: self.name.try_clone(alloc)?,
        })
    }
}

// The table of a crate's name, which is a text with no dash.
#[derive(Drop)]
struct CrateNameData {
    name: CrateName,
}

impl Model for CrateNameData {
    ghost use Rattle.std.specs.Prelude.{ℕ, List};

    ghost Value = { List ℕ };

    ghost view = { λ a. a.name };

    ghost inverse = { λ name. record { name = name } };
}

impl CrateNameData {
    fn into_inner(self) -> CrateName
        ensures { result ≡ self }
    {
        self.name
    }
}

#[tactic(auto, unfolding(crate::specs::Dep::crate_name_of))]
impl TextJson for CrateNameData {
    ghost of_text = { crate_name_of };

    ghost text_of = { λ name. name };

    fn read_text(alloc: Global, text: &str) -> Result<CrateNameData, ReadError> {
        match CrateName::new(String::from_str(alloc, text)?) {
            Ok(name) => Ok(CrateNameData { name }),
            Err(_) => miss(alloc),
        }
    }

    fn write_text(&self, alloc: Global) -> Result<String, AllocError> {
        String::from_str(alloc, self.name.symbol().as_str())
    }

    ghost again = { crate_name-again };
}

#[tactic(auto, unfolding(crate::specs::Dep::dep_at, json_fields::specs::Fields::required_member))]
impl ReadJson for Dep {
    ghost reads = { dep_at };

    fn read(alloc: Global, value: &Value) -> Result<Dep, ReadError> {
        let fields = members(alloc, value)?;
        let krate: u64 = required_member(alloc, fields, "crate")?;
        let name: CrateNameData = required_member(alloc, fields, "name")?;
        Ok(Dep {
            krate: CrateArrayIdx(krate as usize),
            name: name.into_inner(),
        })
    }
}

#[tactic(auto, unfolding(crate::specs::Dep::dep_data, json_fields::specs::Written::set_member))]
impl Json for Dep {
    ghost writes = { dep_data };

    ghost height = { 0 };

    fn write(&self, alloc: Global) -> Result<Value, AllocError> {
        let name = String::from_str(alloc, self.name.symbol().as_str())?;
        let mut fields = Map::new(alloc);
        set(alloc, &mut fields, "crate", &(self.krate.0 as u64))?;
        set_value(alloc, &mut fields, "name", Value::String(name))?;
        Ok(Value::Object(fields))
    }

    ghost round_trips = { dep-round_trips };
}

impl Present for Dep {
    ghost present = { dep_data-present };
}
