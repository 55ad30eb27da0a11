//! Any value, for a field whose table takes what stands there.

ghost use Rattle.std.specs.Prelude.{◌≡◌};
ghost use Rattle.serde_json.specs.Data.{null};
ghost use Rattle.serde_json.specs.View.{view};
ghost use Rattle.json_fields.specs.Fields.{any_at};
ghost use Rattle.json_fields.specs.Laws.RoundTrips.{any-round_trips};

use crate::equal::same_value;
use crate::place::ReadError;
use crate::reading::{Json, ReadJson};
use base_values::TryClone;
use serde_json::Value;
use std::alloc::{AllocError, Global};
use std::marker::Model;

/// A JSON value that contracts see as its data.
#[derive(Drop)]
pub struct AnyValue {
    inner: Value,
}

impl Model for AnyValue {
    ghost use Rattle.serde_json.specs.Data.{Data};
    ghost use Rattle.json_fields.specs.DataCode.{data_code};

    ghost Value = { Data };

    ghost coded = { data_code };

    ghost use Rattle.serde_json.specs.View as json;

    ghost view = { λ a. json.view a.inner };
}

impl AnyValue {
    pub fn null() -> Self
        ensures { result ≡ null }
    {
        AnyValue { inner: Value::Null }
    }

    pub fn new(inner: Value) -> Self
        ensures { result ≡ view inner }
    {
        AnyValue { inner }
    }

    pub fn as_value(&self) -> &Value
        ensures { view result.now ≡ self.now }
    {
        &self.inner
    }

    pub fn into_inner(self) -> Value
        ensures { view result ≡ self }
    {
        self.inner
    }
}

impl ReadJson for AnyValue {
    ghost reads = { any_at };

    fn read(_alloc: Global, value: &Value) -> Result<AnyValue, ReadError> {
        Ok(AnyValue {
            inner: value.clone()?,
        })
    }
}

impl Json for AnyValue {
    ghost writes = { λ d. d };

    ghost height = { 0 };

    fn write(&self, _alloc: Global) -> Result<Value, AllocError> {
        self.inner.clone()
    }

    ghost round_trips = { any-round_trips };
}

impl TryClone for AnyValue {
    fn try_clone(&self, _alloc: Global) -> Result<Self, AllocError> {
        Ok(AnyValue {
            inner: self.inner.clone()?,
        })
    }
}

impl PartialEq for AnyValue {
    ghost use Rattle.std.specs.Cmp.{partial_equiv_from_equiv};
    ghost use Rattle.json_fields.specs.Equal.{data_eq, data_eq-equiv};

    ghost eq = { data_eq };

    ghost laws = { partial_equiv_from_equiv data_eq-equiv };

    fn eq(&self, other: &Self) -> bool {
        same_value(&self.inner, &other.inner)
    }
}

impl Eq for AnyValue {
    ghost use Rattle.json_fields.specs.Equal.{data_eq-equiv};

    ghost laws = { data_eq-equiv };
}
