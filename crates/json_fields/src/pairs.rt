//! A pair as a list of exactly two.

ghost use Rattle.std.specs.Prelude.{◌≡◌, max, refl};
ghost use Rattle.json_fields.specs.Pairs.{json_pair_at, pair_data};
ghost use Rattle.json_fields.specs.Laws.Pairs.{pair-round_trips};
ghost use Rattle.json_fields.specs.RoundTrip.{outer_height};

use crate::place::{ReadError, below_item};
use crate::reading::{Json, Present, ReadJson, miss};
use serde_json::Value;
use std::alloc::{AllocError, Global};

impl<A: ReadJson, B: ReadJson> ReadJson for (A, B) {
    ghost reads = { json_pair_at A.reads B.reads };

    fn read(alloc: Global, value: &Value) -> Result<(A, B), ReadError> {
        let Some(values) = value.as_array() else {
            return miss(alloc);
        };
        let [first, second] = values.as_slice() else {
            return miss(alloc);
        };
        let first = below_item(alloc, 0, A::read(alloc, first))?;
        let second = below_item(alloc, 1, B::read(alloc, second))?;
        Ok((first, second))
    }
}

impl<A: Json, B: Json> Json for (A, B) {
    ghost writes = { pair_data A.writes B.writes };

    ghost height = { max (outer_height A.height) (outer_height B.height) };

    fn write(&self, alloc: Global) -> Result<Value, AllocError> {
        let mut values = Vec::with_capacity(alloc, 2)?;
        values.push(self.0.write(alloc)?)?;
        values.push(self.1.write(alloc)?)?;
        Ok(Value::Array(values))
    }

    ghost round_trips = { pair-round_trips A.reads A.writes A.height A.round_trips B.reads B.writes B.height B.round_trips };
}

impl<A: Json, B: Json> Present for (A, B) {
    ghost present = { λ x. refl };
}
