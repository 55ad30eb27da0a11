//! Whole numbers of 32 bits, and with a sign. Those of 64 bits with no sign are among the plain values.

ghost use Rattle.std.specs.Prelude.{◌≡◌, refl};
ghost use Rattle.serde_json.specs.Data.{number, unsigned};
ghost use Rattle.json_fields.specs.Numbers.{i64_at, i64_data, u32_at};
ghost use Rattle.json_fields.specs.Laws.Numbers.{i64-present, i64-round_trips, u32-round_trips};

use crate::place::ReadError;
use crate::reading::{Json, Present, ReadJson, miss};
use serde_json::Value;
use std::alloc::{AllocError, Global};

impl ReadJson for u32 {
    ghost reads = { u32_at };

    fn read(alloc: Global, value: &Value) -> Result<u32, ReadError> {
        match value.as_u64() {
            Some(n) if n <= u32::MAX as u64 => Ok(n as u32),
            _ => miss(alloc),
        }
    }
}

impl Json for u32 {
    ghost writes = { λ n. number (unsigned n) };

    ghost height = { 0 };

    fn write(&self, _alloc: Global) -> Result<Value, AllocError> {
        Ok(Value::from(*self))
    }

    ghost round_trips = { u32-round_trips };
}

impl Present for u32 {
    ghost present = { λ x. refl };
}

impl ReadJson for i64 {
    ghost reads = { i64_at };

    fn read(alloc: Global, value: &Value) -> Result<i64, ReadError> {
        match value.as_i64() {
            Some(n) => Ok(n),
            None => miss(alloc),
        }
    }
}

impl Json for i64 {
    ghost writes = { i64_data };

    ghost height = { 0 };

    fn write(&self, _alloc: Global) -> Result<Value, AllocError> {
        Ok(Value::from(*self))
    }

    ghost round_trips = { i64-round_trips };
}

impl Present for i64 {
    ghost present = { i64-present };
}
