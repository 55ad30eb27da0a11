//! The plain kinds of value: a text, true or false, a number, a value or null, and a list.

ghost use Rattle.std.specs.Prelude.{◌≡◌, ◌∷◌, Ok, refl};
ghost use Rattle.serde_json.specs.Data.{boolean, string, number, unsigned};
ghost use Rattle.serde_json.specs.View.{items_view};
ghost use Rattle.json_fields.specs.Fields.{flag_at, items_from, list_at, number_at, option_at, text_at};
ghost use Rattle.json_fields.specs.Outcome.{Gives};
ghost use Rattle.json_fields.specs.RoundTrip.{outer_height};
ghost use Rattle.json_fields.specs.Written.{list_data, option_data};
ghost use Rattle.json_fields.specs.Laws.RoundTrips.{flag-round_trips, list-round_trips, number-round_trips, option-round_trips, text-round_trips};

use crate::place::{ReadError, below_item};
use crate::reading::{Json, Present, ReadJson, miss};
use base_values::{Items, Name, Text};
use serde_json::Value;
use std::alloc::{AllocError, Global};

/// A list gets room for at most so many items before the first of them is read, since a list that
/// misses its table at its front may be far longer than what is read of it.
const FIRST_ROOM: usize = 1024;

impl ReadJson for Text {
    ghost reads = { text_at };

    fn read(alloc: Global, value: &Value) -> Result<Text, ReadError> {
        match value.as_str() {
            Some(text) => Ok(Text::of_str(alloc, text)?),
            None => miss(alloc),
        }
    }
}

impl Json for Text {
    ghost writes = { string };

    ghost height = { 0 };

    fn write(&self, alloc: Global) -> Result<Value, AllocError> {
        Ok(Value::String(String::from_str(alloc, self.as_str())?))
    }

    ghost round_trips = { text-round_trips };
}

impl Present for Text {
    ghost present = { λ x. refl };
}

impl<K> ReadJson for Name<K> {
    ghost reads = { text_at };

    fn read(alloc: Global, value: &Value) -> Result<Name<K>, ReadError> {
        Ok(Name::new(Text::read(alloc, value)?))
    }
}

impl<K> Json for Name<K> {
    ghost writes = { string };

    ghost height = { 0 };

    fn write(&self, alloc: Global) -> Result<Value, AllocError> {
        Ok(Value::String(String::from_str(alloc, self.as_str())?))
    }

    ghost round_trips = { text-round_trips };
}

impl<K> Present for Name<K> {
    ghost present = { λ x. refl };
}

impl ReadJson for bool {
    ghost reads = { flag_at };

    fn read(alloc: Global, value: &Value) -> Result<bool, ReadError> {
        match value {
            Value::Bool(flag) => Ok(*flag),
            _ => miss(alloc),
        }
    }
}

impl Json for bool {
    ghost writes = { boolean };

    ghost height = { 0 };

    fn write(&self, _alloc: Global) -> Result<Value, AllocError> {
        Ok(Value::Bool(*self))
    }

    ghost round_trips = { flag-round_trips };
}

impl Present for bool {
    ghost present = { λ x. refl };
}

impl ReadJson for u64 {
    ghost reads = { number_at };

    fn read(alloc: Global, value: &Value) -> Result<u64, ReadError> {
        match value.as_u64() {
            Some(n) => Ok(n),
            None => miss(alloc),
        }
    }
}

impl Json for u64 {
    ghost writes = { λ n. number (unsigned n) };

    ghost height = { 0 };

    fn write(&self, _alloc: Global) -> Result<Value, AllocError> {
        Ok(Value::from(*self))
    }

    ghost round_trips = { number-round_trips };
}

impl Present for u64 {
    ghost present = { λ x. refl };
}

impl<T: ReadJson> ReadJson for Option<T> {
    ghost reads = { option_at T.reads };

    fn read(alloc: Global, value: &Value) -> Result<Option<T>, ReadError> {
        match value {
            Value::Null => Ok(None),
            _ => Ok(Some(T::read(alloc, value)?)),
        }
    }
}

impl<T: Present> Json for Option<T> {
    ghost writes = { option_data T.writes };

    ghost height = { T.height };

    fn write(&self, alloc: Global) -> Result<Value, AllocError> {
        match self {
            None => Ok(Value::Null),
            Some(x) => x.write(alloc),
        }
    }

    ghost round_trips = { option-round_trips T.reads T.writes T.height T.round_trips T.present };
}

impl<T: ReadJson> ReadJson for Items<T> {
    ghost reads = { list_at T.reads };

    fn read(alloc: Global, value: &Value) -> Result<Items<T>, ReadError> {
        match value.as_array() {
            Some(values) => read_items(alloc, values.as_slice()),
            None => miss(alloc),
        }
    }
}

impl<T: Json> Json for Items<T> {
    ghost writes = { list_data T.writes };

    ghost height = { outer_height T.height };

    fn write(&self, alloc: Global) -> Result<Value, AllocError> {
        let items = self.as_slice();
        let mut values = Vec::with_capacity(alloc, items.len())?;
        for item in items {
            values.push(item.write(alloc)?)?;
        }
        Ok(Value::Array(values))
    }

    ghost round_trips = { list-round_trips T.reads T.writes T.height T.round_trips };
}

impl<T: Json> Present for Items<T> {
    ghost present = { λ x. refl };
}

fn read_items<T: ReadJson>(alloc: Global, values: &[Value]) -> Result<Items<T>, ReadError>
    ensures exact { Gives result (items_from T.reads 0 (items_view values.now)) }
{
    let mut items = Vec::with_capacity(alloc, values.len().min(FIRST_ROOM))?;
    for (position, value) in values.iter().enumerate() {
        items.push(below_item(alloc, position, T::read(alloc, value))?)?;
    }
    Ok(Items::new(items))
}
