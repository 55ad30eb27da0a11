//! Answers that are lists or objects, put together member by member.

use crate::case::{Fault, optional_answer, text_answer};
use serde_json::{Map, Value};
use std::alloc::Global;

/// An answer that is a list. The first fault stays until the answer is taken, and is what it then gives.
#[derive(Drop)]
pub struct List {
    alloc: Global,
    items: Result<Vec<Value>, Fault>,
}

impl List {
    pub fn new(alloc: Global) -> Self {
        let items = Ok(Vec::new(alloc));
        List { alloc, items }
    }

    /// Appends an answer, unless there is a fault.
    pub fn item(self, item: Result<Value, Fault>) -> Self {
        let List { alloc, items } = self;
        let items = with_item(items, item);
        List { alloc, items }
    }

    pub fn text(self, text: &str) -> Self {
        let item = text_answer(self.alloc, text);
        self.item(item)
    }

    /// Appends a text, or null.
    pub fn optional(self, text: Option<&str>) -> Self {
        let item = optional_answer(self.alloc, text);
        self.item(item)
    }

    pub fn number(self, number: u64) -> Self {
        self.item(Ok(Value::from(number)))
    }

    pub fn flag(self, flag: bool) -> Self {
        self.item(Ok(Value::Bool(flag)))
    }

    pub fn answer(self) -> Result<Value, Fault> {
        Ok(Value::Array(self.items?))
    }
}

fn with_item(
    items: Result<Vec<Value>, Fault>,
    item: Result<Value, Fault>,
) -> Result<Vec<Value>, Fault> {
    let mut items = items?;
    items.push(item?)?;
    Ok(items)
}

/// An answer that is an object. The first fault stays until the answer is taken, and is what it then gives.
#[derive(Drop)]
pub struct Object {
    alloc: Global,
    members: Result<Map<String, Value>, Fault>,
}

impl Object {
    pub fn new(alloc: Global) -> Self {
        let members = Ok(Map::new(alloc));
        Object { alloc, members }
    }

    /// Sets a member to an answer, unless there is a fault.
    pub fn member(self, key: &str, member: Result<Value, Fault>) -> Self {
        let Object { alloc, members } = self;
        let members = with_member(alloc, members, key, member);
        Object { alloc, members }
    }

    pub fn text(self, key: &str, text: &str) -> Self {
        let member = text_answer(self.alloc, text);
        self.member(key, member)
    }

    /// Sets a member to a text, or to null.
    pub fn optional(self, key: &str, text: Option<&str>) -> Self {
        let member = optional_answer(self.alloc, text);
        self.member(key, member)
    }

    pub fn number(self, key: &str, number: u64) -> Self {
        self.member(key, Ok(Value::from(number)))
    }

    pub fn flag(self, key: &str, flag: bool) -> Self {
        self.member(key, Ok(Value::Bool(flag)))
    }

    pub fn answer(self) -> Result<Value, Fault> {
        Ok(Value::Object(self.members?))
    }
}

fn with_member(
    alloc: Global,
    members: Result<Map<String, Value>, Fault>,
    key: &str,
    member: Result<Value, Fault>,
) -> Result<Map<String, Value>, Fault> {
    let mut members = members?;
    drop(members.insert(String::from_str(alloc, key)?, member?)?);
    Ok(members)
}
