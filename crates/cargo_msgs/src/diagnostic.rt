//! A diagnostic, whose children are diagnostics: a table that leads back to itself through a list.

ghost use Rattle.std.specs.Prelude.{◌≡◌, IfOk, option_map};
ghost use Rattle.serde_json.specs.View.{view, items_view};
ghost use Rattle.json_fields.specs.Fields.{items_from, list_at};
ghost use Rattle.json_fields.specs.Nested.{GivesAt};
ghost use Rattle.json_fields.specs.Outcome.{Gives};
ghost use Rattle.json_fields.specs.Written.{list_data};
ghost use Rattle.cargo_msgs.specs.Diagnostic.{code_at, code_data, diagnostic_at, diagnostic_data, diagnostic_row, diagnostic_within};
ghost use Rattle.cargo_msgs.specs.laws.Diagnostic.{code-round_trips, diagnostic-round_trips};

use crate::level::DiagnosticLevel;
use crate::span::DiagnosticSpan;
use base_text::{Items, Text};
use json_fields::{
    Json, MAX_LEVELS, Present, ReadError, ReadJson, below_item, inner_levels, member, members,
    miss, optional_member, required_by, required_member, set, set_value,
};
use serde_json::{Map, Value};
use std::alloc::{AllocError, Global};

/// The code of a diagnostic, and what explains it.
#[derive(Debug, PartialEq, Eq, Drop)]
pub struct DiagnosticCode {
    pub code: Text,
    pub explanation: Option<Text>,
}

/// What a compiler reports, with its children.
#[derive(Debug, PartialEq, Eq, Drop)]
pub struct Diagnostic {
    pub message: Text,
    pub code: Option<DiagnosticCode>,
    pub level: DiagnosticLevel,
    pub spans: Items<DiagnosticSpan>,
    pub children: Items<Diagnostic>,
    pub rendered: Option<Text>,
}

#[tactic(auto, unfolding(crate::specs::Diagnostic::code_at, json_fields::specs::Fields::required_member, json_fields::specs::Fields::optional_member))]
impl ReadJson for DiagnosticCode {
    ghost reads = { code_at };

    fn read(alloc: Global, value: &Value) -> Result<DiagnosticCode, ReadError> {
        let fields = members(alloc, value)?;
        Ok(DiagnosticCode {
            code: required_member(alloc, fields, "code")?,
            explanation: optional_member(alloc, fields, "explanation")?,
        })
    }
}

#[tactic(auto, unfolding(crate::specs::Diagnostic::code_data, json_fields::specs::Written::set_member))]
impl Json for DiagnosticCode {
    ghost writes = { code_data };

    ghost height = { 0 };

    fn write(&self, alloc: Global) -> Result<Value, AllocError> {
        let mut fields = Map::new(alloc);
        set(alloc, &mut fields, "code", &self.code)?;
        set(alloc, &mut fields, "explanation", &self.explanation)?;
        Ok(Value::Object(fields))
    }

    ghost round_trips = { code-round_trips };
}

impl Present for DiagnosticCode {
    ghost use Rattle.cargo_msgs.specs.Diagnostic.{code_data-present};

    ghost present = { code_data-present };
}

#[tactic(auto, unfolding(crate::specs::Diagnostic::diagnostic_at))]
impl ReadJson for Diagnostic {
    ghost reads = { diagnostic_at };

    fn read(alloc: Global, value: &Value) -> Result<Diagnostic, ReadError> {
        read_diagnostic(alloc, MAX_LEVELS, value)
    }
}

impl Json for Diagnostic {
    ghost writes = { diagnostic_data };

    ghost height = { 0 };

    fn write(&self, alloc: Global) -> Result<Value, AllocError> {
        write_diagnostic(alloc, self)
    }

    ghost round_trips = { diagnostic-round_trips };
}

#[cycle(diagnostic)]
#[tactic(auto, unfolding(json_fields::specs::Nested::within_levels))]
fn read_diagnostic(alloc: Global, left: usize, value: &Value) -> Result<Diagnostic, ReadError>
    ensures exact { Gives result (diagnostic_within left (view value.now)) }
{
    match inner_levels(left) {
        Some(inner) => read_level(alloc, inner, value),
        None => miss(alloc),
    }
}

#[cycle(diagnostic)]
#[tactic(auto, unfolding(crate::specs::Diagnostic::diagnostic_row))]
fn read_level(alloc: Global, inner: usize, value: &Value) -> Result<Diagnostic, ReadError>
    ensures exact { Gives result (diagnostic_row (diagnostic_within inner) (view value.now)) }
{
    let fields = members(alloc, value)?;
    Ok(Diagnostic {
        message: required_member(alloc, fields, "message")?,
        code: optional_member(alloc, fields, "code")?,
        level: required_member(alloc, fields, "level")?,
        spans: required_member(alloc, fields, "spans")?,
        children: required_by(
            alloc,
            "children",
            children_found(alloc, inner, member(fields, "children")),
        )?,
        rendered: optional_member(alloc, fields, "rendered")?,
    })
}

#[cycle(diagnostic)]
fn children_found(
    alloc: Global,
    left: usize,
    value: Option<&Value>,
) -> Option<Result<Items<Diagnostic>, ReadError>>
    ensures exact { GivesAt (list_at (diagnostic_within left))
        (option_map (λ v. view v.now) value.entry) result }
{
    match value {
        Some(Value::Array(values)) => Some(read_children(alloc, left, values.as_slice())),
        Some(_) => Some(miss(alloc)),
        None => None,
    }
}

#[cycle(diagnostic)]
fn read_children(
    alloc: Global,
    left: usize,
    values: &[Value],
) -> Result<Items<Diagnostic>, ReadError>
    ensures exact { Gives result (items_from (diagnostic_within left) 0 (items_view values.now)) }
{
    let mut children = Vec::new(alloc);
    for (position, value) in values.iter().enumerate() {
        children.push(below_item(alloc, position, read_diagnostic(alloc, left, value))?)?;
    }
    Ok(Items::new(children))
}

#[cycle(diagnostic_written)]
#[tactic(auto, unfolding(crate::specs::Diagnostic::diagnostic_level, json_fields::specs::Written::set_member))]
fn write_diagnostic(alloc: Global, diagnostic: &Diagnostic) -> Result<Value, AllocError>
    ensures { IfOk result (λ value. view value ≡ diagnostic_data diagnostic.now) }
{
    let mut fields = Map::new(alloc);
    set(alloc, &mut fields, "message", &diagnostic.message)?;
    set(alloc, &mut fields, "code", &diagnostic.code)?;
    set(alloc, &mut fields, "level", &diagnostic.level)?;
    set(alloc, &mut fields, "spans", &diagnostic.spans)?;
    let children = write_children(alloc, diagnostic.children.as_slice())?;
    set_value(alloc, &mut fields, "children", children)?;
    set(alloc, &mut fields, "rendered", &diagnostic.rendered)?;
    Ok(Value::Object(fields))
}

#[cycle(diagnostic_written)]
fn write_children(alloc: Global, children: &[Diagnostic]) -> Result<Value, AllocError>
    ensures { IfOk result (λ value. view value ≡ list_data diagnostic_data children.now) }
{
    let mut values = Vec::new(alloc);
    for child in children {
        values.push(write_diagnostic(alloc, child)?)?;
    }
    Ok(Value::Array(values))
}
