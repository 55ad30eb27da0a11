//! A span, and the expansion of a macro that it comes from, which holds spans again.

ghost use Rattle.std.specs.Prelude.{◌≡◌, IfOk, option_map};
ghost use Rattle.serde_json.specs.View.{view};
ghost use Rattle.json_fields.specs.Nested.{GivesAt};
ghost use Rattle.json_fields.specs.Outcome.{Gives};
ghost use Rattle.json_fields.specs.Written.{option_data};
ghost use Rattle.cargo_msgs.specs.Span.{expansion_data, expansion_row, line_at, line_data, span_at, span_data, span_row, span_within};
ghost use Rattle.cargo_msgs.specs.laws.Span.{line-round_trips, span-round_trips};

use crate::level::Applicability;
use base_text::{Boxed, Items, Text};
use json_fields::{
    Json, MAX_LEVELS, ReadError, ReadJson, in_box, inner_levels, member, members, miss,
    optional_by, optional_member, present, required_by, required_member, set, set_value,
};
use serde_json::{Map, Value};
use std::alloc::{AllocError, Global};

/// A line of source, and which of its characters are highlighted, counted from 1.
#[derive(Debug, PartialEq, Eq, Drop)]
pub struct DiagnosticSpanLine {
    pub text: Text,
    pub highlight_start: u64,
    pub highlight_end: u64,
}

/// A part of a file: its bytes counted from 0, its lines and the characters of a line from 1.
#[cycle(spans)]
#[derive(Debug, PartialEq, Eq, Drop)]
pub struct DiagnosticSpan {
    pub file_name: Text,
    pub byte_start: u32,
    pub byte_end: u32,
    pub line_start: u64,
    pub line_end: u64,
    pub column_start: u64,
    pub column_end: u64,
    pub is_primary: bool,
    pub text: Items<DiagnosticSpanLine>,
    pub label: Option<Text>,
    pub suggested_replacement: Option<Text>,
    pub suggestion_applicability: Option<Applicability>,
    pub expansion: Option<Boxed<DiagnosticSpanMacroExpansion>>,
}

/// A macro's expansion: where it is used, and where it is defined.
#[cycle(spans)]
#[derive(Debug, PartialEq, Eq, Drop)]
pub struct DiagnosticSpanMacroExpansion {
    pub span: DiagnosticSpan,
    pub macro_decl_name: Text,
    pub def_site_span: Option<DiagnosticSpan>,
}

#[tactic(auto, unfolding(crate::specs::Span::line_at, json_fields::specs::Fields::required_member))]
impl ReadJson for DiagnosticSpanLine {
    ghost reads = { line_at };

    fn read(alloc: Global, value: &Value) -> Result<DiagnosticSpanLine, ReadError> {
        let fields = members(alloc, value)?;
        Ok(DiagnosticSpanLine {
            text: required_member(alloc, fields, "text")?,
            highlight_start: required_member(alloc, fields, "highlight_start")?,
            highlight_end: required_member(alloc, fields, "highlight_end")?,
        })
    }
}

#[tactic(auto, unfolding(crate::specs::Span::line_data, json_fields::specs::Written::set_member))]
impl Json for DiagnosticSpanLine {
    ghost writes = { line_data };

    ghost height = { 0 };

    fn write(&self, alloc: Global) -> Result<Value, AllocError> {
        let mut fields = Map::new(alloc);
        set(alloc, &mut fields, "text", &self.text)?;
        set(alloc, &mut fields, "highlight_start", &self.highlight_start)?;
        set(alloc, &mut fields, "highlight_end", &self.highlight_end)?;
        Ok(Value::Object(fields))
    }

    ghost round_trips = { line-round_trips };
}

#[tactic(auto, unfolding(crate::specs::Span::span_at))]
impl ReadJson for DiagnosticSpan {
    ghost reads = { span_at };

    fn read(alloc: Global, value: &Value) -> Result<DiagnosticSpan, ReadError> {
        read_span(alloc, MAX_LEVELS, value)
    }
}

impl Json for DiagnosticSpan {
    ghost writes = { span_data };

    ghost height = { 0 };

    fn write(&self, alloc: Global) -> Result<Value, AllocError> {
        write_span(alloc, self)
    }

    ghost round_trips = { span-round_trips };
}

#[cycle(span)]
#[tactic(auto, unfolding(json_fields::specs::Nested::within_levels))]
fn read_span(alloc: Global, left: usize, value: &Value) -> Result<DiagnosticSpan, ReadError>
    ensures exact { Gives result (span_within left (view value.now)) }
{
    match inner_levels(left) {
        Some(inner) => read_level(alloc, inner, value),
        None => miss(alloc),
    }
}

#[cycle(span)]
#[tactic(auto, unfolding(crate::specs::Span::span_row))]
fn read_level(alloc: Global, inner: usize, value: &Value) -> Result<DiagnosticSpan, ReadError>
    ensures exact { Gives result (span_row (span_within inner) (view value.now)) }
{
    let fields = members(alloc, value)?;
    Ok(DiagnosticSpan {
        file_name: required_member(alloc, fields, "file_name")?,
        byte_start: required_member(alloc, fields, "byte_start")?,
        byte_end: required_member(alloc, fields, "byte_end")?,
        line_start: required_member(alloc, fields, "line_start")?,
        line_end: required_member(alloc, fields, "line_end")?,
        column_start: required_member(alloc, fields, "column_start")?,
        column_end: required_member(alloc, fields, "column_end")?,
        is_primary: required_member(alloc, fields, "is_primary")?,
        text: required_member(alloc, fields, "text")?,
        label: optional_member(alloc, fields, "label")?,
        suggested_replacement: optional_member(alloc, fields, "suggested_replacement")?,
        suggestion_applicability: optional_member(alloc, fields, "suggestion_applicability")?,
        expansion: optional_by(
            alloc,
            "expansion",
            expansion_found(alloc, inner, present(fields, "expansion")),
        )?,
    })
}

#[cycle(span)]
fn expansion_found(
    alloc: Global,
    inner: usize,
    value: Option<&Value>,
) -> Option<Result<Boxed<DiagnosticSpanMacroExpansion>, ReadError>>
    ensures exact { GivesAt (expansion_row (span_within inner))
        (option_map (λ v. view v.now) value.entry) result }
{
    match value {
        Some(value) => Some(in_box(alloc, read_expansion(alloc, inner, value))),
        None => None,
    }
}

#[cycle(span)]
#[tactic(auto, unfolding(crate::specs::Span::expansion_row))]
fn read_expansion(
    alloc: Global,
    inner: usize,
    value: &Value,
) -> Result<DiagnosticSpanMacroExpansion, ReadError>
    ensures exact { Gives result (expansion_row (span_within inner) (view value.now)) }
{
    let fields = members(alloc, value)?;
    Ok(DiagnosticSpanMacroExpansion {
        span: required_by(
            alloc,
            "span",
            span_found(alloc, inner, member(fields, "span")),
        )?,
        macro_decl_name: required_member(alloc, fields, "macro_decl_name")?,
        def_site_span: optional_by(
            alloc,
            "def_site_span",
            span_found(alloc, inner, present(fields, "def_site_span")),
        )?,
    })
}

#[cycle(span)]
fn span_found(
    alloc: Global,
    left: usize,
    value: Option<&Value>,
) -> Option<Result<DiagnosticSpan, ReadError>>
    ensures exact { GivesAt (span_within left)
        (option_map (λ v. view v.now) value.entry) result }
{
    match value {
        Some(value) => Some(read_span(alloc, left, value)),
        None => None,
    }
}

#[cycle(span_written)]
#[tactic(auto, unfolding(crate::specs::Span::span_level, json_fields::specs::Written::set_member))]
fn write_span(alloc: Global, span: &DiagnosticSpan) -> Result<Value, AllocError>
    ensures { IfOk result (λ value. view value ≡ span_data span.now) }
{
    let mut fields = Map::new(alloc);
    set(alloc, &mut fields, "file_name", &span.file_name)?;
    set(alloc, &mut fields, "byte_start", &span.byte_start)?;
    set(alloc, &mut fields, "byte_end", &span.byte_end)?;
    set(alloc, &mut fields, "line_start", &span.line_start)?;
    set(alloc, &mut fields, "line_end", &span.line_end)?;
    set(alloc, &mut fields, "column_start", &span.column_start)?;
    set(alloc, &mut fields, "column_end", &span.column_end)?;
    set(alloc, &mut fields, "is_primary", &span.is_primary)?;
    set(alloc, &mut fields, "text", &span.text)?;
    set(alloc, &mut fields, "label", &span.label)?;
    let replacement = &span.suggested_replacement;
    set(alloc, &mut fields, "suggested_replacement", replacement)?;
    let applicability = &span.suggestion_applicability;
    set(
        alloc,
        &mut fields,
        "suggestion_applicability",
        applicability,
    )?;
    let expansion = write_expansion_or_null(alloc, &span.expansion)?;
    set_value(alloc, &mut fields, "expansion", expansion)?;
    Ok(Value::Object(fields))
}

#[cycle(span_written)]
fn write_expansion_or_null(
    alloc: Global,
    expansion: &Option<Boxed<DiagnosticSpanMacroExpansion>>,
) -> Result<Value, AllocError>
    ensures { IfOk result (λ value. view value ≡ option_data expansion_data expansion.now) }
{
    match expansion {
        Some(expansion) => write_expansion(alloc, expansion.get()),
        None => Ok(Value::Null),
    }
}

#[cycle(span_written)]
#[tactic(auto, unfolding(crate::specs::Span::expansion_level, json_fields::specs::Written::set_member))]
fn write_expansion(
    alloc: Global,
    expansion: &DiagnosticSpanMacroExpansion,
) -> Result<Value, AllocError>
    ensures { IfOk result (λ value. view value ≡ expansion_data expansion.now) }
{
    let mut fields = Map::new(alloc);
    let span = write_span(alloc, &expansion.span)?;
    set_value(alloc, &mut fields, "span", span)?;
    set(
        alloc,
        &mut fields,
        "macro_decl_name",
        &expansion.macro_decl_name,
    )?;
    let def_site_span = write_span_or_null(alloc, &expansion.def_site_span)?;
    set_value(alloc, &mut fields, "def_site_span", def_site_span)?;
    Ok(Value::Object(fields))
}

#[cycle(span_written)]
fn write_span_or_null(alloc: Global, span: &Option<DiagnosticSpan>) -> Result<Value, AllocError>
    ensures { IfOk result (λ value. view value ≡ option_data span_data span.now) }
{
    match span {
        Some(span) => write_span(alloc, span),
        None => Ok(Value::Null),
    }
}
