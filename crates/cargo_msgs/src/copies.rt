//! Copies of diagnostics and of what they hold.

ghost use Rattle.std.specs.Prelude.{◌≡◌, IfOk};

use crate::diagnostic::{Diagnostic, DiagnosticCode};
use crate::span::{DiagnosticSpan, DiagnosticSpanLine, DiagnosticSpanMacroExpansion};
use base_text::{Boxed, Items, TryClone};
use std::alloc::{AllocError, Global};

impl TryClone for DiagnosticCode {
    fn try_clone(&self, alloc: Global) -> Result<Self, AllocError> {
        Ok(DiagnosticCode {
            code: self.code.try_clone(alloc)?,
            explanation: self.explanation.try_clone(alloc)?,
        })
    }
}

impl TryClone for DiagnosticSpanLine {
    fn try_clone(&self, alloc: Global) -> Result<Self, AllocError> {
        Ok(DiagnosticSpanLine {
            text: self.text.try_clone(alloc)?,
            highlight_start: self.highlight_start,
            highlight_end: self.highlight_end,
        })
    }
}

impl TryClone for DiagnosticSpan {
    fn try_clone(&self, alloc: Global) -> Result<Self, AllocError> {
        clone_span(alloc, self)
    }
}

impl TryClone for DiagnosticSpanMacroExpansion {
    fn try_clone(&self, alloc: Global) -> Result<Self, AllocError> {
        clone_expansion(alloc, self)
    }
}

impl TryClone for Diagnostic {
    fn try_clone(&self, alloc: Global) -> Result<Self, AllocError> {
        clone_diagnostic(alloc, self)
    }
}

#[cycle(span_copy)]
fn clone_span(alloc: Global, span: &DiagnosticSpan) -> Result<DiagnosticSpan, AllocError>
    ensures { IfOk result (λ copy. copy ≡ span.now) }
{
    Ok(DiagnosticSpan {
        file_name: span.file_name.try_clone(alloc)?,
        byte_start: span.byte_start,
        byte_end: span.byte_end,
        line_start: span.line_start,
        line_end: span.line_end,
        column_start: span.column_start,
        column_end: span.column_end,
        is_primary: span.is_primary,
        text: span.text.try_clone(alloc)?,
        label: span.label.try_clone(alloc)?,
        suggested_replacement: span.suggested_replacement.try_clone(alloc)?,
        suggestion_applicability: span.suggestion_applicability.try_clone(alloc)?,
        expansion: clone_inside(alloc, &span.expansion)?,
    })
}

#[cycle(span_copy)]
fn clone_inside(
    alloc: Global,
    expansion: &Option<Boxed<DiagnosticSpanMacroExpansion>>,
) -> Result<Option<Boxed<DiagnosticSpanMacroExpansion>>, AllocError>
    ensures { IfOk result (λ copy. copy ≡ expansion.now) }
{
    match expansion {
        Some(expansion) => {
            let copy = clone_expansion(alloc, expansion.get())?;
            Ok(Some(Boxed::new(alloc, copy)?))
        }
        None => Ok(None),
    }
}

#[cycle(span_copy)]
fn clone_expansion(
    alloc: Global,
    expansion: &DiagnosticSpanMacroExpansion,
) -> Result<DiagnosticSpanMacroExpansion, AllocError>
    ensures { IfOk result (λ copy. copy ≡ expansion.now) }
{
    Ok(DiagnosticSpanMacroExpansion {
        span: clone_span(alloc, &expansion.span)?,
        macro_decl_name: expansion.macro_decl_name.try_clone(alloc)?,
        def_site_span: clone_site(alloc, &expansion.def_site_span)?,
    })
}

#[cycle(span_copy)]
fn clone_site(
    alloc: Global,
    site: &Option<DiagnosticSpan>,
) -> Result<Option<DiagnosticSpan>, AllocError>
    ensures { IfOk result (λ copy. copy ≡ site.now) }
{
    match site {
        Some(span) => Ok(Some(clone_span(alloc, span)?)),
        None => Ok(None),
    }
}

#[cycle(diagnostic_copy)]
fn clone_diagnostic(alloc: Global, diagnostic: &Diagnostic) -> Result<Diagnostic, AllocError>
    ensures { IfOk result (λ copy. copy ≡ diagnostic.now) }
{
    Ok(Diagnostic {
        message: diagnostic.message.try_clone(alloc)?,
        code: diagnostic.code.try_clone(alloc)?,
        level: diagnostic.level,
        spans: diagnostic.spans.try_clone(alloc)?,
        children: clone_children(alloc, diagnostic.children.as_slice())?,
        rendered: diagnostic.rendered.try_clone(alloc)?,
    })
}

#[cycle(diagnostic_copy)]
fn clone_children(alloc: Global, children: &[Diagnostic]) -> Result<Items<Diagnostic>, AllocError>
    ensures { IfOk result (λ copy. copy ≡ children.now) }
{
    let mut copies = Vec::new(alloc);
    for child in children {
        copies.push(clone_diagnostic(alloc, child)?)?;
    }
    Ok(Items::new(copies))
}
