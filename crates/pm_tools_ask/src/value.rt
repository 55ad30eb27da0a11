//! The value at the front of a text, of which only the end counts here.

ghost use Rattle.std.specs.Prelude.{◌≡◌, option_map};
ghost use Rattle.pm_tools_ask.specs.Line.{after_run, after_value, ends_run, opens_list};

use crate::quotes::{Quotes, behind};

// A character that ends a value without quotes.
#[tactic(auto, unfolding(crate::specs::Line::ends_run))]
fn ends_run(c: char) -> bool
    ensures { result ≡ ends_run c }
{
    c.is_whitespace() || c == ',' || c == '#'
}

// What follows a value without quotes.
fn after_run(text: &str) -> &str
    ensures { result.now ≡ after_run text.now }
{
    let mut chars = text.chars();
    let mut rest = text;
    while let Some(c) = chars.next() {
        if ends_run(c) {
            return rest;
        }
        rest = chars.as_str();
    }
    rest
}

/// What follows the value at the front of a text, where there is one.
#[tactic(auto, unfolding(crate::specs::Line::after_value))]
pub(crate) fn after_value(text: &str) -> Option<&str>
    ensures { option_map (λ rest. rest.now) result ≡ after_value text.now }
{
    if let Some(quoted) = behind(text, '"') {
        return Quotes::Basic.after_text(quoted);
    }
    if let Some(quoted) = behind(text, '\'') {
        return Quotes::Literal.after_text(quoted);
    }
    let rest = after_run(text);
    if rest.len() < text.len() {
        Some(rest)
    } else {
        None
    }
}

/// Whether a text is the `[` of a list whose items stand on lines of their own.
#[tactic(auto, unfolding(crate::specs::Line::opens_list))]
pub(crate) fn opens_list(text: &str) -> bool
    ensures { result ≡ opens_list text.now }
{
    match behind(text, '[') {
        Some(rest) => rest.trim_start().is_empty(),
        None => false,
    }
}
