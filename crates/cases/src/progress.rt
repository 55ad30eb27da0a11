//! A progress that keeps its lines.

ghost use Rattle.std.specs.Prelude.{None};

use crate::case::text_answer;
use base_text::Progress;
use serde_json::Value;
use std::alloc::Global;

/// The lines that were taken, and whether each of them was kept.
#[derive(Drop)]
pub struct Lines {
    pub kept: Vec<Value>,
    pub is_whole: bool,
}

impl Lines {
    pub fn new(alloc: Global) -> Self {
        Lines {
            kept: Vec::new(alloc),
            is_whole: true,
        }
    }
}

impl Progress for Lines {
    ghost lines = { λ _. None };

    fn line(&mut self, text: &str) {
        match text_answer(*self.kept.allocator(), text) {
            Ok(line) => self.is_whole &= self.kept.push(line).is_ok(),
            Err(_) => self.is_whole = false,
        }
    }
}
