//! The levels of diagnostics, and how far a suggestion may be applied: closed tables of names.

ghost use Rattle.std.specs.Prelude.{◌≡◌};
ghost use Rattle.cargo_msgs.specs.Levels.{applicability_of, applicability_text, level_of, level_text};
ghost use Rattle.cargo_msgs.specs.laws.Levels.{applicability_of-again, level_of-again};

use base_text::TryClone;
use json_fields::{ReadError, TextJson, miss};
use std::alloc::{AllocError, Global};

/// How grave a diagnostic is. `Ice` is a fault of the compiler itself.
#[derive(Clone, Copy, Debug, PartialEq, Eq, Hash)]
pub enum DiagnosticLevel {
    Ice,
    Error,
    Warning,
    FailureNote,
    Note,
    Help,
}

/// How far a tool may apply a suggestion.
#[derive(Debug, PartialEq, Eq, Hash, Drop)]
pub enum Applicability {
    MachineApplicable,
    HasPlaceholders,
    MaybeIncorrect,
    Unspecified,
}

impl DiagnosticLevel {
    pub fn as_str(&self) -> &str
        ensures { result.now ≡ level_text self.now }
    {
        match self {
            DiagnosticLevel::Ice => "error: internal compiler error",
            DiagnosticLevel::Error => "error",
            DiagnosticLevel::Warning => "warning",
            DiagnosticLevel::FailureNote => "failure-note",
            DiagnosticLevel::Note => "note",
            DiagnosticLevel::Help => "help",
        }
    }
}

#[tactic(auto, unfolding(crate::specs::Levels::level_of))]
impl TextJson for DiagnosticLevel {
    ghost of_text = { level_of };

    ghost text_of = { level_text };

    fn read_text(alloc: Global, text: &str) -> Result<DiagnosticLevel, ReadError> {
        match text {
            "error: internal compiler error" => Ok(DiagnosticLevel::Ice),
            "error" => Ok(DiagnosticLevel::Error),
            "warning" => Ok(DiagnosticLevel::Warning),
            "failure-note" => Ok(DiagnosticLevel::FailureNote),
            "note" => Ok(DiagnosticLevel::Note),
            "help" => Ok(DiagnosticLevel::Help),
            _ => miss(alloc),
        }
    }

    fn write_text(&self, alloc: Global) -> Result<String, AllocError> {
        String::from_str(alloc, self.as_str())
    }

    ghost again = { level_of-again };
}

impl TryClone for Applicability {
    fn try_clone(&self, _alloc: Global) -> Result<Self, AllocError> {
        match self {
            Applicability::MachineApplicable => Ok(Applicability::MachineApplicable),
            Applicability::HasPlaceholders => Ok(Applicability::HasPlaceholders),
            Applicability::MaybeIncorrect => Ok(Applicability::MaybeIncorrect),
            Applicability::Unspecified => Ok(Applicability::Unspecified),
        }
    }
}

impl Applicability {
    pub fn as_str(&self) -> &str
        ensures { result.now ≡ applicability_text self.now }
    {
        match self {
            Applicability::MachineApplicable => "MachineApplicable",
            Applicability::HasPlaceholders => "HasPlaceholders",
            Applicability::MaybeIncorrect => "MaybeIncorrect",
            Applicability::Unspecified => "Unspecified",
        }
    }
}

#[tactic(auto, unfolding(crate::specs::Levels::applicability_of))]
impl TextJson for Applicability {
    ghost of_text = { applicability_of };

    ghost text_of = { applicability_text };

    fn read_text(alloc: Global, text: &str) -> Result<Applicability, ReadError> {
        match text {
            "MachineApplicable" => Ok(Applicability::MachineApplicable),
            "HasPlaceholders" => Ok(Applicability::HasPlaceholders),
            "MaybeIncorrect" => Ok(Applicability::MaybeIncorrect),
            "Unspecified" => Ok(Applicability::Unspecified),
            _ => miss(alloc),
        }
    }

    fn write_text(&self, alloc: Global) -> Result<String, AllocError> {
        String::from_str(alloc, self.as_str())
    }

    ghost again = { applicability_of-again };
}
