//! Versions and requirements, whose contracts see parts and texts where they see no buffers.

ghost use Rattle.std.specs.Prelude.{◌≡◌, Ok, IfOk, map};
ghost use Rattle.semver.specs.Identifiers.{comparator_view};
ghost use Rattle.semver.specs.Parse.{req_of};
ghost use Rattle.json_fields.specs.Outcome.{Gives};
ghost use Rattle.json_fields.specs.Versions.{requirement_of, version_of, version_text};
ghost use Rattle.json_fields.specs.Laws.ReadAgain.{requirement_of-again, version_of-again};

use crate::place::ReadError;
use crate::reading::miss;
use crate::text_json::TextJson;
use base_values::{Text, TryClone, Version};
use semver::VersionReq;
use std::alloc::{AllocError, Global};
use std::marker::Model;

#[tactic(auto, unfolding(crate::specs::Versions::version_of, crate::specs::Versions::version_text))]
impl TextJson for Version {
    ghost of_text = { version_of };

    ghost text_of = { version_text };

    fn read_text(alloc: Global, text: &str) -> Result<Version, ReadError> {
        match semver::Version::parse(alloc, text) {
            Ok(inner) => Ok(Version::new(inner)),
            Err(error) => {
                if error == semver::Error::from(AllocError) {
                    return Err(ReadError::OutOfMemory);
                }
                miss(alloc)
            }
        }
    }

    fn write_text(&self, alloc: Global) -> Result<String, AllocError> {
        self.as_version().to_string(alloc)
    }

    ghost again = { version_of-again };
}

/// A requirement, seen as its text, which says what it holds.
#[derive(Drop)]
pub struct Requirement {
    text: Text,
    req: VersionReq,
}

impl Model for Requirement {
    ghost use Rattle.std.specs.Prelude.{◌≡◌, ℕ, List, Ok, map};
    ghost use Rattle.semver.specs.Identifiers.{comparator_view};
    ghost use Rattle.semver.specs.Parse.{req_of};

    ghost Value = { List ℕ };

    ghost view = { λ a. a.text };

    ghost invariant = { λ a. req_of a.text ≡ Ok (map comparator_view a.req.comparators.items) };
}

impl Requirement {
    /// The requirement that a text is, by the grammar of `semver`, or a miss of this very place.
    #[tactic(auto, unfolding(crate::specs::Versions::requirement_of))]
    pub fn parse(alloc: Global, text: &str) -> Result<Requirement, ReadError>
        ensures exact { Gives result (requirement_of text.now) }
        ensures same { IfOk result (λ copy. copy ≡ text.now) }
    {
        match VersionReq::parse(alloc, text) {
            Ok(req) => {
                let text = Text::of_str(alloc, text)?;
                Ok(Requirement { text, req })
            }
            Err(error) => {
                if error == semver::Error::from(AllocError) {
                    return Err(ReadError::OutOfMemory);
                }
                miss(alloc)
            }
        }
    }

    pub fn as_str(&self) -> &str
        ensures { result.now ≡ self.now }
    {
        self.text.as_str()
    }

    pub fn as_req(&self) -> &VersionReq
        ensures { req_of self.now ≡ Ok (map comparator_view result.now.comparators.items) }
    {
        &self.req
    }
}

impl TryClone for Requirement {
    fn try_clone(&self, alloc: Global) -> Result<Self, AllocError> {
        match Requirement::parse(alloc, self.text.as_str()) {
            Ok(copy) => Ok(copy),
            Err(_) => Err(AllocError),
        }
    }
}

#[tactic(auto, unfolding(crate::specs::Versions::requirement_of))]
impl TextJson for Requirement {
    ghost of_text = { requirement_of };

    ghost text_of = { λ text. text };

    fn read_text(alloc: Global, text: &str) -> Result<Requirement, ReadError> {
        Requirement::parse(alloc, text)
    }

    fn write_text(&self, alloc: Global) -> Result<String, AllocError> {
        String::from_str(alloc, self.text.as_str())
    }

    ghost again = { requirement_of-again };
}

impl PartialEq for Requirement {
    ghost use Rattle.std.specs.Prelude.{nat_eq};
    ghost use Rattle.std.specs.Cmp.{partial_equiv_from_equiv};
    ghost use Rattle.std.specs.Cmp.Lexicographic.{pointwise, nat_list_eq_equiv};

    ghost eq = { pointwise nat_eq };

    ghost laws = { partial_equiv_from_equiv nat_list_eq_equiv };

    fn eq(&self, other: &Self) -> bool {
        self.text == other.text
    }
}

impl Eq for Requirement {
    ghost use Rattle.std.specs.Cmp.Lexicographic.{nat_list_eq_equiv};

    ghost laws = { nat_list_eq_equiv };
}
