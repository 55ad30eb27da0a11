//! The bare version: no pre-release, no build metadata, and the third number may be left out.

ghost use Rattle.std.specs.Prelude.{◌≡◌, ◌==◌, ◌||◌, IfOk, Ok, count_by};
ghost use Rattle.semver.specs.Identifiers.{parts_text};
ghost use Rattle.semver.specs.Parse.{version_parts};
ghost use Rattle.json_fields.specs.Versions.{GivesBare, bare_of, bare_parts, first_mark, full_version_text, or_not_version, version_text};
ghost use Rattle.json_fields.specs.Laws.ReadAgain.{bare_of-again};

use crate::place::ReadError;
use crate::reading::miss;
use crate::text_json::TextJson;
use base_values::{TryClone, Version};
use std::alloc::{AllocError, Global};
use std::marker::Model;
use std::{error, fmt};

/// Why a text is no bare version.
#[derive(Clone, Copy, Debug, PartialEq, Eq)]
pub enum BareError {
    PreRelease,
    BuildMetadata,
    NotVersion,
    OutOfMemory,
}

impl fmt::Display for BareError {
    ghost use Rattle.std.specs.Prelude.{Some};
    ghost use Rattle.json_fields.specs.Printed.{bare_error_text};

    ghost output = { λ e. Some (bare_error_text e) };

    fn fmt<W: fmt::Write>(&self, f: &mut fmt::Formatter<W>) -> fmt::Result {
        match self {
            BareError::PreRelease => f.write_str("PreRelease"),
            BareError::BuildMetadata => f.write_str("BuildMetadata"),
            BareError::NotVersion => f.write_str("NotVersion"),
            BareError::OutOfMemory => f.write_str("OutOfMemory"),
        }
    }
}

impl error::Error for BareError {}

/// The first `-` or `+` decides, and with exactly one dot `.0` is appended.
#[tactic(auto, unfolding(crate::specs::Versions::bare_parts))]
pub fn bare_version(alloc: Global, text: &str) -> Result<Version, BareError>
    ensures exact { GivesBare result (bare_parts text.now) }
    ensures again { IfOk result (λ p. bare_parts (parts_text p) ≡ Ok p) }
{
    match first_mark(text.as_bytes()) {
        Some(b'-') => Err(BareError::PreRelease),
        Some(_) => Err(BareError::BuildMetadata),
        None => completed_version(alloc, text),
    }
}

fn first_mark(text: &[u8]) -> Option<u8>
    ensures { result ≡ first_mark text.now }
{
    text.iter().copied().find(|b| *b == b'-' || *b == b'+')
}

fn completed_version(alloc: Global, text: &str) -> Result<Version, BareError>
    ensures exact { GivesBare result (or_not_version (version_parts (full_version_text text.now))) }
{
    if count_dots(text.as_bytes()) != 1 {
        return parse_version(alloc, text);
    }
    match format!(in alloc; "{text}.0") {
        Ok(whole) => parse_version(alloc, whole.as_str()),
        Err(_) => Err(BareError::OutOfMemory),
    }
}

fn count_dots(text: &[u8]) -> usize
    ensures { result ≡ count_by (λ b. b == 46) text.now }
{
    text.iter().filter(|b| **b == b'.').count()
}

fn parse_version(alloc: Global, text: &str) -> Result<Version, BareError>
    ensures { GivesBare result (or_not_version (version_parts text.now)) }
{
    match semver::Version::parse(alloc, text) {
        Ok(inner) => Ok(Version::new(inner)),
        Err(error) => {
            if error == semver::Error::from(AllocError) {
                return Err(BareError::OutOfMemory);
            }
            Err(BareError::NotVersion)
        }
    }
}

/// The table of a bare version, which is read into a `Version`.
#[derive(PartialEq, Eq, Drop)]
pub struct BareVersion {
    version: Version,
}

impl Model for BareVersion {
    ghost use Rattle.std.specs.Prelude.{ℕ, List};

    ghost Value = { ℕ × ℕ × ℕ × List ℕ × List ℕ };

    ghost view = { λ a. a.version };

    ghost inverse = { λ parts. record { version = parts } };
}

impl BareVersion {
    pub fn new(version: Version) -> Self
        ensures { result ≡ version }
    {
        BareVersion { version }
    }

    pub fn as_version(&self) -> &Version
        ensures { result.now ≡ self.now }
    {
        &self.version
    }

    pub fn into_inner(self) -> Version
        ensures { result ≡ self }
    {
        self.version
    }
}

impl TryClone for BareVersion {
    fn try_clone(&self, alloc: Global) -> Result<Self, AllocError> {
        Ok(BareVersion {
            version: self.version.try_clone(alloc)?,
        })
    }
}

#[tactic(auto, unfolding(crate::specs::Versions::bare_of, crate::specs::Versions::version_text))]
impl TextJson for BareVersion {
    ghost of_text = { bare_of };

    ghost text_of = { version_text };

    fn read_text(alloc: Global, text: &str) -> Result<BareVersion, ReadError> {
        match bare_version(alloc, text) {
            Ok(version) => Ok(BareVersion { version }),
            Err(BareError::OutOfMemory) => Err(ReadError::OutOfMemory),
            Err(_) => miss(alloc),
        }
    }

    fn write_text(&self, alloc: Global) -> Result<String, AllocError> {
        self.version.write_text(alloc)
    }

    ghost again = { bare_of-again };
}
