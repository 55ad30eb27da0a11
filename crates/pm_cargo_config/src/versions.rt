//! From which version on something holds.

ghost use Rattle.std.specs.Prelude.{◌≡◌, option_copied};
ghost use Rattle.pm_cargo_config.specs.Versions.{is_at_least, is_json_target, needs_json_flag};

use base_text::Version;

/// Whether the version is that release or comes after it. A pre-release of it comes before it.
pub fn is_at_least(version: &Version, major: u64, minor: u64, patch: u64) -> bool
    ensures { result ≡ is_at_least (major, minor, patch) version.now }
{
    semver::Version::new(major, minor, patch) <= *version.as_version()
}

/// Whether a command for that platform needs the option `-Zjson-target-spec`: a JSON file describes the
/// platform, and the version is known to ask for it.
pub fn needs_json_flag(target: &str, version: Option<&Version>) -> bool
    ensures { result ≡ needs_json_flag (option_copied version.entry) target.now }
{
    match version {
        Some(version) => is_json_target(target) && is_at_least(version, 1, 95, 0),
        None => false,
    }
}

// Whether a JSON file describes the platform.
fn is_json_target(target: &str) -> bool
    ensures { result ≡ is_json_target target.now }
{
    target.ends_with(".json")
}
