//! The platform that a compiler runs on.

ghost use Rattle.std.specs.Prelude.{◌≡◌, option_copied};
ghost use Rattle.pm_tools_info.specs.Host.{host_of};

/// The platform that the answer of `rustc -vV` names: what follows `host: ` on the first such line.
pub fn host_of(text: &str) -> Option<&str>
    ensures { option_copied result ≡ host_of text.now }
{
    for line in text.lines() {
        if let Some(host) = line.strip_prefix("host: ") {
            return Some(host);
        }
    }
    None
}
