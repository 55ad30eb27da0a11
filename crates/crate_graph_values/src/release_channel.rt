//! The channel that a toolchain was released on.

ghost use Rattle.std.specs.Prelude.{◌≡◌};
ghost use Rattle.crate_graph_values.specs.ReleaseChannel.{channel_of, channel_text};

use base_text_paths::TryClone;
use std::alloc::{AllocError, Global};

/// The channel that a toolchain was released on.
#[derive(Clone, Copy, Debug, PartialEq, Eq, PartialOrd, Ord, Hash)]
pub enum ReleaseChannel {
    Stable,
    Beta,
    Nightly,
}

impl ReleaseChannel {
    pub fn as_str(self) -> &'static str
        ensures { result.now ≡ channel_text self }
    {
        match self {
            ReleaseChannel::Stable => "stable",
            ReleaseChannel::Beta => "beta",
            ReleaseChannel::Nightly => "nightly",
        }
    }

    /// The channel that the pre-release part of a toolchain's version names.
    pub fn from_text(text: &str) -> Option<Self>
        ensures { result ≡ channel_of text.now }
    {
        match text {
            "" | "stable" => Some(ReleaseChannel::Stable),
            "nightly" => Some(ReleaseChannel::Nightly),
            _ if text.starts_with("beta") => Some(ReleaseChannel::Beta),
            _ => None,
        }
    }
}

impl TryClone for ReleaseChannel {
    fn try_clone(&self, _alloc: Global) -> Result<Self, AllocError> {
        Ok(*self)
    }
}
