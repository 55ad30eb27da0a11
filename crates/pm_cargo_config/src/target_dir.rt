//! Where a build writes, beside the directory that other builds of the workspace write into.

ghost use Rattle.std.specs.Prelude.{◌≡◌, codes, IfOk, option_copied};
ghost use Rattle.pm_cargo_config.specs.TargetDir.{name_below, target_dir};

use base_text::{Text, TryClone};
use std::alloc::{AllocError, Global};

/// Where a build writes.
#[derive(Debug, Default, Drop, PartialEq, Eq)]
pub enum TargetDirectoryConfig {
    /// Where the workspace's other builds write.
    #[default]
    None,
    /// In the directory `rust-analyzer` below that.
    UseSubdirectory,
    /// In this directory.
    Directory(Text),
}

impl TargetDirectoryConfig {
    /// The directory that a build is to write into, where the workspace's other builds write into
    /// `ws_target_dir`. None where it is given none.
    pub fn target_dir(
        &self,
        alloc: Global,
        ws_target_dir: Option<&str>,
    ) -> Result<Option<Text>, AllocError>
        ensures { IfOk result (λ dir. dir ≡ target_dir self.now (option_copied ws_target_dir.entry)) }
    {
        match (self, ws_target_dir) {
            (TargetDirectoryConfig::UseSubdirectory, Some(dir)) => {
                Ok(Some(subdirectory(alloc, dir)?))
            }
            (TargetDirectoryConfig::Directory(dir), _) => Ok(Some(dir.try_clone(alloc)?)),
            _ => Ok(None),
        }
    }
}

impl TryClone for TargetDirectoryConfig {
    fn try_clone(&self, alloc: Global) -> Result<Self, AllocError> {
        match self {
            TargetDirectoryConfig::None => Ok(TargetDirectoryConfig::None),
            TargetDirectoryConfig::UseSubdirectory => Ok(TargetDirectoryConfig::UseSubdirectory),
            TargetDirectoryConfig::Directory(dir) => {
                Ok(TargetDirectoryConfig::Directory(dir.try_clone(alloc)?))
            }
        }
    }
}

// The directory `rust-analyzer` below another one.
fn subdirectory(alloc: Global, dir: &str) -> Result<Text, AllocError>
    ensures { IfOk result (λ text. text ≡ name_below dir.now (codes "rust-analyzer")) }
{
    let separator = if dir.is_empty() || dir.ends_with('/') {
        ""
    } else {
        "/"
    };
    let text = format!(in alloc; "{dir}{separator}rust-analyzer")?;
    Ok(Text::new(text))
}
