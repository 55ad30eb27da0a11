//! Changes of the conditional compilation, which a user makes for all crates and for crates by name.

ghost use Rattle.std.specs.Prelude.{◌≡◌, ◌⊎◌, OnErr, OnOk};
ghost use Rattle.pm_cargo_config.specs.Overrides.{atoms_with_overrides, count_of, no_overrides, with_diff};

use base_text::{ByText, CfgDiff, CfgOptions, TryClone};
use std::alloc::{AllocError, Global};

/// The change for all crates, and those for crates of a name.
#[derive(Drop, PartialEq, Eq)]
pub struct CfgOverrides {
    pub global: CfgDiff,
    pub selective: ByText<CfgDiff>,
}

impl CfgOverrides {
    /// No changes, which hold no memory.
    pub fn new(alloc: Global) -> Self
        ensures { result ≡ no_overrides }
    {
        CfgOverrides {
            global: CfgDiff::new(Vec::new(alloc), Vec::new(alloc)),
            selective: ByText::empty(alloc),
        }
    }

    /// How many atoms all the changes name. It stays at the greatest usize.
    pub fn len(&self) -> usize
        ensures { result ≡ count_of self.now }
    {
        let mut count = self.global.len();
        for (_, diff) in self.selective.as_map() {
            count = count.saturating_add(diff.len());
        }
        count
    }

    /// Applies the change for all crates, and then that for crates of the name.
    pub fn apply(&self, cfg_options: &mut CfgOptions, name: &str) -> Result<(), AllocError>
        ensures ok { OnOk result (cfg_options.new ≡ atoms_with_overrides self.now name.now cfg_options.old) }
        ensures err { OnErr result ((cfg_options.new ≡ cfg_options.old)
            ⊎ (cfg_options.new ≡ with_diff self.now.global cfg_options.old)) }
    {
        cfg_options.apply_diff(&self.global)?;
        if let Some(diff) = self.selective.get(name) {
            cfg_options.apply_diff(diff)?;
        }
        Ok(())
    }
}

impl TryClone for CfgOverrides {
    fn try_clone(&self, alloc: Global) -> Result<Self, AllocError> {
        Ok(CfgOverrides {
            global: self.global.try_clone(alloc)?,
            selective: self.selective.try_clone(alloc)?,
        })
    }
}
