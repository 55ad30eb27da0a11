//! A configuration that loads keep.

ghost use Rattle.std.specs.Prelude.{◌≡◌, IfOk};

use base_text::{Shared, TryClone};
use live_config::LiveConfig;
use std::alloc::{AllocError, Global};
use std::marker::Model;
use std::rc::Rc;

/// A configuration, seen as itself, with the copy of it that loads share once one is made. To set one takes no memory.
#[derive(Drop)]
pub struct SharedConfig {
    config: LiveConfig,
    shared: Option<Shared<LiveConfig>>,
}

impl Model for SharedConfig {
    ghost use Rattle.live_config.specs.declared.config.LiveConfig.{LiveConfig};
    ghost use Rattle.live_project.specs.SharedConfig.{IsCopy};

    ghost Value = { LiveConfig };

    ghost view = { λ a. a.config };

    ghost invariant = { λ a. IsCopy a.config a.shared };
}

impl SharedConfig {
    /// A configuration of which there is no copy yet.
    pub fn new(config: LiveConfig) -> Self
        ensures { result ≡ config }
    {
        SharedConfig {
            config,
            shared: None,
        }
    }

    /// The configuration.
    pub fn get(&self) -> &LiveConfig
        ensures { result.now ≡ self.now }
    {
        &self.config
    }

    /// The configuration to keep: one count more, and the first time a copy.
    pub fn share(&mut self, alloc: Global) -> Result<Shared<LiveConfig>, AllocError>
        ensures shared { IfOk result (λ shared. shared ≡ self.old) }
        ensures same { self.new ≡ self.old }
    {
        if let Some(shared) = &self.shared {
            return shared.try_clone(alloc);
        }
        let made = Shared::new(Rc::new(alloc, self.config.try_clone(alloc)?)?);
        let shared = made.try_clone(alloc)?;
        self.shared = Some(made);
        Ok(shared)
    }
}

impl TryClone for SharedConfig {
    fn try_clone(&self, alloc: Global) -> Result<Self, AllocError> {
        let shared = self.shared.try_clone(alloc)?;
        let config = self.config.try_clone(alloc)?;
        Ok(SharedConfig { config, shared })
    }
}
