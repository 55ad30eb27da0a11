//! An atom of conditional compilation, whose JSON is the text that `parse_cfg` reads.

ghost use Rattle.base_text_outside.specs.Cfg as atoms;
ghost use Rattle.json_fields.specs.Cfg.{cfg_of};
ghost use Rattle.json_fields.specs.Laws.Cfgs.{cfg_of-again};

use crate::place::ReadError;
use crate::reading::miss;
use crate::text_json::TextJson;
use base_text_outside::{CfgAtom, CfgError, parse_cfg, write_cfg};
use std::alloc::{AllocError, Global};

#[tactic(auto, unfolding(crate::specs::Cfg::cfg_of))]
impl TextJson for CfgAtom {
    ghost of_text = { cfg_of };

    ghost text_of = { atoms.atom_text };

    fn read_text(alloc: Global, text: &str) -> Result<CfgAtom, ReadError> {
        match parse_cfg(alloc, text) {
            Ok(atom) => Ok(atom),
            Err(CfgError::BadCfg) => miss(alloc),
            Err(CfgError::OutOfMemory) => Err(ReadError::OutOfMemory),
        }
    }

    fn write_text(&self, alloc: Global) -> Result<String, AllocError> {
        write_cfg(alloc, self)
    }

    ghost again = { cfg_of-again };
}
