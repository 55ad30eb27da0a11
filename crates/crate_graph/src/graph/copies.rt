//! Copies of graphs.

use crate::graph::CrateGraphBuilder;
use crate::insertion::Marks;
use base_text_paths::{TryClone, copy_items};
use std::alloc::{AllocError, Global};

impl TryClone for CrateGraphBuilder {
    fn try_clone(&self, alloc: Global) -> Result<Self, AllocError> {
        let order = self.order.try_clone(alloc)?;
        let crates = copy_items(alloc, &self.crates)?;
        Ok(CrateGraphBuilder {
            crates,
            order,
            marks: Marks::new(alloc),
            limit: self.limit,
        })
    }
}
