//! Nodes in a row go directly below another node, or directly above it.

ghost use Rattle.std.specs.Prelude.{◌≡◌, ◌<◌, ◌^◌, length};
ghost use Rattle.graph_base.specs.Blocks.{FitAbove, FitBelow, RearrangesAbove, RearrangesBelow};
ghost use Rattle.graph_base.specs.Ranks.{AreRanks};

use crate::table::LabelTable;

impl LabelTable {
    /// Puts nodes, which are listed in the order of their ranks and lie above another, directly below it.
    pub fn move_all_below(&mut self, nodes: &[u32], mark: u32)
        requires fit { FitBelow mark nodes.now self.old }
        requires short { length nodes.now < 2 ^ 32 }
        ensures moved { RearrangesBelow mark nodes.now self.old self.new }
        ensures ranks { AreRanks self.new }
    {
        let count = nodes.len() as u32;
        for (place, node) in nodes.iter().enumerate() {
            let left = count - place as u32;
            self.move_below(*node, mark, left);
        }
    }

    /// Puts nodes, which are listed in the order of their ranks and lie below another, directly above it.
    pub fn move_all_above(&mut self, nodes: &[u32], mark: u32)
        requires fit { FitAbove mark nodes.now self.old }
        requires short { length nodes.now < 2 ^ 32 }
        ensures moved { RearrangesAbove mark nodes.now self.old self.new }
        ensures ranks { AreRanks self.new }
    {
        let count = nodes.len() as u32;
        let mut last = mark;
        for (place, node) in nodes.iter().enumerate() {
            let left = count - place as u32;
            self.move_above(*node, last, left);
            last = *node;
        }
    }
}
