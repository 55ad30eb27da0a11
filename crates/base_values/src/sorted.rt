//! Sorting a list into the one order that definitions mean by 'sorted'.

ghost use Rattle.std.specs.Prelude.{◌≡◌, OnErr, OnOk};
ghost use Rattle.base_values.specs.Sorted.{sorted};

use std::alloc::AllocError;

/// Sorts the items. Those that tie keep their order.
#[tactic(auto, using(crate::proofs::InOrder::sorted_by_stable_sort))]
pub fn sort_all<T: Ord>(items: &mut Vec<T>) -> Result<(), AllocError>
    ensures sorted { OnOk result (items.new.items ≡ sorted T.cmp items.old.items) }
    ensures err { OnErr result (items.new.items ≡ items.old.items) }
{
    items.sort()
}
