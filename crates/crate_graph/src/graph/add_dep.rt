//! A dependency is added where it closes no cycle. The ranks of its two crates often tell; else a search
//! among the ranks between them decides.

ghost use Rattle.std.specs.Prelude.{◌≡◌, ◌+◌, ◌<◌, ◌≤◌, [], ◌∷◌, ◌++◌, length, map};
ghost use Rattle.std.specs.Prelude.{IfErr, OnErr, OnOk};
ghost use Rattle.std.specs.Result.{MatchResult};
ghost use Rattle.base_text_paths.specs.Arena.{number_of};
ghost use Rattle.graph_base.specs.Reach.{IsPathBack, Reaches};
ghost use Rattle.crate_graph.specs.Insertion.{CountsVisits, most_visits};
ghost use Rattle.crate_graph.specs.Placing.{FitsOrder, Rearranges};
ghost use Rattle.crate_graph.specs.Cyclic.{names, numbers, shown_of};
ghost use Rattle.crate_graph.specs.Refused.{IfCyclic};
ghost use Rattle.crate_graph.specs.Graph.{AddsDependency, HasDependency};
ghost use Rattle.crate_graph.specs.Graph.{edges, target_of};

use crate::cyclic::{AddDepError, CyclicDependenciesError};
use crate::graph::CrateGraphBuilder;
use crate::insertion::Marks;
use crate::order::Order;
use crate::placing::Placement;
use base_text_paths::{Counter, Items, Ledger, Steps};
use crate_graph_values::{CrateBuilder, CrateBuilderId, DependencyBuilder};
use std::alloc::{AllocError, Global};
use std::mem;

impl CrateGraphBuilder {
    /// Lets a crate depend on another, unless that depends on it already.
    pub fn add_dep(
        &mut self,
        from: CrateBuilderId,
        dep: DependencyBuilder,
    ) -> Result<(), AddDepError>
        requires from { number_of from < length self.old.crates }
        requires to { target_of dep < length self.old.crates }
        ensures added { OnOk result (AddsDependency self.old self.new (number_of from) dep) }
        ensures apart { OnOk result
            (Reaches (edges self.old.crates) (target_of dep) (number_of from) → ⊥) }
        ensures unchanged { OnErr result (self.new ≡ self.old) }
        ensures cyclic { IfErr result (λ e. IfCyclic e
            (λ _. Reaches (edges self.old.crates) (target_of dep) (number_of from))) }
        ensures path { IfErr result (λ e. IfCyclic e (λ path.
            IsPathBack (edges self.old.crates) (numbers path) (number_of from) (target_of dep))) }
        ensures names { IfErr result (λ e. IfCyclic e
            (λ path. names path ≡ map (shown_of self.old.crates) (numbers path))) }
    {
        let mut steps = Steps {
            ledger: Counter::new(),
        };
        self.add_dep_counted(from, dep, &mut steps)
    }

    /// `add_dep`, where each crate that the search visits is a step: none where the ranks show that the
    /// dependency closes no cycle, and else at most those with a rank from `from`'s up to that of its target.
    pub fn add_dep_counted<L: Ledger>(
        &mut self,
        from: CrateBuilderId,
        dep: DependencyBuilder,
        steps: &mut Steps<L>,
    ) -> Result<(), AddDepError>
        requires from { number_of from < length self.old.crates }
        requires to { target_of dep < length self.old.crates }
        ensures added { OnOk result (AddsDependency self.old self.new (number_of from) dep) }
        ensures apart { OnOk result
            (Reaches (edges self.old.crates) (target_of dep) (number_of from) → ⊥) }
        ensures unchanged { OnErr result (self.new ≡ self.old) }
        ensures path { IfErr result (λ e. IfCyclic e (λ path.
            IsPathBack (edges self.old.crates) (numbers path) (number_of from) (target_of dep))) }
        ensures names { IfErr result (λ e. IfCyclic e
            (λ path. names path ≡ map (shown_of self.old.crates) (numbers path))) }
        ensures visits { MatchResult result
            (λ _. CountsVisits (edges self.old.crates) (number_of from) (target_of dep)
            self.old.order (L.count steps.old.ledger) (L.count steps.new.ledger))
            (λ e. IfCyclic e (λ _. CountsVisits (edges self.old.crates) (number_of from)
            (target_of dep) self.old.order (L.count steps.old.ledger)
            (L.count steps.new.ledger))) }
        ensures steps { L.count steps.new.ledger ≤ L.count steps.old.ledger
            + most_visits self.old.order (number_of from) (target_of dep) }
    {
        let alloc = *self.crates.allocator();
        let (source, target) = (from.into_raw(), dep.crate_id.into_raw());
        let mut marks = mem::replace(&mut self.marks, Marks::new(alloc));
        let room = self
            .order
            .room_for(alloc, self, source, target, &mut marks, steps);
        self.marks = marks;
        match room? {
            Ok(placement) => {
                append_and_apply(
                    alloc,
                    &mut self.crates,
                    &mut self.order,
                    from,
                    dep,
                    placement,
                )?;
                Ok(())
            }
            Err(path) => Err(self.cyclic(alloc, &path)),
        }
    }

    // The refusal with a path.
    fn cyclic(&self, alloc: Global, path: &[u32]) -> AddDepError
        ensures numbers { IfCyclic result (λ error. numbers error ≡ path.now) }
        ensures names { IfCyclic result
            (λ error. names error ≡ map (shown_of self.now.crates) path.now) }
    {
        match CyclicDependenciesError::along(alloc, self.crates.as_slice(), path) {
            Ok(error) => AddDepError::Cyclic(error),
            Err(error) => AddDepError::from(error),
        }
    }
}

// Puts a dependency behind those of a crate, and nodes of the order in their places. A failure leaves both.
fn append_and_apply(
    alloc: Global,
    crates: &mut Vec<CrateBuilder>,
    order: &mut Order,
    from: CrateBuilderId,
    dep: DependencyBuilder,
    placement: Placement,
) -> Result<(), AllocError>
    requires from { number_of from < length crates.old.items }
    requires fits { FitsOrder placement order.old }
    ensures ok { OnOk result
        (HasDependency crates.old.items crates.new.items (number_of from) dep) }
    ensures moved { OnOk result (Rearranges placement order.old order.new) }
    ensures crates_same { OnErr result (crates.new.items ≡ crates.old.items) }
    ensures order_same { OnErr result (order.new ≡ order.old) }
{
    append(alloc, crates, from, dep)?;
    order.apply(placement);
    Ok(())
}

// Puts a dependency behind those of a crate.
fn append(
    alloc: Global,
    crates: &mut Vec<CrateBuilder>,
    from: CrateBuilderId,
    dep: DependencyBuilder,
) -> Result<(), AllocError>
    requires { number_of from < length crates.old.items }
    ensures ok { OnOk result
        (HasDependency crates.old.items crates.new.items (number_of from) dep) }
    ensures err { OnErr result (crates.new.items ≡ crates.old.items) }
{
    let krate = &mut crates[from.into_raw() as usize];
    append_to(alloc, &mut krate.basic.dependencies, dep)
}

// Puts a dependency behind others.
fn append_to(
    alloc: Global,
    list: &mut Items<DependencyBuilder>,
    dep: DependencyBuilder,
) -> Result<(), AllocError>
    ensures ok { OnOk result (list.new ≡ list.old ++ dep ∷ []) }
    ensures err { OnErr result (list.new ≡ list.old) }
{
    let mut items = mem::replace(list, Items::empty(alloc)).into_inner();
    let pushed = items.push(dep);
    *list = Items::new(items);
    pushed?;
    Ok(())
}
