//! The resolved graph: which package depends on which, when and where.

ghost use Rattle.std.specs.Prelude.{◌≡◌, option_copied};
ghost use Rattle.cargo_meta_values.specs.Resolve.{node_of};

use crate::kinds::DependencyKind;
use crate::names::{FeatureName, PackageId};
use base_values::{Items, Text, TryClone};
use json_fields::{
    Json, Present, ReadError, ReadJson, list_member, members, optional_member, required_member, set,
};
use serde_json::{Map, Value};
use std::alloc::{AllocError, Global};
use std::ops::Index;

/// When a dependency is needed, and on which platform.
#[derive(Debug, PartialEq, Eq, Drop)]
pub struct DepKindInfo {
    pub kind: DependencyKind,
    pub target: Option<Text>,
}

/// A package that a node depends on, by the name that its code uses.
#[derive(Debug, PartialEq, Eq, Drop)]
pub struct NodeDep {
    pub name: Text,
    pub pkg: PackageId,
    pub dep_kinds: Items<DepKindInfo>,
}

/// A package of the resolved graph.
#[derive(Debug, PartialEq, Eq, Drop)]
pub struct Node {
    pub id: PackageId,
    pub deps: Items<NodeDep>,
    pub dependencies: Items<PackageId>,
    pub features: Items<FeatureName>,
}

/// The resolved graph, and its root where the workspace has one.
#[derive(Debug, PartialEq, Eq, Drop)]
pub struct Resolve {
    pub nodes: Items<Node>,
    pub root: Option<PackageId>,
}

impl Resolve {
    /// The first node of the id.
    pub fn get_node(&self, id: &PackageId) -> Option<&Node>
        ensures { option_copied result ≡ node_of id.now self.now }
    {
        self.nodes.as_slice().iter().find(|node| node.id == *id)
    }
}

impl Index<&PackageId> for Resolve {
    type Output = Node;

    ghost use Rattle.std.specs.Prelude.{◌≡◌, IsSome, Some};
    ghost use Rattle.cargo_meta_values.specs.Resolve.{node_of};

    ghost can_index = { λ r id. IsSome (node_of id.now r) };

    ghost index_gives = { λ r id node. node_of id.now r ≡ Some node };

    fn index(&self, id: &PackageId) -> &Node {
        match self.get_node(id) {
            Some(node) => node,
            None => unreachable!(),
        }
    }
}

impl TryClone for DepKindInfo {
    fn try_clone(&self, alloc: Global) -> Result<Self, AllocError> {
        Ok(DepKindInfo {
            kind: self.kind,
            target: self.target.try_clone(alloc)?,
        })
    }
}

impl TryClone for NodeDep {
    fn try_clone(&self, alloc: Global) -> Result<Self, AllocError> {
        Ok(NodeDep {
            name: self.name.try_clone(alloc)?,
            pkg: self.pkg.try_clone(alloc)?,
            dep_kinds: self.dep_kinds.try_clone(alloc)?,
        })
    }
}

impl TryClone for Node {
    fn try_clone(&self, alloc: Global) -> Result<Self, AllocError> {
        Ok(Node {
            id: self.id.try_clone(alloc)?,
            deps: self.deps.try_clone(alloc)?,
            dependencies: self.dependencies.try_clone(alloc)?,
            features: self.features.try_clone(alloc)?,
        })
    }
}

impl TryClone for Resolve {
    fn try_clone(&self, alloc: Global) -> Result<Self, AllocError> {
        Ok(Resolve {
            nodes: self.nodes.try_clone(alloc)?,
            root: self.root.try_clone(alloc)?,
        })
    }
}

#[tactic(auto, unfolding(crate::specs::Kinds::dependency_kind_of, crate::specs::Resolve::dep_kind_at, json_fields::specs::Fields::required_member, json_fields::specs::Fields::optional_member))]
impl ReadJson for DepKindInfo {
    ghost use Rattle.cargo_meta_values.specs.Resolve.{dep_kind_at};

    ghost reads = { dep_kind_at };

    fn read(alloc: Global, value: &Value) -> Result<DepKindInfo, ReadError> {
        let fields = members(alloc, value)?;
        Ok(DepKindInfo {
            kind: required_member(alloc, fields, "kind")?,
            target: optional_member(alloc, fields, "target")?,
        })
    }
}

#[tactic(auto, unfolding(crate::specs::Resolve::dep_kind_data, json_fields::specs::Written::set_member))]
impl Json for DepKindInfo {
    ghost use Rattle.cargo_meta_values.specs.Resolve.{dep_kind_data};
    ghost use Rattle.cargo_meta_values.specs.laws.Resolve.{dep_kind-round_trips};

    ghost writes = { dep_kind_data };

    ghost height = { 0 };

    fn write(&self, alloc: Global) -> Result<Value, AllocError> {
        let mut fields = Map::new(alloc);
        set(alloc, &mut fields, "kind", &self.kind)?;
        set(alloc, &mut fields, "target", &self.target)?;
        Ok(Value::Object(fields))
    }

    ghost round_trips = { dep_kind-round_trips };
}

#[tactic(auto, unfolding(crate::specs::Resolve::node_dep_at, json_fields::specs::Fields::required_member, json_fields::specs::Fields::default_member))]
impl ReadJson for NodeDep {
    ghost use Rattle.cargo_meta_values.specs.Resolve.{node_dep_at};

    ghost reads = { node_dep_at };

    fn read(alloc: Global, value: &Value) -> Result<NodeDep, ReadError> {
        let fields = members(alloc, value)?;
        Ok(NodeDep {
            name: required_member(alloc, fields, "name")?,
            pkg: required_member(alloc, fields, "pkg")?,
            dep_kinds: list_member(alloc, fields, "dep_kinds")?,
        })
    }
}

#[tactic(auto, unfolding(crate::specs::Resolve::node_dep_data, json_fields::specs::Written::set_member))]
impl Json for NodeDep {
    ghost use Rattle.cargo_meta_values.specs.Resolve.{node_dep_data};
    ghost use Rattle.cargo_meta_values.specs.laws.Resolve.{node_dep-round_trips};

    ghost writes = { node_dep_data };

    ghost height = { 2 };

    fn write(&self, alloc: Global) -> Result<Value, AllocError> {
        let mut fields = Map::new(alloc);
        set(alloc, &mut fields, "name", &self.name)?;
        set(alloc, &mut fields, "pkg", &self.pkg)?;
        set(alloc, &mut fields, "dep_kinds", &self.dep_kinds)?;
        Ok(Value::Object(fields))
    }

    ghost round_trips = { node_dep-round_trips };
}

#[tactic(auto, unfolding(crate::specs::Resolve::node_at, json_fields::specs::Fields::required_member, json_fields::specs::Fields::default_member))]
impl ReadJson for Node {
    ghost use Rattle.cargo_meta_values.specs.Resolve.{node_at};

    ghost reads = { node_at };

    fn read(alloc: Global, value: &Value) -> Result<Node, ReadError> {
        let fields = members(alloc, value)?;
        Ok(Node {
            id: required_member(alloc, fields, "id")?,
            deps: list_member(alloc, fields, "deps")?,
            dependencies: required_member(alloc, fields, "dependencies")?,
            features: list_member(alloc, fields, "features")?,
        })
    }
}

#[tactic(auto, unfolding(crate::specs::Resolve::node_data, json_fields::specs::Written::set_member))]
impl Json for Node {
    ghost use Rattle.cargo_meta_values.specs.Resolve.{node_data};
    ghost use Rattle.cargo_meta_values.specs.laws.Resolve.{node-round_trips};

    ghost writes = { node_data };

    ghost height = { 4 };

    fn write(&self, alloc: Global) -> Result<Value, AllocError> {
        let mut fields = Map::new(alloc);
        set(alloc, &mut fields, "id", &self.id)?;
        set(alloc, &mut fields, "deps", &self.deps)?;
        set(alloc, &mut fields, "dependencies", &self.dependencies)?;
        set(alloc, &mut fields, "features", &self.features)?;
        Ok(Value::Object(fields))
    }

    ghost round_trips = { node-round_trips };
}

#[tactic(auto, unfolding(crate::specs::Resolve::resolve_at, json_fields::specs::Fields::required_member, json_fields::specs::Fields::optional_member))]
impl ReadJson for Resolve {
    ghost use Rattle.cargo_meta_values.specs.Resolve.{resolve_at};

    ghost reads = { resolve_at };

    fn read(alloc: Global, value: &Value) -> Result<Resolve, ReadError> {
        let fields = members(alloc, value)?;
        Ok(Resolve {
            nodes: required_member(alloc, fields, "nodes")?,
            root: optional_member(alloc, fields, "root")?,
        })
    }
}

#[tactic(auto, unfolding(crate::specs::Resolve::resolve_data, json_fields::specs::Written::set_member))]
impl Json for Resolve {
    ghost use Rattle.cargo_meta_values.specs.Resolve.{resolve_data};
    ghost use Rattle.cargo_meta_values.specs.laws.Resolve.{resolve-round_trips};

    ghost writes = { resolve_data };

    ghost height = { 6 };

    fn write(&self, alloc: Global) -> Result<Value, AllocError> {
        let mut fields = Map::new(alloc);
        set(alloc, &mut fields, "nodes", &self.nodes)?;
        set(alloc, &mut fields, "root", &self.root)?;
        Ok(Value::Object(fields))
    }

    ghost round_trips = { resolve-round_trips };
}

impl Present for Resolve {
    ghost use Rattle.cargo_meta_values.specs.Resolve.{resolve_data-present};

    ghost present = { resolve_data-present };
}
