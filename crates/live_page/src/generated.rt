//! The metadata that `generate` records: a document of packages in a row, each of which needs the one before it and, for tests, the one
//! behind it.

ghost use Rattle.std.specs.Prelude.{◌≡◌, ◌<◌, IfOk, map, string_bytes};
ghost use Rattle.std.specs.List.{range_with_len};
ghost use Rattle.serde_json.specs.View.{view};
ghost use Rattle.live_page.specs.Generated.{document_data, edge_data, edge_kind_data, edge_kinds_data, edge_to, edges_of, generated_document, graph_data, library_data, library_kinds_data, library_path, node_data, node_with, package_data, package_manifest, package_name, package_names, package_of};

use base_text::{Items, Text, TryClone};
use json_fields::{set, set_value};
use serde_json::{Map, Value};
use std::alloc::{AllocError, Global};

// A package as its document states it.
#[derive(Drop)]
struct GeneratedPackage {
    // The id too, and the name of the library.
    name: Text,
    version: Text,
    manifest_path: Text,
    // The root file of the library.
    src_path: Text,
}

// An edge of the resolved graph, to the package of this name.
#[derive(Drop)]
struct PackageEdge {
    name: Text,
    is_dev: bool,
}

/// The document of `cargo metadata` of so many packages, as one line without a newline.
pub fn generated_document(alloc: Global, count: u64) -> Result<String, AllocError>
    ensures { IfOk result (λ text. string_bytes text ≡ generated_document count) }
{
    let document = document_value(alloc, count)?;
    document.to_string(alloc)
}

/// The path of the root file of a package's library.
#[tactic(auto, unfolding(crate::specs::Generated::library_path))]
pub(crate) fn library_path(alloc: Global, number: u64) -> Result<Text, AllocError>
    ensures { IfOk result (λ path. path ≡ library_path number) }
{
    let path = format!(in alloc; "/g/p{number}/src/lib.rs")?;
    Ok(Text::new(path))
}

// The name of a package.
#[tactic(auto, unfolding(crate::specs::Generated::package_name))]
fn package_name(alloc: Global, number: u64) -> Result<Text, AllocError>
    ensures { IfOk result (λ name. name ≡ package_name number) }
{
    let name = format!(in alloc; "p{number}")?;
    Ok(Text::new(name))
}

// The path of a package's manifest.
#[tactic(auto, unfolding(crate::specs::Generated::package_manifest))]
fn package_manifest(alloc: Global, number: u64) -> Result<Text, AllocError>
    ensures { IfOk result (λ path. path ≡ package_manifest number) }
{
    let path = format!(in alloc; "/g/p{number}/Cargo.toml")?;
    Ok(Text::new(path))
}

// A package by its number.
#[tactic(auto, unfolding(crate::specs::Generated::package_of))]
fn package_of(alloc: Global, number: u64) -> Result<GeneratedPackage, AllocError>
    ensures { IfOk result (λ p. p ≡ package_of number) }
{
    Ok(GeneratedPackage {
        name: package_name(alloc, number)?,
        version: Text::of_str(alloc, "1.0.0")?,
        manifest_path: package_manifest(alloc, number)?,
        src_path: library_path(alloc, number)?,
    })
}

// The library of a package.
#[tactic(auto, unfolding(crate::specs::Generated::library_data, json_fields::specs::Written::set_member))]
fn library_value(alloc: Global, package: &GeneratedPackage) -> Result<Value, AllocError>
    ensures { IfOk result (λ value. view value ≡ library_data «package».now) }
{
    let mut fields = Map::new(alloc);
    set_value(alloc, &mut fields, "kind", library_kinds(alloc)?)?;
    set(alloc, &mut fields, "name", &package.name)?;
    set(alloc, &mut fields, "src_path", &package.src_path)?;
    Ok(Value::Object(fields))
}

// The kinds of a library.
fn library_kinds(alloc: Global) -> Result<Value, AllocError>
    ensures { IfOk result (λ value. view value ≡ library_kinds_data) }
{
    let kind = Value::try_from_str(alloc, "lib")?;
    Ok(Value::Array(vec![in alloc; kind]?))
}

// A package.
#[tactic(auto, unfolding(crate::specs::Generated::package_data, json_fields::specs::Written::set_member))]
fn package_value(alloc: Global, package: &GeneratedPackage) -> Result<Value, AllocError>
    ensures { IfOk result (λ value. view value ≡ package_data «package».now) }
{
    let targets = vec![in alloc; library_value(alloc, package)?]?;
    let mut fields = Map::new(alloc);
    set(alloc, &mut fields, "name", &package.name)?;
    set(alloc, &mut fields, "version", &package.version)?;
    set(alloc, &mut fields, "id", &package.name)?;
    set_value(
        alloc,
        &mut fields,
        "dependencies",
        Value::Array(Vec::new(alloc)),
    )?;
    set_value(alloc, &mut fields, "targets", Value::Array(targets))?;
    set_value(
        alloc,
        &mut fields,
        "features",
        Value::Object(Map::new(alloc)),
    )?;
    set(alloc, &mut fields, "manifest_path", &package.manifest_path)?;
    Ok(Value::Object(fields))
}

// All packages.
fn package_values(alloc: Global, count: u64) -> Result<Vec<Value>, AllocError>
    ensures { IfOk result (λ values. map view values.items
        ≡ map (λ n. package_data (package_of n)) (range_with_len 0 count)) }
{
    let mut values = Vec::new(alloc);
    for number in 0..count {
        let package = package_of(alloc, number)?;
        values.push(package_value(alloc, &package)?)?;
    }
    Ok(values)
}

// The names of all packages.
fn package_names(alloc: Global, count: u64) -> Result<Items<Text>, AllocError>
    ensures { IfOk result (λ names. names ≡ package_names count) }
{
    let mut names = Vec::new(alloc);
    for number in 0..count {
        names.push(package_name(alloc, number)?)?;
    }
    Ok(Items::new(names))
}

// An edge to a package.
fn edge_to(alloc: Global, number: u64, is_dev: bool) -> Result<PackageEdge, AllocError>
    ensures { IfOk result (λ edge. edge ≡ edge_to number is_dev) }
{
    let name = package_name(alloc, number)?;
    Ok(PackageEdge { name, is_dev })
}

// The edges of a package: to the one before it, and for tests to the one behind it.
#[tactic(auto, unfolding(crate::specs::Generated::edges_of))]
fn edges_of(alloc: Global, count: u64, number: u64) -> Result<Vec<PackageEdge>, AllocError>
    requires { number < count }
    ensures { IfOk result (λ edges. edges.items ≡ edges_of count number) }
{
    let mut edges = Vec::new(alloc);
    if number > 0 {
        edges.push(edge_to(alloc, number - 1, false)?)?;
    }
    if number + 1 < count {
        edges.push(edge_to(alloc, number + 1, true)?)?;
    }
    Ok(edges)
}

// The kinds of an edge, of which there is one.
#[tactic(auto, unfolding(crate::specs::Generated::edge_kinds_data, json_fields::specs::Written::set_member))]
fn edge_kinds(alloc: Global, is_dev: bool) -> Result<Value, AllocError>
    ensures { IfOk result (λ value. view value ≡ edge_kinds_data is_dev) }
{
    let mut fields = Map::new(alloc);
    set_value(alloc, &mut fields, "kind", edge_kind(alloc, is_dev)?)?;
    Ok(Value::Array(vec![in alloc; Value::Object(fields)]?))
}

// The kind of an edge.
fn edge_kind(alloc: Global, is_dev: bool) -> Result<Value, AllocError>
    ensures { IfOk result (λ value. view value ≡ edge_kind_data is_dev) }
{
    if is_dev {
        Value::try_from_str(alloc, "dev")
    } else {
        Ok(Value::Null)
    }
}

// An edge.
#[tactic(auto, unfolding(crate::specs::Generated::edge_data, json_fields::specs::Written::set_member))]
fn edge_value(alloc: Global, edge: &PackageEdge) -> Result<Value, AllocError>
    ensures { IfOk result (λ value. view value ≡ edge_data edge.now) }
{
    let mut fields = Map::new(alloc);
    set(alloc, &mut fields, "name", &edge.name)?;
    set(alloc, &mut fields, "pkg", &edge.name)?;
    set_value(
        alloc,
        &mut fields,
        "dep_kinds",
        edge_kinds(alloc, edge.is_dev)?,
    )?;
    Ok(Value::Object(fields))
}

// Some edges.
fn edge_values(alloc: Global, edges: &[PackageEdge]) -> Result<Vec<Value>, AllocError>
    ensures { IfOk result (λ values. map view values.items ≡ map edge_data edges.now) }
{
    let mut values = Vec::new(alloc);
    for edge in edges {
        values.push(edge_value(alloc, edge)?)?;
    }
    Ok(values)
}

// The names of the packages that edges lead to.
fn edge_names(alloc: Global, edges: &[PackageEdge]) -> Result<Items<Text>, AllocError>
    ensures { IfOk result (λ names. names ≡ map (λ e. e.name) edges.now) }
{
    let mut names = Vec::new(alloc);
    for edge in edges {
        names.push(edge.name.try_clone(alloc)?)?;
    }
    Ok(Items::new(names))
}

// A node by its id and its edges.
#[tactic(auto, unfolding(crate::specs::Generated::node_with, json_fields::specs::Written::set_member))]
fn node_with(alloc: Global, id: &Text, edges: &[PackageEdge]) -> Result<Value, AllocError>
    ensures { IfOk result (λ value. view value ≡ node_with id.now edges.now) }
{
    let deps = edge_values(alloc, edges)?;
    let names = edge_names(alloc, edges)?;
    let mut fields = Map::new(alloc);
    set(alloc, &mut fields, "id", id)?;
    set_value(alloc, &mut fields, "deps", Value::Array(deps))?;
    set(alloc, &mut fields, "dependencies", &names)?;
    Ok(Value::Object(fields))
}

// The node of a package.
fn node_value(alloc: Global, count: u64, number: u64) -> Result<Value, AllocError>
    requires { number < count }
    ensures { IfOk result (λ value. view value ≡ node_data count number) }
{
    let id = package_name(alloc, number)?;
    let edges = edges_of(alloc, count, number)?;
    node_with(alloc, &id, edges.as_slice())
}

// The nodes of all packages.
fn node_values(alloc: Global, count: u64) -> Result<Vec<Value>, AllocError>
    ensures { IfOk result (λ values. map view values.items
        ≡ map (node_data count) (range_with_len 0 count)) }
{
    let mut values = Vec::new(alloc);
    for number in 0..count {
        values.push(node_value(alloc, count, number)?)?;
    }
    Ok(values)
}

// The resolved graph.
#[tactic(auto, unfolding(crate::specs::Generated::graph_data, json_fields::specs::Written::set_member))]
fn graph_value(alloc: Global, count: u64) -> Result<Value, AllocError>
    ensures { IfOk result (λ value. view value ≡ graph_data count) }
{
    let nodes = node_values(alloc, count)?;
    let mut fields = Map::new(alloc);
    set_value(alloc, &mut fields, "nodes", Value::Array(nodes))?;
    set_value(alloc, &mut fields, "root", Value::Null)?;
    Ok(Value::Object(fields))
}

// The document.
#[tactic(auto, unfolding(crate::specs::Generated::document_data, json_fields::specs::Written::set_member))]
fn document_value(alloc: Global, count: u64) -> Result<Value, AllocError>
    ensures { IfOk result (λ value. view value ≡ document_data count) }
{
    let packages = package_values(alloc, count)?;
    let members = package_names(alloc, count)?;
    let graph = graph_value(alloc, count)?;
    let mut fields = Map::new(alloc);
    set_value(alloc, &mut fields, "packages", Value::Array(packages))?;
    set(alloc, &mut fields, "workspace_members", &members)?;
    set_value(alloc, &mut fields, "resolve", graph)?;
    set(
        alloc,
        &mut fields,
        "workspace_root",
        &Text::of_str(alloc, "/g")?,
    )?;
    set(
        alloc,
        &mut fields,
        "target_directory",
        &Text::of_str(alloc, "/g/target")?,
    )?;
    set(alloc, &mut fields, "version", &1u64)?;
    Ok(Value::Object(fields))
}
