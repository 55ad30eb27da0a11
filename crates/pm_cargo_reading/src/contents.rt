//! The packages and targets of a document, taken one after another.

ghost use Rattle.std.specs.Prelude.{◌≡◌, ◌<◌, ◌^◌, [], length, IfErr, IfOk, OnOk};
ghost use Rattle.std.specs.List.Sorted.{IsSorted};
ghost use Rattle.base_values.specs.Sorted.{sorted};
ghost use Rattle.pm_cargo_reading.specs.Packages.{by_id, by_package_id, contents_of, ids_between, is_bin, is_listed, is_script, target_root, take_package, take_target};
ghost use Rattle.pm_cargo_reading.specs.Gathering.{ArePartsOf};
ghost use Rattle.base_values.specs.Outcome.{take_each};
ghost use Rattle.pm_cargo_reading.specs.Reading.{Gives, Leaves, Refuses};

use crate::paths::{absolute_path, manifest_path};
use crate::unresolved::{PackageParts, take_id, unresolved_package};
use crate::workspace_error::WorkspaceError;
use base_text_paths::{AbsPathBuf, Items, Limit, Limits, ManifestPath, TryClone, sort_all};
use cargo_meta_values::PackageId;
use crate_graph_values::TargetKind;
use pm_cargo_packages::{Package, PackageData, Target, TargetData, target_kind_new};
use std::alloc::{AllocError, Global};
use std::marker::Model;
use std::mem;

// Whether a kind is that of a program.
fn is_bin(kind: TargetKind) -> bool
    ensures { result ≡ is_bin kind }
{
    matches!(kind, TargetKind::Bin)
}

// Whether a target is the program of a script, which holds its own manifest.
fn is_script(manifest: &ManifestPath, target: &cargo_meta_values::Target) -> bool
    ensures { result ≡ is_script manifest.now target.now }
{
    is_bin(target_kind_new(target.kind.as_slice())) && manifest.is_rust_manifest()
}

// The root of a target: its source file, and for a program of a script the script.
fn root_of(
    alloc: Global,
    manifest: &ManifestPath,
    target: &cargo_meta_values::Target,
) -> Result<AbsPathBuf, WorkspaceError>
    ensures { Gives result (target_root manifest.now target.now) }
{
    if is_script(manifest, target) {
        return Ok(manifest.as_path().to_path_buf(alloc)?);
    }
    absolute_path(alloc, target.src_path.as_str())
}

// Whether an id is among those of members, which are sorted.
fn is_listed(members: &[PackageId], id: &PackageId) -> bool
    requires { IsSorted ⟦<PackageId as Ord>⟧.cmp members.now }
    ensures { result ≡ is_listed members.now id.now }
{
    members.binary_search(id).is_ok()
}

// The ids of the targets from one number up to another.
fn ids_between(alloc: Global, first: usize, end: usize) -> Result<Items<Target>, AllocError>
    requires { end < 2 ^ 32 }
    ensures { IfOk result (λ ids. ids ≡ ids_between first end) }
{
    let mut ids = Vec::new(alloc);
    for number in first..end {
        ids.push(Target::from_raw(number as u32))?;
    }
    Ok(Items::new(ids))
}

/// The packages and targets of a document, each under its number.
#[derive(PartialEq, Eq, Drop)]
pub struct Contents {
    pub packages: Items<PackageData>,
    pub targets: Items<TargetData>,
}

impl TryClone for Contents {
    fn try_clone(&self, alloc: Global) -> Result<Self, AllocError> {
        Ok(Contents {
            packages: self.packages.try_clone(alloc)?,
            targets: self.targets.try_clone(alloc)?,
        })
    }
}

// The packages and targets that are taken so far.
#[derive(Drop)]
struct ContentsBuilder {
    packages: Vec<PackageData>,
    targets: Vec<TargetData>,
}

impl Model for ContentsBuilder {
    ghost use Rattle.pm_cargo_reading.specs.declared.contents.Contents as seen;

    ghost Value = { seen.Contents };

    ghost view = { λ a. record {
      packages = a.packages.items;
      targets = a.targets.items;
    } };
}

impl ContentsBuilder {
    // Takes a target of the package that comes next.
    fn push_target(
        &mut self,
        alloc: Global,
        limit: u32,
        manifest: &ManifestPath,
        target: cargo_meta_values::Target,
    ) -> Result<(), WorkspaceError>
        requires { length self.old.packages < 2 ^ 32 }
        ensures exact { Leaves result self.new.targets (take_target limit
            (length self.old.packages) manifest.now self.old.targets target) }
        ensures packages { self.new.packages ≡ self.old.packages }
    {
        if self.targets.len() >= limit as usize {
            return Err(WorkspaceError::TooMany(Limit::Targets));
        }
        let root = root_of(alloc, manifest, &target)?;
        self.targets.push(TargetData {
            package: Package::from_raw(self.packages.len() as u32),
            name: target.name,
            root,
            kind: target_kind_new(target.kind.as_slice()),
            required_features: target.required_features,
        })?;
        Ok(())
    }

    // Takes the targets of the package that comes next.
    fn push_targets(
        &mut self,
        alloc: Global,
        limit: u32,
        manifest: &ManifestPath,
        targets: Items<cargo_meta_values::Target>,
    ) -> Result<(), WorkspaceError>
        requires { length self.old.packages < 2 ^ 32 }
        ensures exact { Leaves result self.new.targets (take_each (take_target limit
            (length self.old.packages) manifest.now) self.old.targets targets) }
        ensures packages { self.new.packages ≡ self.old.packages }
        ensures short { length self.old.targets < 2 ^ 32
            → OnOk result (length self.new.targets < 2 ^ 32) }
    {
        for target in targets.into_inner() {
            self.push_target(alloc, limit, manifest, target)?;
        }
        Ok(())
    }

    // Takes the targets of a package, and gives what is read of it besides. The ids of members are sorted.
    fn take_parts(
        &mut self,
        alloc: Global,
        members: &[PackageId],
        limits: &Limits,
        package: &mut cargo_meta::Package,
    ) -> Result<PackageParts, WorkspaceError>
        requires members { IsSorted ⟦<PackageId as Ord>⟧.cmp members.now }
        requires short { length self.old.targets < 2 ^ 32 }
        ensures refused { IfErr result (λ e. Refuses e
            (take_package members.now limits.now self.old «package».old)) }
        ensures parts { IfOk result (ArePartsOf (members.now, limits.now) self.old
            «package».old self.new.targets) }
        ensures packages { self.new.packages ≡ self.old.packages }
        ensures others { OnOk result («package».new ≡ record «package».old {
          id = «package».new.id;
          targets = [];
        }) }
    {
        if self.packages.len() >= limits.packages as usize {
            return Err(WorkspaceError::TooMany(Limit::Packages));
        }
        let manifest = manifest_path(alloc, package.manifest_path.as_str())?;
        let first = self.targets.len();
        let targets = mem::replace(&mut package.targets, Items::empty(alloc));
        self.push_targets(alloc, limits.targets, &manifest, targets)?;
        let targets = ids_between(alloc, first, self.targets.len())?;
        let is_member = is_listed(members, &package.id);
        Ok(PackageParts {
            id: take_id(alloc, &mut package.id)?,
            is_member,
            manifest,
            targets,
        })
    }

    // Takes a package with its targets. The ids of members are sorted.
    fn push_package(
        &mut self,
        alloc: Global,
        members: &[PackageId],
        limits: &Limits,
        mut package: cargo_meta::Package,
    ) -> Result<(), WorkspaceError>
        requires members { IsSorted ⟦<PackageId as Ord>⟧.cmp members.now }
        requires short { length self.old.targets < 2 ^ 32 }
        ensures exact { Leaves result self.new
            (take_package members.now limits.now self.old «package») }
        ensures packages { OnOk result (length self.new.packages < 2 ^ 32) }
        ensures targets { OnOk result (length self.new.targets < 2 ^ 32) }
    {
        let parts = self.take_parts(alloc, members, limits, &mut package)?;
        let data = unresolved_package(alloc, parts, package);
        self.packages.push(data)?;
        Ok(())
    }

    // What was taken.
    fn finish(self) -> Contents
        ensures { result ≡ self }
    {
        Contents {
            packages: Items::new(self.packages),
            targets: Items::new(self.targets),
        }
    }
}

// The packages in their order, each with its targets. The ids of members are sorted.
fn take_packages(
    alloc: Global,
    members: &[PackageId],
    limits: &Limits,
    packages: Vec<cargo_meta::Package>,
) -> Result<ContentsBuilder, WorkspaceError>
    requires { IsSorted ⟦<PackageId as Ord>⟧.cmp members.now }
    ensures exact { Gives result (take_each (take_package members.now limits.now)
        (record { packages = []; targets = [] }) packages.items) }
    ensures short { IfOk result (λ c. length c.packages < 2 ^ 32) }
{
    let mut contents = ContentsBuilder {
        packages: Vec::new(alloc),
        targets: Vec::new(alloc),
    };
    for package in packages {
        contents.push_package(alloc, members, limits, package)?;
    }
    Ok(contents)
}

// The packages of a document in the order of their ids. Packages of one id keep their order.
fn packages_in_order(
    packages: Items<cargo_meta::Package>,
) -> Result<Vec<cargo_meta::Package>, AllocError>
    ensures { IfOk result (λ in_order. in_order.items ≡ sorted by_id packages) }
{
    let mut packages = packages.into_inner();
    packages.sort_by(|p, q| p.id.cmp(&q.id))?;
    Ok(packages)
}

/// The packages of a document and their targets, in the order of the packages' ids, or the first
/// refusal: each package is counted, then its manifest is checked, then its targets, and only then
/// the next package.
pub fn contents_of(
    alloc: Global,
    members: Items<PackageId>,
    limits: &Limits,
    packages: Items<cargo_meta::Package>,
) -> Result<Contents, WorkspaceError>
    ensures exact { Gives result (contents_of members limits.now packages) }
    ensures sorted { IfOk result (λ c. IsSorted by_package_id c.packages) }
    ensures short { IfOk result (λ c. length c.packages < 2 ^ 32) }
{
    let mut members = members.into_inner();
    sort_all(&mut members)?;
    let packages = packages_in_order(packages)?;
    let contents = take_packages(alloc, members.as_slice(), limits, packages)?;
    Ok(contents.finish())
}
