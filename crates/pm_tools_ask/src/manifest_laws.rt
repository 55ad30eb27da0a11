//! Laws for callers' proofs. Each is a function that changes nothing: its contract is the law.

ghost use Rattle.std.specs.Prelude.{◌≡◌, ◌↔◌, true};
ghost use Rattle.base_text_paths.specs.Paths.{IsClean};
ghost use Rattle.pm_tools_ask.specs.declared.project_manifest.ProjectManifest.{ProjectManifest};
ghost use Rattle.pm_tools_ask.specs.Manifest.{manifest_cmp, manifest_path};

use crate::project_manifest::ProjectManifest;

/// Manifests are equal exactly where their kinds and the texts of their paths are the same. Each
/// path's text is clean.
pub fn equality_of_manifests_is_content()
    ensures { (x y : ProjectManifest) → IsClean (manifest_path x) → IsClean (manifest_path y)
        → (⟦<ProjectManifest as PartialEq>⟧.eq x y ≡ true) ↔ (x ≡ y) }
{}

/// Manifests are ordered by their kinds, as these are searched for: a JSON project, a `Cargo.toml`, a
/// script. Those of one kind are ordered by the components of their paths.
pub fn manifests_are_ordered_by_kind()
    ensures { (x y : ProjectManifest) → ⟦<ProjectManifest as Ord>⟧.cmp x y ≡ manifest_cmp x y }
{}
