//! Laws of crate data over any type of number. Each is a function that changes nothing: its contract
//! is the law, which is proved once for every type of number.

ghost use Rattle.std.specs.Prelude.{◌≡◌, true};
ghost use Rattle.std.specs.Cmp.{IsTotalOrder};
ghost use Rattle.std.specs.Ordering.{eq_by_cmp};
ghost use Rattle.crate_graph_values.specs.declared.crate_data.CrateData.{CrateData};
ghost use Rattle.crate_graph_values.specs.declared.crate_data.Dependency.{Dependency};
ghost use Rattle.base_values.specs.Equality.{IsContentEquality};
ghost use Rattle.crate_graph_values.specs.Laws.{HasCleanMacroDirectory, IsContentEqualityOn, KeepsEquality};
ghost use Rattle.crate_graph_values.specs.Laws.{renamed_crate, renamed_dependency};

use crate::builder::{CrateBuilder, ExtraCrateData};
use crate::crate_data::{CrateBuilderId, CrateData, Dependency};
use crate::env::Env;
use crate::names::{CrateDisplayName, CrateName};
use crate::origin::{CrateOrigin, LangCrateOrigin};
use crate::proc_macro::ProcMacroLoadingError;
use crate::release_channel::ReleaseChannel;
use crate::target_kind::TargetKind;
use crate::workspace_data::CrateWorkspaceData;
use base_text_paths::CfgOptions;
use std::hash::Hash;

/// Two dependencies are equal exactly where all that they hold is, for numbers whose equality is
/// identity.
pub fn equality_of_dependencies_is_content<Id: PartialEq>()
    ensures { IsContentEquality Id.eq → IsContentEquality ⟦<Dependency<Id> as PartialEq>⟧.eq }
{}

/// Two crate names are equal exactly where their bytes are.
pub fn equality_of_crate_names_is_content()
    ensures { IsContentEquality ⟦<CrateName as PartialEq>⟧.eq }
{}

/// Two display names are equal exactly where both of their texts are.
pub fn equality_of_display_names_is_content()
    ensures { IsContentEquality ⟦<CrateDisplayName as PartialEq>⟧.eq }
{}

/// Two target kinds are equal exactly where they are one.
pub fn equality_of_kinds_is_content()
    ensures { IsContentEquality ⟦<TargetKind as PartialEq>⟧.eq }
{}

/// Two release channels are equal exactly where they are one.
pub fn equality_of_channels_is_content()
    ensures { IsContentEquality ⟦<ReleaseChannel as PartialEq>⟧.eq }
{}

/// Two origins are equal exactly where they are of one kind and all that they hold is equal.
pub fn equality_of_origins_is_content()
    ensures origins { IsContentEquality ⟦<CrateOrigin as PartialEq>⟧.eq }
    ensures of_the_language { IsContentEquality ⟦<LangCrateOrigin as PartialEq>⟧.eq }
{}

/// Two crates are equal exactly where all that they hold is, for numbers whose equality is identity. The
/// path of each crate of a graph is clean.
pub fn equality_of_crates_is_content<Id: PartialEq>()
    ensures { IsContentEquality Id.eq
        → IsContentEqualityOn HasCleanMacroDirectory ⟦<CrateData<Id> as PartialEq>⟧.eq }
{
    equality_of_dependencies_is_content::<Id>();
    base_text_paths::laws::equality_is_content();
    equality_of_kinds_is_content();
    equality_of_origins_is_content();
}

/// Two environments are equal exactly where they set the same variables to the same values.
pub fn equality_of_environments_is_content()
    ensures { IsContentEquality ⟦<Env as PartialEq>⟧.eq }
{}

// Equal numbers of crates are one.
fn equality_of_numbers_is_content()
    ensures { IsContentEquality ⟦<CrateBuilderId as PartialEq>⟧.eq }
{}

// Equal sets of atoms have the same atoms.
fn equality_of_options_is_content()
    ensures { IsContentEquality ⟦<CfgOptions as PartialEq>⟧.eq }
{
    base_text_paths::laws::equality_of_cfgs_is_content();
}

/// What is known of two crates beside their data is equal exactly where all of it is.
pub fn equality_of_extra_data_is_content()
    ensures { IsContentEquality ⟦<ExtraCrateData as PartialEq>⟧.eq }
{
    equality_of_display_names_is_content();
    equality_of_options_is_content();
}

/// What two workspaces share is equal exactly where machine and toolchain are.
pub fn equality_of_workspace_data_is_content()
    ensures { IsContentEquality ⟦<CrateWorkspaceData as PartialEq>⟧.eq }
{
    base_values::laws::equality_is_content();
}

/// Two crates of builders are equal exactly where all that they hold is: their data, what is known of them
/// beside that, their atoms, their environments and what they share with their workspaces.
pub fn equality_of_crate_builders_is_content()
    ensures { IsContentEqualityOn (λ krate. HasCleanMacroDirectory krate.basic)
        ⟦<CrateBuilder as PartialEq>⟧.eq }
{
    equality_of_numbers_is_content();
    equality_of_crates_is_content::<CrateBuilderId>();
    equality_of_extra_data_is_content();
    equality_of_options_is_content();
    equality_of_environments_is_content();
    equality_of_workspace_data_is_content();
}

/// Two reasons for a missing library are equal exactly where they are one, with the same text.
pub fn equality_of_loading_errors_is_content()
    ensures { IsContentEquality ⟦<ProcMacroLoadingError as PartialEq>⟧.eq }
{}

/// Where new numbers are equal just as the old ones are, so are the dependencies that name them.
pub fn renaming_keeps_dependencies<A: PartialEq, B: PartialEq>()
    ensures { (names : A → B) → KeepsEquality A.eq B.eq names
        → KeepsEquality ⟦<Dependency<A> as PartialEq>⟧.eq ⟦<Dependency<B> as PartialEq>⟧.eq
        (renamed_dependency names) }
{}

/// Where new numbers are equal just as the old ones are, so are the crates that name them.
pub fn renaming_keeps_crates<A: PartialEq, B: PartialEq>()
    ensures { (f : A → B) → KeepsEquality A.eq B.eq f
        → KeepsEquality ⟦<CrateData<A> as PartialEq>⟧.eq ⟦<CrateData<B> as PartialEq>⟧.eq
        (renamed_crate f) }
{
    renaming_keeps_dependencies::<A, B>();
}

// The laws that the order of any type owes.
fn order_owes<T: Ord>()
    ensures total { IsTotalOrder T.cmp }
    ensures ties { (x y : T) → T.eq x y ≡ eq_by_cmp T.cmp x y }
{}

// The law that the hash of any type owes.
fn hash_owes<T: Hash>()
    ensures { (x y : T) → T.eq x y ≡ true → T.hash_input x ≡ T.hash_input y }
{}

/// What a map keyed by crates rests on: their order is total and ties exactly where they are equal.
pub fn order_agrees_with_equality<Id: Ord>()
    ensures total { IsTotalOrder ⟦<CrateData<Id> as Ord>⟧.cmp }
    ensures ties { (x y : CrateData Id)
        → ⟦<CrateData<Id> as PartialEq>⟧.eq x y ≡ eq_by_cmp ⟦<CrateData<Id> as Ord>⟧.cmp x y }
{
    order_owes::<CrateData<Id>>();
}

/// What a table keyed by crates rests on: equal crates are hashed alike.
pub fn hash_agrees_with_equality<Id: Hash>()
    ensures { (x y : CrateData Id) → ⟦<CrateData<Id> as PartialEq>⟧.eq x y ≡ true
        → ⟦<CrateData<Id> as Hash>⟧.hash_input x ≡ ⟦<CrateData<Id> as Hash>⟧.hash_input y }
{
    hash_owes::<CrateData<Id>>();
}

/// The order of dependencies is total and ties exactly where they are equal.
pub fn order_agrees_with_equality_of_dependencies<Id: Ord>()
    ensures total { IsTotalOrder ⟦<Dependency<Id> as Ord>⟧.cmp }
    ensures ties { (x y : Dependency Id)
        → ⟦<Dependency<Id> as PartialEq>⟧.eq x y
        ≡ eq_by_cmp ⟦<Dependency<Id> as Ord>⟧.cmp x y }
{
    order_owes::<Dependency<Id>>();
}

/// Equal dependencies are hashed alike.
pub fn hash_agrees_with_equality_of_dependencies<Id: Hash>()
    ensures { (x y : Dependency Id) → ⟦<Dependency<Id> as PartialEq>⟧.eq x y ≡ true
        → ⟦<Dependency<Id> as Hash>⟧.hash_input x ≡ ⟦<Dependency<Id> as Hash>⟧.hash_input y }
{
    hash_owes::<Dependency<Id>>();
}
