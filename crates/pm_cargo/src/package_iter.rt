//! The numbers of the packages of a workspace, one after another.

ghost use Rattle.std.specs.Prelude.{◌≡◌, ◌<◌, ◌^◌, length};
ghost use Rattle.std.specs.List.{range_with_len};
ghost use Rattle.std.specs.Iterator.{YieldsFirstBy, item_count};
ghost use Rattle.base_text_paths.specs.Arena.{number_of};

use pm_cargo_packages::{Package, PackageData};
use std::marker::Model;

/// The numbers of packages that are left, from the first on.
#[derive(Drop)]
pub struct PackageIter<'a> {
    left: &'a [PackageData],
    // The number of the first of `left`.
    next: u32,
}

impl<'a> Model for PackageIter<'a> {
    ghost use Rattle.std.specs.Prelude.{ℕ, List, length, ◌+◌, ◌<◌, ◌^◌};
    ghost use Rattle.std.specs.List.{range_with_len};

    ghost Value = { List ℕ };

    ghost view = { λ it. range_with_len it.next (length it.left.now) };

    ghost invariant = { λ it. it.next + length it.left.now < 2 ^ 32 };
}

impl<'a> PackageIter<'a> {
    // The numbers of all of some packages.
    pub(crate) fn new(packages: &'a [PackageData]) -> Self
        requires { length packages.now < 2 ^ 32 }
        ensures { result ≡ range_with_len 0 (length packages.now) }
    {
        PackageIter {
            left: packages,
            next: 0,
        }
    }
}

impl<'a> Iterator for PackageIter<'a> {
    type Item = Package;

    ghost next_gives = { YieldsFirstBy number_of (λ left. left) };

    ghost remaining = { item_count (λ left. left) };

    fn next(&mut self) -> Option<Package> {
        let (_, others) = self.left.split_first()?;
        let id = Package::from_raw(self.next);
        self.left = others;
        self.next += 1;
        Some(id)
    }
}
