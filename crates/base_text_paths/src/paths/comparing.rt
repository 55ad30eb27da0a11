//! Paths are equal, ordered and hashed by their components.

ghost use Rattle.std.specs.Prelude.{◌≡◌};
ghost use Rattle.base_text_paths.specs.Paths.{IsClean};
ghost use Rattle.base_text_paths.specs.PathOrder.{path_cmp};

use crate::paths::abs_path::AbsPath;
use crate::paths::abs_path_buf::AbsPathBuf;
use std::cmp::Ordering;
use std::fmt;
use std::hash::{Hash, Hasher};

/// The order of two clean texts by their components.
fn compare(path: &str, other: &str) -> Ordering
    requires path { IsClean path.now }
    requires other { IsClean other.now }
    ensures { result ≡ path_cmp path.now other.now }
{
    path.split('/').cmp(other.split('/'))
}

impl PartialEq for AbsPathBuf {
    ghost use Rattle.std.specs.Cmp.{partial_equiv_from_equiv};
    ghost use Rattle.base_text_paths.specs.PathOrder.{path_eq, path_eq_equiv};

    ghost eq = { path_eq };

    ghost laws = { partial_equiv_from_equiv path_eq_equiv };

    fn eq(&self, other: &Self) -> bool {
        self.as_str() == other.as_str()
    }
}

impl Eq for AbsPathBuf {
    ghost use Rattle.base_text_paths.specs.PathOrder.{path_eq_equiv};

    ghost laws = { path_eq_equiv };
}

impl PartialOrd for AbsPathBuf {
    ghost use Rattle.std.specs.Ordering.{as_partial_cmp};
    ghost use Rattle.base_text_paths.specs.PathOrder.{path_cmp, path_po};

    ghost partial_cmp = { as_partial_cmp path_cmp };

    ghost laws = { path_po (λ text. text) };

    fn partial_cmp(&self, other: &Self) -> Option<Ordering> {
        Some(self.cmp(other))
    }
}

impl Ord for AbsPathBuf {
    ghost use Rattle.std.specs.Prelude.{refl};
    ghost use Rattle.base_text_paths.specs.PathOrder.{path_cmp, path_cmp_total, path_ties};

    ghost cmp = { path_cmp };

    ghost total = { path_cmp_total };

    ghost matches_partial_cmp = { λ x y. refl };

    ghost matches_eq = { path_ties };

    fn cmp(&self, other: &Self) -> Ordering {
        compare(self.as_str(), other.as_str())
    }
}

impl Hash for AbsPathBuf {
    ghost use Rattle.base_text_paths.specs.PathOrder.{path_fed, path_fed_alike};

    ghost hash_input = { path_fed };

    ghost respects_eq = { path_fed_alike };

    fn hash<H: Hasher>(&self, state: &mut H) {
        self.as_str().hash(state);
    }
}

impl fmt::Display for AbsPathBuf {
    ghost use Rattle.std.specs.Prelude.{Some};

    ghost output = { λ path. Some path };

    fn fmt<W: fmt::Write>(&self, f: &mut fmt::Formatter<W>) -> fmt::Result {
        f.pad(self.as_str())
    }
}

impl<'a> PartialEq for AbsPath<'a> {
    ghost use Rattle.std.specs.Cmp.{on_equiv, partial_equiv_from_equiv};
    ghost use Rattle.std.specs.Ordering.{on};
    ghost use Rattle.base_text_paths.specs.AbsPath.{abs_text};
    ghost use Rattle.base_text_paths.specs.PathOrder.{path_eq, path_eq_equiv};

    ghost eq = { on abs_text path_eq };

    ghost laws = { partial_equiv_from_equiv (on_equiv abs_text path_eq_equiv) };

    fn eq(&self, other: &Self) -> bool {
        self.as_str() == other.as_str()
    }
}

impl<'a> Eq for AbsPath<'a> {
    ghost use Rattle.std.specs.Cmp.{on_equiv};
    ghost use Rattle.base_text_paths.specs.AbsPath.{abs_text};
    ghost use Rattle.base_text_paths.specs.PathOrder.{path_eq_equiv};

    ghost laws = { on_equiv abs_text path_eq_equiv };
}

impl<'a> PartialOrd for AbsPath<'a> {
    ghost use Rattle.std.specs.Ordering.{as_partial_cmp, on};
    ghost use Rattle.base_text_paths.specs.AbsPath.{abs_text};
    ghost use Rattle.base_text_paths.specs.PathOrder.{path_cmp, path_po};

    ghost partial_cmp = { as_partial_cmp (on abs_text path_cmp) };

    ghost laws = { path_po abs_text };

    fn partial_cmp(&self, other: &Self) -> Option<Ordering> {
        Some(self.cmp(other))
    }
}

impl<'a> Ord for AbsPath<'a> {
    ghost use Rattle.std.specs.Prelude.{refl};
    ghost use Rattle.std.specs.Cmp.{on_total};
    ghost use Rattle.std.specs.Ordering.{on};
    ghost use Rattle.base_text_paths.specs.AbsPath.{abs_text};
    ghost use Rattle.base_text_paths.specs.PathOrder.{path_cmp, path_cmp_total, path_ties};

    ghost cmp = { on abs_text path_cmp };

    ghost total = { on_total abs_text path_cmp_total };

    ghost matches_partial_cmp = { λ x y. refl };

    ghost matches_eq = { λ x y. path_ties (abs_text x) (abs_text y) };

    fn cmp(&self, other: &Self) -> Ordering {
        compare(self.as_str(), other.as_str())
    }
}

impl<'a> Hash for AbsPath<'a> {
    ghost use Rattle.base_text_paths.specs.AbsPath.{abs_text};
    ghost use Rattle.base_text_paths.specs.PathOrder.{path_fed, path_fed_alike};

    ghost hash_input = { λ path. path_fed (abs_text path) };

    ghost respects_eq = { λ x y. path_fed_alike (abs_text x) (abs_text y) };

    fn hash<H: Hasher>(&self, state: &mut H) {
        self.as_str().hash(state);
    }
}

impl<'a> fmt::Display for AbsPath<'a> {
    ghost use Rattle.std.specs.Prelude.{Some};
    ghost use Rattle.base_text_paths.specs.AbsPath.{abs_text};

    ghost output = { λ path. Some (abs_text path) };

    fn fmt<W: fmt::Write>(&self, f: &mut fmt::Formatter<W>) -> fmt::Result {
        f.pad(self.as_str())
    }
}
