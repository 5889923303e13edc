//! Lists in events and answers, seen by contracts as lists.

ghost use Rattle.std.specs.Prelude.{◌≡◌};

use std::marker::Model;
use wtf_base::Bytes;
use wtf_path::Path;

/// Paths, in order.
#[derive(Debug, Drop)]
pub struct Paths {
    items: Vec<Path>,
}

impl Model for Paths {
    ghost use Rattle.std.specs.Prelude.{List, ℕ};

    ghost Value = { List (List ℕ) };

    ghost view = { λ a. a.items.items };
}

impl Paths {
    /// The paths of a vector.
    pub fn of(items: Vec<Path>) -> Paths
        ensures { result ≡ items.items }
    {
        Paths { items }
    }

    /// The paths, in order.
    pub fn as_slice(&self) -> &[Path]
        ensures { result.now ≡ self.now }
    {
        self.items.as_slice()
    }
}

impl PartialEq for Paths {
    ghost use Rattle.std.specs.Prelude.{bytes_eq};
    ghost use Rattle.std.specs.Cmp.{partial_equiv_from_equiv};
    ghost use Rattle.std.specs.Cmp.Lexicographic.{nat_list_eq_equiv, lists_equiv, pointwise};

    ghost eq = { pointwise bytes_eq };

    ghost laws = { partial_equiv_from_equiv (lists_equiv nat_list_eq_equiv) };

    fn eq(&self, other: &Paths) -> bool {
        self.items.as_slice() == other.items.as_slice()
    }
}

/// Names of a directory, in order.
#[derive(Debug, Drop)]
pub struct Names {
    items: Vec<Bytes>,
}

impl Model for Names {
    ghost use Rattle.std.specs.Prelude.{List, ℕ};

    ghost Value = { List (List ℕ) };

    ghost view = { λ a. a.items.items };
}

impl Names {
    /// The names of a vector.
    pub fn of(items: Vec<Bytes>) -> Names
        ensures { result ≡ items.items }
    {
        Names { items }
    }

    /// The names, in order.
    pub fn as_slice(&self) -> &[Bytes]
        ensures { result.now ≡ self.now }
    {
        self.items.as_slice()
    }
}

impl PartialEq for Names {
    ghost use Rattle.std.specs.Prelude.{bytes_eq};
    ghost use Rattle.std.specs.Cmp.{partial_equiv_from_equiv};
    ghost use Rattle.std.specs.Cmp.Lexicographic.{nat_list_eq_equiv, lists_equiv, pointwise};

    ghost eq = { pointwise bytes_eq };

    ghost laws = { partial_equiv_from_equiv (lists_equiv nat_list_eq_equiv) };

    fn eq(&self, other: &Names) -> bool {
        self.items.as_slice() == other.items.as_slice()
    }
}

/// A line of a shown tree: a path, and the length in bytes where it is a file.
#[derive(Debug, Drop, PartialEq)]
pub struct Row {
    pub path: Path,
    pub len: Option<u64>,
}

/// Lines of a shown tree, in order.
#[derive(Debug, Drop)]
pub struct Rows {
    items: Vec<Row>,
}

impl Model for Rows {
    ghost use Rattle.std.specs.Prelude.{List};
    ghost use Rattle.wtf_model.specs.declared.lists.Row.{Row};

    ghost Value = { List Row };

    ghost view = { λ a. a.items.items };
}

impl Rows {
    /// The rows of a vector.
    pub fn of(items: Vec<Row>) -> Rows
        ensures { result ≡ items.items }
    {
        Rows { items }
    }

    /// The rows, in order.
    pub fn as_slice(&self) -> &[Row]
        ensures { result.now ≡ self.now }
    {
        self.items.as_slice()
    }
}

impl PartialEq for Rows {
    ghost use Rattle.std.specs.Cmp.Lexicographic.{lists_per, pointwise};
    ghost use Rattle.std.specs.Cmp.Rules.{comparing};
    ghost use Rattle.std.proofs.Common.{rules};

    ghost eq = { pointwise ⟦<Row as PartialEq>⟧.eq };

    ghost laws = { lists_per (Prim.search (comparing, rules)) };

    fn eq(&self, other: &Rows) -> bool {
        self.items.as_slice() == other.items.as_slice()
    }
}
