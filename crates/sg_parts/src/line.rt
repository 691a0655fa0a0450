ghost use Rattle.std.specs.Prelude.{◌≡◌};

use std::marker::Model;

/// Whole coefficients, the lowest first. Contracts see the list.
#[derive(Drop)]
pub struct Line {
    items: Vec<i128>,
}

impl Model for Line {
    ghost use Rattle.std.specs.Prelude.{List, ℤ};

    ghost Value = { List ℤ };

    ghost view = { λ r. r.items.items };
}

impl Line {
    /// The coefficients of a list.
    pub fn of(items: Vec<i128>) -> Line
        ensures { result ≡ items.items }
    {
        Line { items }
    }

    /// All coefficients, as a slice.
    pub fn as_slice(&self) -> &[i128]
        ensures { result.now ≡ self.now }
    {
        self.items.as_slice()
    }
}
