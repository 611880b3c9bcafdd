ghost use Rattle.std.specs.Prelude.{◌≡◌, ◌≤◌};

use std::marker::Model;

/// A place in a source: a line and a column, both counted from 1. A column counts bytes.
#[derive(Clone, Copy, Debug, PartialEq, Eq)]
pub struct Place {
    line: u32,
    column: u32,
}

impl Model for Place {
    ghost use Rattle.std.specs.Prelude.{◌≤◌};
    ghost use Rattle.value_core.specs.Place.{Spot};

    ghost Value = { Spot };

    ghost view = { λ p. record { line = p.line; column = p.column } };

    ghost invariant = { λ p. (1 ≤ p.line) × (1 ≤ p.column) };

    ghost inverse = { λ s. record { line = s.line; column = s.column } };
}

impl Place {
    /// The place at this line and column.
    pub fn new(line: u32, column: u32) -> Self
        requires from_one { 1 ≤ line }
        requires from_first { 1 ≤ column }
        ensures line { result.line ≡ line }
        ensures column { result.column ≡ column }
    {
        Place { line, column }
    }

    /// The line, from 1.
    pub fn line(self) -> u32
        ensures value { result ≡ self.line }
        ensures from_one { 1 ≤ result }
    {
        self.line
    }

    /// The column, from 1, in bytes.
    pub fn column(self) -> u32
        ensures value { result ≡ self.column }
        ensures from_one { 1 ≤ result }
    {
        self.column
    }
}
