ghost use Rattle.std.specs.Prelude.{◌≡◌, ◌≤◌, ◌↔◌, IsSome, IfSome};
ghost use Rattle.serial_model.specs.Limits.{Budget, IsInRange, default_budget};

use std::marker::Model;

/// What a run may spend: the fuel of each unit and of each task of a transaction, and the number of units. Fuel is at
/// least 1 and at most 10,000,000, units at least 1 and at most 1,000,000.
#[derive(Clone, Copy, Debug, PartialEq, Eq)]
pub struct Limits {
    fuel: u64,
    units: u32,
}

impl Model for Limits {
    ghost use Rattle.serial_model.specs.Limits.{Budget, IsInRange};

    ghost Value = { Budget };

    ghost view = { λ l. record { fuel = l.fuel; units = l.units } };

    ghost invariant = { λ l. IsInRange (record { fuel = l.fuel; units = l.units }) };

    ghost inverse = { λ b. record { fuel = b.fuel; units = b.units } };
}

impl Limits {
    /// These limits, and `None` where one of the numbers is out of its range.
    pub fn checked(fuel: u64, units: u32) -> Option<Self>
        ensures in_range { IsSome result ↔ IsInRange (record { fuel = fuel; units = units }) }
        ensures value { IfSome result (λ limits. limits ≡ record { fuel = fuel; units = units }) }
    {
        if (1..=10_000_000).contains(&fuel) && (1..=1_000_000).contains(&units) {
            Some(Limits { fuel, units })
        } else {
            None
        }
    }

    /// The most nodes that a unit, or a task of a transaction, enters.
    pub fn fuel(self) -> u64
        ensures { result ≡ self.fuel }
    {
        self.fuel
    }

    /// The most units that a run makes, main among them.
    pub fn units(self) -> u32
        ensures value { result ≡ self.units }
        ensures in_range { IsInRange self }
    {
        self.units
    }
}

impl Default for Limits {
    ghost is_default = { λ l. l ≡ default_budget };

    /// A fuel of 1,000,000 and 100,000 units.
    fn default() -> Self {
        Limits {
            fuel: 1_000_000,
            units: 100_000,
        }
    }
}
