ghost use Rattle.std.specs.Prelude.{◌≡◌};
ghost use Rattle.unit_limit.specs.Spent.{are_units_spent};

use serial_model::Limits;

/// Whether as many units are made as the limits allow, so that no unit more may begin.
pub fn are_units_spent(limits: Limits, made: u32) -> bool
    ensures { result ≡ are_units_spent limits made }
{
    made == limits.units()
}
