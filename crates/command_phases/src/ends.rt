ghost use Rattle.std.specs.Prelude.{◌≡◌, ◌↔◌, IsTrue};
ghost use Rattle.serial_model.specs.Replay.{status};

use crate::status::{DONE, FAULT, SPENT};
use serial_model::End;
use value_core::{Code, Name, Place};

/// The exit status of an end.
pub fn end_status(end: &End) -> u8
    ensures { result ≡ status end.now }
{
    match end {
        End::Done => DONE,
        End::Fault { .. } => FAULT,
        End::Spent { .. } => SPENT,
        End::UnitsSpent => SPENT,
    }
}

/// Whether both ends are the same.
pub fn is_same_end(left: &End, right: &End) -> bool
    ensures { IsTrue result ↔ (left.now ≡ right.now) }
{
    match left {
        End::Done => matches!(right, End::Done),
        End::Fault { code, at, unit } => is_fault(right, *code, *at, unit),
        End::Spent { unit } => is_spent(right, unit),
        End::UnitsSpent => matches!(right, End::UnitsSpent),
    }
}

fn is_fault(end: &End, failed: Code, place: Place, name: &Name) -> bool
    ensures { IsTrue result ↔ (End.Fault failed place name.now ≡ end.now) }
{
    match end {
        End::Fault { code, at, unit } => {
            failed == *code && place == *at && is_same_name(name, unit)
        }
        _ => false,
    }
}

fn is_spent(end: &End, name: &Name) -> bool
    ensures { IsTrue result ↔ (End.Spent name.now ≡ end.now) }
{
    match end {
        End::Spent { unit } => is_same_name(name, unit),
        _ => false,
    }
}

fn is_same_name(left: &Name, right: &Name) -> bool
    ensures { IsTrue result ↔ (left.now ≡ right.now) }
{
    left.parts() == right.parts()
}
