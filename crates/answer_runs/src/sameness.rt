ghost use Rattle.std.specs.Prelude.{◌≡◌, ◌↔◌, ◌-◌, ◌*ℤ◌, pos, IsTrue};
ghost use Rattle.std.specs.Int.{int_wrap, w64};
ghost use Rattle.answer_runs.specs.Earlier.{earlier, earlier_int, earlier_name, earlier_value, moved};

use serial_model::Answer;
use value_core::{Name, Value};

/// How far before an answer: so many steps of that stride.
#[derive(Clone, Copy)]
pub struct Back {
    pub stride: i64,
    pub steps: u32,
}

impl Back {
    /// The answer itself.
    pub fn none() -> Self
        ensures { result.steps ≡ 0 }
    {
        Back {
            stride: 0,
            steps: 0,
        }
    }

    // How many things before a thing.
    fn moved(self) -> u128
        ensures { result ≡ moved self.stride self.steps }
    {
        match u64::try_from(self.stride) {
            Ok(stride) => u128::from(stride) * u128::from(self.steps),
            Err(_) => 0,
        }
    }

    // The integer so far before that one.
    fn int(self, number: i64) -> i64
        ensures { result ≡ earlier_int self.stride self.steps number }
    {
        number.wrapping_sub(self.distance())
    }

    // So many strides, where 64 bits wrap.
    fn distance(self) -> i64
        ensures { result ≡ int_wrap w64 (pos self.steps *ℤ self.stride) }
    {
        i64::from(self.steps).wrapping_mul(self.stride)
    }
}

/// Whether the answers so far before the two are the same.
pub fn are_same(left: &Answer, left_back: Back, right: &Answer, right_back: Back) -> bool
    ensures { IsTrue result ↔ (earlier left_back.stride left_back.steps left.now ≡ earlier right_back.stride right_back.steps right.now) }
{
    match (left, right) {
        (Answer::Value(left), Answer::Value(right)) => {
            are_same_values(left, left_back, right, right_back)
        }
        (Answer::Fault(left), Answer::Fault(right)) => left == right,
        _ => false,
    }
}

fn are_same_values(left: &Value, left_back: Back, right: &Value, right_back: Back) -> bool
    ensures { IsTrue result ↔ (earlier_value left_back.stride left_back.steps left.now ≡ earlier_value right_back.stride right_back.steps right.now) }
{
    match (left, right) {
        (Value::Int(left), Value::Int(right)) => left_back.int(*left) == right_back.int(*right),
        (Value::Ref(left), Value::Ref(right)) => {
            are_same_names(left, left_back.moved(), right, right_back.moved())
        }
        (Value::Actor(left), Value::Actor(right)) => {
            are_same_names(left, left_back.moved(), right, right_back.moved())
        }
        (Value::Future(left), Value::Future(right)) => {
            are_same_names(left, left_back.moved(), right, right_back.moved())
        }
        _ => left.equal(right),
    }
}

fn are_same_names(left: &Name, left_steps: u128, right: &Name, right_steps: u128) -> bool
    ensures { IsTrue result ↔ (earlier_name left_steps left.now ≡ earlier_name right_steps right.now) }
{
    match (left.parts().split_last(), right.parts().split_last()) {
        (Some((left, maker)), Some((right, other_maker))) => {
            are_same_makers(maker, other_maker)
                && are_same_numbers(*left, left_steps, *right, right_steps)
        }
        (None, None) => true,
        _ => false,
    }
}

fn are_same_makers(left: &[u32], right: &[u32]) -> bool
    ensures { IsTrue result ↔ (left.now ≡ right.now) }
{
    left == right
}

// Whether the numbers so many steps before the two are the same; before 0 it is 0.
fn are_same_numbers(left: u32, left_steps: u128, right: u32, right_steps: u128) -> bool
    ensures { IsTrue result ↔ (left - left_steps ≡ right - right_steps) }
{
    u128::from(left).saturating_sub(left_steps) == u128::from(right).saturating_sub(right_steps)
}
