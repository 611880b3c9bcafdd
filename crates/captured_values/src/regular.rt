use value_core::{Name, Value, Values};

/// So many items are many.
const MANY: usize = 64;

/// Whether the items are many, and each is as far from the one before it: integers, or things by the number under which they were made. Then
/// their runs are few. It is a guess.
pub(crate) fn are_regular(items: &Values) -> bool {
    if items.len() < MANY {
        return false;
    }
    let (Some(first), Some(second)) = (number_at(items, 0), number_at(items, 1)) else {
        return false;
    };
    let distance = second.wrapping_sub(first);
    let mut next = first;
    for item in items.iter() {
        match number_of(item) {
            Some(number) if number == next => next = next.wrapping_add(distance),
            _ => return false,
        }
    }
    true
}

fn number_at(items: &Values, index: usize) -> Option<i64> {
    number_of(items.get(index)?)
}

fn number_of(value: &Value) -> Option<i64> {
    match value {
        Value::Int(number) => Some(*number),
        Value::Ref(name) | Value::Actor(name) | Value::Future(name) => last_of(name),
        _ => None,
    }
}

fn last_of(name: &Name) -> Option<i64> {
    let number = name.parts().last()?;
    Some(i64::from(*number))
}
