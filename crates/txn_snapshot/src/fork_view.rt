use crate::View;
use value_core::Name;

/// What a fork gives: the future, and the values that the child sees before the store.
#[derive(Drop)]
pub struct ForkView {
    pub future: Name,
    pub view: View,
}
