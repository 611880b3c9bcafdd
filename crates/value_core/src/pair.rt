use crate::Key;

/// An entry of a map: a key and its value.
#[derive(Drop)]
pub struct Pair<V> {
    pub key: Key,
    pub value: V,
}
