use value_core::Value;

/// What a ref held from a commit on: the number of that commit, and the value.
#[derive(Drop)]
pub struct Version {
    pub number: u64,
    pub value: Value,
}
