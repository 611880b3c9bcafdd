use crate::Value;
use shared_vector::Copied;
use std::alloc::{AllocError, Global};

impl Copied for Value {
    fn copied(&self, alloc: Global) -> Result<Self, AllocError> {
        self.copy(alloc)
    }
}
