ghost use Rattle.std.specs.Prelude.{◌≡◌, IfOk};

use crate::{Shared, SharedVector};
use std::alloc::{AllocError, Global};

/// What can be copied, where want of memory is told.
pub trait Copied: Drop {
    /// An equal one.
    fn copied(&self, alloc: Global) -> Result<Self, AllocError>
        ensures { IfOk result (λ copied. copied ≡ self.now) };
}

impl Copied for u8 {
    fn copied(&self, _alloc: Global) -> Result<Self, AllocError> {
        Ok(*self)
    }
}

impl<T: Copied> Copied for Shared<T> {
    fn copied(&self, _alloc: Global) -> Result<Self, AllocError> {
        self.copy()
    }
}

impl<T: Copied> Copied for SharedVector<T> {
    fn copied(&self, _alloc: Global) -> Result<Self, AllocError> {
        self.copy()
    }
}
