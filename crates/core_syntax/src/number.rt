ghost use Rattle.std.specs.Prelude.{◌≡◌, ◌+◌, IfOk};

use std::alloc::AllocError;

/// A length as a number of 32 bits. A longer list counts as want of memory.
pub fn as_number(length: usize) -> Result<u32, AllocError>
    ensures { IfOk result (λ number. number ≡ length) }
{
    u32::try_from(length).map_err(|_| AllocError)
}

/// The sum. One of more than 32 bits counts as want of memory.
pub fn sum_of(left: u32, right: u32) -> Result<u32, AllocError>
    ensures { IfOk result (λ sum. sum ≡ left + right) }
{
    left.checked_add(right).ok_or(AllocError)
}
