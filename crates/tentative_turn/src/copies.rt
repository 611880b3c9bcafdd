ghost use Rattle.std.specs.Prelude.{◌≡◌, IfOk};

use crate::held_effect::{HeldEffect, hold_last};
use std::alloc::{AllocError, Global};
use std::collections::VecDeque;

/// Equal effects, in the same order.
pub fn copy_effects(
    alloc: Global,
    effects: &VecDeque<HeldEffect>,
) -> Result<VecDeque<HeldEffect>, AllocError>
    ensures { IfOk result (λ copied. copied.items ≡ effects.now.items) }
{
    let mut copied = VecDeque::new(alloc);
    for effect in effects {
        hold_last(&mut copied, effect.copy(alloc)?)?;
    }
    Ok(copied)
}
