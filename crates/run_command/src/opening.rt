ghost use Rattle.std.specs.Prelude.{◌≡◌, IfOk};
ghost use Rattle.std.specs.Arc.{arc_value};
ghost use Rattle.run_end.specs.Finishing.{NoneOut};
ghost use Rattle.shared_world.specs.Opening.{IsOpening};

use core_syntax::Program;
use interleave_core::World;
use serial_model::Limits;
use std::alloc::{AllocError, Global};
use std::sync::Arc;

/// The world of the program under these limits, before its first entry, beside the program.
pub fn opened(
    alloc: Global,
    program: Program,
    limits: Limits,
) -> Result<(World, Arc<Program>), AllocError>
    ensures opens { IfOk result (λ both. IsOpening (record { program = program; limits = limits }) both.0) }
    ensures unclaimed { IfOk result (λ both. NoneOut both.0) }
    ensures program { IfOk result (λ both. arc_value both.1 ≡ program) }
{
    let program = Arc::new(alloc, program)?;
    let world = World::new(alloc, Arc::try_clone(&program)?, limits)?;
    Ok((world, program))
}
