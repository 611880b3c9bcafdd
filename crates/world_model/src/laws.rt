//! Laws of the world.
ghost use Rattle.world_model.specs.Laws.{GaveKeeps, OpeningStands};

use core_syntax::Program;
use serial_model::Limits;

/// A world that stands for the replay of its history goes on, by each row, to one that does.
pub fn gave_keeps(program: &Program, limits: Limits)
    ensures { GaveKeeps (record { program = program.now; limits = limits }) }
{
    let _main = program.main();
}

/// The world with main alone stands for the empty history.
pub fn opening_stands(program: &Program, limits: Limits)
    ensures { OpeningStands (record { program = program.now; limits = limits }) }
{}
