ghost use Rattle.std.specs.Prelude.{◌≡◌, IfOk};

use crate::rows::{CASCADE, Row, TURN_UNDONE, TWO_ATTEMPTS};
use core_syntax::Program;
use interleave_core::World;
use schedule_drive::drive;
use schedule_text::read_schedule;
use scope_check::check;
use serial_model::{End, Limits};
use sexpr_reader::read;
use std::alloc::{AllocError, Global};
use std::sync::Arc;
use std::test::Fail;
use value_core::Text;

/// The program of a source.
fn program_of(alloc: Global, source: &str) -> Result<Program, AllocError> {
    let forms = read(alloc, source.as_bytes()).map_err(|_| AllocError)?;
    check(alloc, &forms).map_err(|_| AllocError)
}

/// The report of the lines that drive the world.
fn report_of(
    world: &mut World,
    alloc: Global,
    program: &Program,
    script: &str,
) -> Result<Text, AllocError>
    requires { program.now ≡ world.old.setup.program }
{
    let lines = read_schedule(alloc, script.as_bytes()).map_err(|_| AllocError)?;
    drive(world, alloc, program, &lines)
}

/// Whether the world ends by itself, and has printed that.
fn prints(world: &mut World, alloc: Global, printed: &str) -> Result<bool, AllocError> {
    let end = world.finish(alloc)?;
    Ok(matches!(end, End::Done) && world.output() == printed.as_bytes())
}

/// Whether the lines of the row are reported so, and the whole run prints that.
fn goes_so(
    mut world: World,
    alloc: Global,
    program: &Program,
    row: &Row,
) -> Result<bool, AllocError>
    requires { program.now ≡ world.setup.program }
{
    let report = report_of(&mut world, alloc, program, row.script)?;
    Ok(report.items() == row.report.as_bytes() && prints(&mut world, alloc, row.printed)?)
}

fn begins_so(alloc: Global, program: Arc<Program>, row: &Row) -> Result<bool, AllocError> {
    let world = World::new(alloc, program.clone()?, Limits::default())?;
    goes_so(world, alloc, &program, row)
}

fn is_so(alloc: Global, row: &Row) -> Result<bool, AllocError> {
    let program = program_of(alloc, row.source)?;
    begins_so(alloc, Arc::new(alloc, program)?, row)
}

#[test]
fn the_second_attempt_to_commit_is_undone(rt: HostRuntime) -> Result<(), Fail> {
    assert!(rt; is_so(rt.alloc(), &TWO_ATTEMPTS)?);
    Ok(())
}

#[test]
fn a_turn_goes_with_the_attempt_on_which_it_hangs(rt: HostRuntime) -> Result<(), Fail> {
    assert!(rt; is_so(rt.alloc(), &TURN_UNDONE)?);
    assert!(rt; is_so(rt.alloc(), &CASCADE)?);
    Ok(())
}
