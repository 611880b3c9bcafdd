//! Laws of the meaning.
ghost use Rattle.std.specs.Prelude.{List};
ghost use Rattle.value_core.specs.primitives.Words.{takes_of};
ghost use Rattle.value_core.specs.declared.value.Value.{Value};
ghost use Rattle.core_syntax.specs.declared.node_id.NodeId.{NodeId};
ghost use Rattle.core_syntax.specs.Fits.{IsFitting};
ghost use Rattle.serial_model.specs.Fitting.{IsBegun, MeetsNoMisfit};
ghost use Rattle.serial_model.specs.Laws.{AreBounded, BytesGrow, NoActorIsAsked, NoneIsBegunInside, NoneIsOver, NoneIsStuck, NothingWaits, StepsSuffice, TasksAreBegun, TurnsAreLast, UnitsAreBegun, ValuesStay};

use crate::limits::Limits;
use core_syntax::Program;

/// In a program whose nodes fit, whatever its evaluations begin with, and whatever they are answered, they meet no name
/// outside its frame and no number of arguments that isn't taken.
#[tactic(auto, using(crate::proofs::evaluation::Fitting::meets_no_misfit))]
pub fn meets_no_misfit(program: &Program)
    requires { IsFitting takes_of program.now }
    ensures { (body : NodeId) (values : List Value) → IsBegun program.now body values → MeetsNoMisfit program.now body values }
{
    let _main = program.main();
}

/// A history has no more entries than its limits allow.
pub fn entries_are_bounded(program: &Program, limits: Limits)
    ensures { AreBounded (record { program = program.now; limits = limits }) }
{
    let _units = limits.units();
}

/// Each unit of a history begins as an evaluation of the program begins.
pub fn units_are_begun(program: &Program, limits: Limits)
    ensures { UnitsAreBegun (record { program = program.now; limits = limits }) }
{}

/// Where no end is set, and one thread finds neither an unfinished unit nor a message, the state is over.
#[tactic(auto, using(crate::proofs::runs::Firsts::none_is_over))]
pub fn none_is_over(program: &Program, limits: Limits)
    ensures { NoneIsOver (record { program = program.now; limits = limits }) }
{}

/// No state is stuck: the entry that one thread settles next is enabled, in each state that a history replays to.
pub fn none_is_stuck(program: &Program, limits: Limits)
    ensures { NoneIsStuck (record { program = program.now; limits = limits }) }
{
    let _main = program.main();
}

/// Where no end is set and nothing is enabled, in a state that a history replays to, each unit is finished and no message
/// waits.
pub fn nothing_waits(program: &Program, limits: Limits)
    ensures { NothingWaits (record { program = program.now; limits = limits }) }
{
    let _main = program.main();
}

/// Each task of a transaction of a unit of a history begins as an evaluation of the program begins.
pub fn tasks_are_begun(program: &Program, limits: Limits)
    ensures { TasksAreBegun (record { program = program.now; limits = limits }) }
{}

/// No task of a transaction is stopped by the bound on its steps that the meaning has.
#[tactic(auto, using(crate::proofs::tasks::Bounded::bound_is_never_met))]
pub fn steps_suffice()
    ensures { StepsSuffice }
{}

/// A unit that is finished stays so, with its value, whatever entry comes next.
pub fn values_stay(program: &Program, limits: Limits)
    ensures { ValuesStay (record { program = program.now; limits = limits }) }
{
    let _main = program.main();
}

/// A turn that is not finished is the last one of its actor, which is busy.
pub fn turns_are_last(program: &Program, limits: Limits)
    ensures { TurnsAreLast (record { program = program.now; limits = limits }) }
{
    let _main = program.main();
}

/// A longer history has printed at least as much: its bytes begin with those of the shorter one.
pub fn bytes_grow(program: &Program, limits: Limits)
    ensures { BytesGrow (record { program = program.now; limits = limits }) }
{}

/// A body inside a transaction asks for no other transaction.
pub fn none_is_begun_inside()
    ensures { NoneIsBegunInside }
{}

/// A body of a program without actors makes no actor, gives none a behaviour, sends to none and asks for none.
pub fn no_actor_is_asked()
    ensures { NoActorIsAsked }
{}
