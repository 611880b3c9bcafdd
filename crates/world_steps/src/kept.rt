ghost use Rattle.std.specs.Prelude.{◌≡◌, ◌<◌, ◌++◌, ◌∷◌, [], IfOk, IfSome, OnErr, OnOk, Some, false, is_some};
ghost use Rattle.std.specs.Option.{IsSome};
ghost use Rattle.eval_step.specs.Evaluation.{IsAsking};
ghost use Rattle.world_steps.specs.Kept.{shared_of};
ghost use Rattle.world_steps.specs.Ready.{AreMarks, IsReady};
ghost use Rattle.serial_model.specs.declared.answer.Answer.TheVariants as answers;
ghost use Rattle.shared_world.specs.rows.Pieces.{EndsBy};
ghost use Rattle.task_fork_join.specs.Stepping.{IsGiven};
ghost use Rattle.world_steps.specs.Moved.{IsMoved};
ghost use Rattle.serial_model.specs.declared.entry.Entry.TheVariants.{Run};
ghost use Rattle.shared_world.specs.declared.given.Given.TheVariants as given;
ghost use Rattle.unit_table.specs.Board.{unit_at, CanWait};
ghost use Rattle.unit_table.specs.Piece.{says_dropped};
ghost use Rattle.unit_table.specs.declared.mark.Mark.TheVariants as mark;
ghost use Rattle.unit_table.specs.declared.mark.Work.TheVariants as work;
ghost use Rattle.value_core.specs.Named.{named};

use actor_mailbox::Message;
use actor_mails::Mails;
use core_syntax::Program;
use eval_step::Machine;
use ref_store::Store;
use serial_model::{Answer, End, Entry, History, Limits};
use shared_world::Given;
use std::alloc::{AllocError, Global};
use std::collections::BTreeMap;
use std::sync::Arc;
use task_fork_join::Tree;
use turns_ahead::TurnAhead;
use unit_table::{Mark, Units, Work};
use value_core::name_map::find;
use value_core::{Name, Places, Value};

/// What the world keeps. Of each actor the message is taken of its turn whose begin is held; and each turn that runs ahead is kept
/// by the name of its unit. Their names are kept by the order in which they began as well, so that who seeks those that hang on others finds
/// each behind what it hangs on; nothing is proved of that order.
#[derive(Drop)]
pub struct Kept {
    pub program: Arc<Program>,
    pub limits: Limits,
    pub history: History,
    pub store: Store,
    pub units: Units,
    pub mails: Mails,
    pub taken: Places<Message>,
    pub aheads: BTreeMap<Name, TurnAhead>,
    pub begun: BTreeMap<u64, Name>,
    pub attempts: BTreeMap<Name, Tree>,
    pub owners: Places<Name>,
    pub output: Vec<u8>,
    pub made: u32,
    pub end: Option<End>,
}

/// The entry of a unit's step, twice: for the history, and for the answer.
#[derive(Drop)]
pub struct Marks {
    pub entry: Entry,
    pub told: Entry,
}

/// A step of a unit that is ready to be settled: its entry, and its machine with the answer. It takes no more memory.
#[derive(Drop)]
pub struct Ready {
    pub marks: Marks,
    pub machine: Machine,
}

impl Kept {
    /// Whether a turn of that name runs ahead. It takes no memory.
    pub fn runs_ahead(&self, name: &Name) -> bool
        ensures { result ≡ is_some (named name.now (shared_of self.now).aheads) }
    {
        find(&self.aheads, name).is_some()
    }

    /// Makes room for one entry more.
    pub fn make_room(&mut self) -> Result<(), AllocError>
        ensures same { shared_of self.new ≡ shared_of self.old }
        ensures others { self.new ≡ record self.old { history = self.new.history } }
        ensures room { OnOk result (0 < self.new.history.room) }
    {
        self.history.reserve(1)
    }

    /// Takes all memory for the step of a unit that is answered so.
    pub fn prepare(
        &mut self,
        alloc: Global,
        name: &Name,
        moved: Machine,
        value: Value,
    ) -> Result<Ready, AllocError>
        requires asks { IsAsking moved }
        ensures same { shared_of self.new ≡ shared_of self.old }
        ensures others { self.new ≡ record self.old { history = self.new.history } }
        ensures ready { IfOk result (IsReady self.new name.now moved value) }
    {
        self.make_room()?;
        ready_of(alloc, name, moved, value)
    }

    /// The step of the unit is settled. It takes no memory.
    pub fn settle(&mut self, name: &Name, ready: Ready, made: u32) -> Given
        requires room { 0 < self.old.history.room }
        requires marks { AreMarks name.now ready.marks }
        requires there { IsSome (unit_at self.old.units name.now) }
        ensures found { result ≡ given.Settled (Run name.now) }
        ensures set { IfSome (unit_at self.old.units name.now) (λ x. IsMoved name.now x ready.machine made (mark.Ready work.Eval) self.old.units self.new.units) }
        ensures others { shared_of self.new ≡ record (shared_of self.old) { history = self.old.history.items ++ Run name.now ∷ []; board = self.new.units } }
        ensures rest { self.new ≡ record self.old { history = self.new.history; units = self.new.units } }
    {
        let Ready { marks, machine } = ready;
        let Marks { entry, told } = marks;
        move_to(
            &mut self.units,
            name,
            machine,
            made,
            Mark::Ready(Work::Eval),
        );
        append(&mut self.history, entry);
        Given::Settled(told)
    }

    /// The run ends. It takes no memory.
    pub fn end_with(&mut self, marks: Marks, end: End) -> Given
        requires room { 0 < self.old.history.room }
        requires told { marks.told ≡ marks.entry }
        ensures { EndsBy (shared_of self.old) marks.entry end result (shared_of self.new) }
    {
        let Marks { entry, told } = marks;
        append(&mut self.history, entry);
        self.end = Some(end);
        Given::Settled(told)
    }
}

/// The unit has that machine, has made so many things, and has that mark. It takes no memory.
pub fn move_to(units: &mut Units, name: &Name, machine: Machine, made: u32, mark: Mark)
    requires there { IsSome (unit_at units.old name.now) }
    requires stays { says_dropped mark ≡ false }
    requires can_wait { CanWait units.old mark }
    ensures { IfSome (unit_at units.old name.now) (λ x. IsMoved name.now x machine made mark units.old units.new) }
{
    units.move_unit(name, machine, made);
    units.mark(name, mark);
}

/// The entry of the unit's step, and its machine with the answer.
fn ready_of(alloc: Global, name: &Name, moved: Machine, value: Value) -> Result<Ready, AllocError>
    requires asks { IsAsking moved }
    ensures marks { IfOk result (λ ready. AreMarks name.now ready.marks) }
    ensures given { IfOk result (λ ready. IsGiven moved (answers.Value value) ready.machine) }
{
    let machine = answered(alloc, moved, value)?;
    let marks = marks_of(alloc, name)?;
    Ok(Ready { marks, machine })
}

/// The machine, which stands at a request, with that answer.
pub fn answered(alloc: Global, mut machine: Machine, value: Value) -> Result<Machine, AllocError>
    requires asks { IsAsking machine }
    ensures { IfOk result (IsGiven machine (answers.Value value)) }
{
    machine.answer(alloc, Answer::Value(value))?;
    Ok(machine)
}

/// The entry of the unit's step, twice.
pub(crate) fn marks_of(alloc: Global, name: &Name) -> Result<Marks, AllocError>
    ensures { IfOk result (AreMarks name.now) }
{
    let entry = Entry::Run(name.copy(alloc)?);
    let told = Entry::Run(name.copy(alloc)?);
    Ok(Marks { entry, told })
}

/// Appends the entry, for which there is room.
pub fn append(history: &mut History, entry: Entry)
    requires { 0 < history.old.room }
    ensures { history.new.items ≡ history.old.items ++ entry ∷ [] }
{
    match history.push(entry) {
        Ok(()) => {}
        Err(_) => {}
    }
}
