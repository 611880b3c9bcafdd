// What a unit does to actors.
ghost use Rattle.std.specs.Prelude.{◌≡◌, ◌∷◌, [], IfOk, IfSome, OnErr, OnOk, Some, None, length};
ghost use Rattle.std.specs.Option.{IsSome, option_copied, option_map};
ghost use Rattle.actor_mails.specs.Mails.{held, mail_at};
ghost use Rattle.eval_step.specs.Evaluation.{IsAsking};
ghost use Rattle.serial_model.specs.declared.actor_state.ActorState.{ActorState as Acting};
ghost use Rattle.serial_model.specs.declared.halt.Halt.TheVariants as halts;
ghost use Rattle.serial_model.specs.declared.request.Request.TheVariants as requests;
ghost use Rattle.serial_model.specs.Step as row;
ghost use Rattle.shared_world.specs.rows.Actors.{actor_with, roused, roused_unless};
ghost use Rattle.shared_world.specs.Seen.{one_or_none};
ghost use Rattle.shared_world.specs.Shared.{actor_of, becoming_of, unit_state};
ghost use Rattle.shared_world.specs.Stands.{Stands};
ghost use Rattle.unit_table.specs.Board.{piece_at, unit_at, HasPlace, IsPutAt, SameClaims};
ghost use Rattle.unit_table.specs.declared.mark.Mark.TheVariants as marks;
ghost use Rattle.unit_table.specs.declared.piece.Piece.TheVariants as pieces;
ghost use Rattle.value_core.specs.Named.{Name as Called};
ghost use Rattle.value_core.specs.NameSet.{holds_at};
ghost use Rattle.world_model.specs.Message.{unsettled};
ghost use Rattle.world_steps.specs.Acting.{is_at_rest, says_resting, IsFreed, IsMaking, RestsAt};
ghost use Rattle.world_steps.specs.Kept.{shared_of, IsSameBut, IsUnitOf};
ghost use Rattle.world_steps.specs.Rows.{Comes, FinishesOr, SpawnsOr, TurnsIntoOr};

use crate::kept::{Kept, append, marks_of, move_to};
use crate::units::{Made, drop_machine, made_next};
use actor_mailbox::Message;
use actor_mails::Mails;
use eval_step::Machine;
use serial_model::ActorState;
use shared_world::Given;
use std::alloc::{AllocError, Global};
use unit_table::{Actor, Becoming, Mark, Piece, Units, Work};
use value_core::{Code, Name, Place, Value, Values};

impl Kept {
    /// A new actor, which is idle.
    pub(crate) fn spawn(
        &mut self,
        alloc: Global,
        name: &Name,
        moved: Machine,
        behaviour: u32,
        state: Values,
        at: Place,
    ) -> Result<Given, AllocError>
        requires stands { Stands (shared_of self.old) }
        requires unit { IsUnitOf (shared_of self.old) name.now moved }
        requires asks { IsAsking moved }
        ensures { Comes (shared_of self.old) name.now (halts.Ask (requests.Spawn behaviour state) at) (shared_of self.new) result }
    {
        let made = self.making(alloc, name)?;
        self.add_spawned(alloc, name, moved, made, behaviour, state)
    }

    /// The next thing that the unit makes, under whose name there is a place.
    fn making(&mut self, alloc: Global, name: &Name) -> Result<Made, AllocError>
        requires there { IsSome (unit_at self.old.units name.now) }
        ensures same { IsSameBut (shared_of self.old) (shared_of self.new) }
        ensures others { self.new ≡ record self.old { units = self.new.units } }
        ensures making { IfOk result (IsMaking (shared_of self.new) name.now) }
    {
        let made = made_next(alloc, name, self.made_of(name))?;
        self.reserve_new(alloc, &made.name)?;
        Ok(made)
    }

    /// The unit makes an idle actor.
    fn add_spawned(
        &mut self,
        alloc: Global,
        name: &Name,
        moved: Machine,
        made: Made,
        behaviour: u32,
        state: Values,
    ) -> Result<Given, AllocError>
        requires stands { Stands (shared_of self.old) }
        requires unit { IsUnitOf (shared_of self.old) name.now moved }
        requires asks { IsAsking moved }
        requires making { IsMaking (shared_of self.old) name.now made }
        ensures { SpawnsOr (shared_of self.old) name.now behaviour state (shared_of self.new) result }
    {
        let Made {
            name: made,
            told,
            count,
        } = made;
        let ready = self.prepare(alloc, name, moved, Value::Actor(told))?;
        add_actor(
            &mut self.units,
            alloc,
            &self.mails,
            &made,
            idle(behaviour, state),
        );
        Ok(self.settle(name, ready, count))
    }

    /// A message to an actor.
    pub(crate) fn send(
        &mut self,
        alloc: Global,
        name: &Name,
        moved: Machine,
        to: &Name,
        args: Values,
        at: Place,
    ) -> Result<Given, AllocError>
        requires stands { Stands (shared_of self.old) }
        requires unit { IsUnitOf (shared_of self.old) name.now moved }
        requires asks { IsAsking moved }
        ensures { Comes (shared_of self.old) name.now (halts.Ask (requests.Send to.now args) at) (shared_of self.new) result }
    {
        let made = self.made_of(name);
        let sender = name.copy(alloc)?;
        self.mails.reserve(alloc, to, 1)?;
        let ready = self.prepare(alloc, name, moved, Value::Nil)?;
        self.mails.put(
            to,
            Message {
                sender,
                args,
                depends: None,
            },
        );
        rouse_unless(&mut self.units, self.taken.get(to).is_some(), to);
        Ok(self.settle(name, ready, made))
    }

    /// In a turn it is said what its actor is to become; elsewhere the run ends.
    pub(crate) fn turn_into(
        &mut self,
        alloc: Global,
        name: &Name,
        moved: Machine,
        behaviour: u32,
        state: Values,
        at: Place,
    ) -> Result<Given, AllocError>
        requires stands { Stands (shared_of self.old) }
        requires unit { IsUnitOf (shared_of self.old) name.now moved }
        requires asks { IsAsking moved }
        ensures { Comes (shared_of self.old) name.now (halts.Ask (requests.Become behaviour state) at) (shared_of self.new) result }
    {
        match self.actor_with(alloc, name)? {
            Some(_) => self.put_becoming(alloc, name, moved, Becoming { behaviour, state }),
            None => {
                drop_machine(moved);
                self.fail(alloc, name, Code::NoTurn, at)
            }
        }
    }

    /// At the end of the turn its actor becomes that.
    fn put_becoming(
        &mut self,
        alloc: Global,
        name: &Name,
        moved: Machine,
        next: Becoming,
    ) -> Result<Given, AllocError>
        requires stands { Stands (shared_of self.old) }
        requires unit { IsUnitOf (shared_of self.old) name.now moved }
        requires asks { IsAsking moved }
        ensures { TurnsIntoOr (shared_of self.old) name.now (becoming_of next) (shared_of self.new) result }
    {
        let given = self.reply(alloc, name, moved, Value::Nil)?;
        self.units.turn_into(name, next);
        Ok(given)
    }

    /// The actor whose turn the unit is; elsewhere the run ends.
    pub(crate) fn self_actor(
        &mut self,
        alloc: Global,
        name: &Name,
        moved: Machine,
        at: Place,
    ) -> Result<Given, AllocError>
        requires stands { Stands (shared_of self.old) }
        requires unit { IsUnitOf (shared_of self.old) name.now moved }
        requires asks { IsAsking moved }
        ensures { Comes (shared_of self.old) name.now (halts.Ask requests.SelfActor at) (shared_of self.new) result }
    {
        match self.actor_with(alloc, name)? {
            Some(actor) => self.reply(alloc, name, moved, Value::Actor(actor)),
            None => {
                drop_machine(moved);
                self.fail(alloc, name, Code::NoTurn, at)
            }
        }
    }

    /// At its value a turn is finished, and its actor is free.
    pub(crate) fn finish_turn(
        &mut self,
        alloc: Global,
        name: &Name,
        moved: Machine,
        value: Value,
        actor: &Name,
    ) -> Result<Given, AllocError>
        requires stands { Stands (shared_of self.old) }
        requires unit { IsUnitOf (shared_of self.old) name.now moved }
        ensures { FinishesOr (shared_of self.old) name.now value actor.now (shared_of self.new) result }
    {
        let freed = self.freed(name, actor)?;
        let made = self.made_of(name);
        self.make_room()?;
        let marks = marks_of(alloc, name)?;
        free(&mut self.units, &self.mails, actor, freed);
        move_to(&mut self.units, name, moved, made, Mark::Finished(value));
        append(&mut self.history, marks.entry);
        Ok(Given::Settled(marks.told))
    }

    /// The actor as it is after the turn. Where it does not rest, of which no run knows, it is taken for want of memory.
    fn freed(&self, name: &Name, actor: &Name) -> Result<ActorState, AllocError>
        ensures { IfOk result (IsFreed (shared_of self.now) name.now actor.now) }
    {
        match self.units.piece(actor) {
            Some(Piece::Actor(found)) => self.freed_from(name, actor, found),
            _ => Err(AllocError),
        }
    }

    /// The actor, which is found under that name, as it is after the turn.
    fn freed_from(&self, name: &Name, actor: &Name, found: &Actor) -> Result<ActorState, AllocError>
        requires { piece_at self.now.units actor.now ≡ Some (pieces.Actor found.now) }
        ensures { IfOk result (IsFreed (shared_of self.now) name.now actor.now) }
    {
        check_rests(&found.mark)?;
        match self.units.unit(name) {
            Some(turn) => after_turn(&turn.becomes, &found.state),
            None => Err(AllocError),
        }
    }
}

/// An idle actor of that behaviour, by its number, and that state.
pub fn idle(behaviour: u32, state: Values) -> ActorState
    ensures { result ≡ row.idle behaviour state }
{
    ActorState {
        behaviour,
        state,
        turns: 0,
        busy: false,
    }
}

/// The actor after a turn: idle, and what it becomes where that is said.
fn after_turn(becomes: &Option<Becoming>, actor: &ActorState) -> Result<ActorState, AllocError>
    ensures { IfOk result (λ after. after ≡ row.after_turn (option_map becoming_of becomes.now) actor.now) }
{
    let (behaviour, state) = match becomes {
        Some(next) => (next.behaviour, next.state.copy()?),
        None => (actor.behaviour, actor.state.copy()?),
    };
    Ok(ActorState {
        behaviour,
        state,
        turns: actor.turns,
        busy: false,
    })
}

/// Adds an actor under the name, for which there is a place. It can begin a turn where it is idle and has mail. It takes no
/// memory.
pub fn add_actor(units: &mut Units, alloc: Global, mails: &Mails, name: &Name, actor: ActorState)
    requires none { piece_at units.old name.now ≡ None }
    requires place { HasPlace units.old name.now }
    ensures added { IsPutAt name.now (Some (actor_with actor (mail_at (held mails.now) name.now))) units.old units.new }
    ensures claims { SameClaims units.old units.new }
    ensures places { (other : Called) → HasPlace units.old other → HasPlace units.new other }
{
    match units.add_actor(alloc, name, actor) {
        Ok(()) => wake(units, mails, name),
        Err(_) => unreachable!(),
    }
}

/// An actor that rests has that state. It can begin a turn where it is idle and has mail. It takes no memory.
fn free(units: &mut Units, mails: &Mails, name: &Name, actor: ActorState)
    requires { RestsAt units.old name.now }
    ensures freed { IsPutAt name.now (Some (actor_with actor (mail_at (held mails.now) name.now))) units.old units.new }
    ensures claims { SameClaims units.old units.new }
    ensures places { (other : Called) → HasPlace units.old other → HasPlace units.new other }
{
    units.set_actor(name, actor);
    wake(units, mails, name);
}

/// An actor that rests can begin a turn where it is idle and has mail. It takes no memory.
fn wake(units: &mut Units, mails: &Mails, name: &Name)
    ensures woken { (actor : Acting) → piece_at units.old name.now ≡ Some (pieces.Actor (record { state = actor; mark = marks.Resting })) → IsPutAt name.now (Some (actor_with actor (mail_at (held mails.now) name.now))) units.old units.new }
    ensures claims { SameClaims units.old units.new }
    ensures places { (other : Called) → HasPlace units.old other → HasPlace units.new other }
{
    if mails.front(name).is_some() {
        rouse(units, name);
    }
}

/// An idle actor that rests can begin a turn, once it has mail; anything else stays as it is. It takes no memory.
pub fn rouse(units: &mut Units, name: &Name)
    ensures roused { IsPutAt name.now (option_map roused (piece_at units.old name.now)) units.old units.new }
    ensures claims { SameClaims units.old units.new }
    ensures places { (other : Called) → HasPlace units.old other → HasPlace units.new other }
{
    if can_rouse(units, name) {
        units.claims_are_tied();
        units.lent_are_ready();
        units.mark(name, Mark::Ready(Work::Begin));
    }
}

/// An idle actor that rests can begin a turn, once it has mail, unless a turn of it is begun; anything else stays as it is. It takes
/// no memory.
pub fn rouse_unless(units: &mut Units, begun: bool, name: &Name)
    ensures roused { IsPutAt name.now (roused_unless begun (piece_at units.old name.now)) units.old units.new }
    ensures claims { SameClaims units.old units.new }
    ensures places { (other : Called) → HasPlace units.old other → HasPlace units.new other }
{
    if !begun {
        rouse(units, name);
    }
}

/// How many messages are there of that sender that are not settled: one or none, as an actor takes one at a time. It
/// takes no memory.
pub fn count_taken(message: Option<&Message>, sender: &Name) -> usize
    ensures { result ≡ length (unsettled sender.now (one_or_none (option_copied message.entry))) }
{
    match message {
        Some(message) if *sender == message.sender && message.depends.is_some() => 1,
        _ => 0,
    }
}

/// Whether an idle actor stands there that rests.
fn can_rouse(units: &Units, name: &Name) -> bool
    ensures { result ≡ holds_at is_at_rest (piece_at units.now name.now) }
{
    match units.piece(name) {
        Some(Piece::Actor(actor)) => !actor.state.busy && rests(&actor.mark),
        _ => false,
    }
}

/// The mark says that the piece rests.
fn check_rests(mark: &Mark) -> Result<(), AllocError>
    ensures { OnOk result (mark.now ≡ marks.Resting) }
{
    match mark {
        Mark::Resting => Ok(()),
        Mark::Ready(_) | Mark::Waiting(_) | Mark::Finished(_) | Mark::Dropped => Err(AllocError),
    }
}

/// Whether a piece of that mark rests.
fn rests(mark: &Mark) -> bool
    ensures { result ≡ says_resting mark.now }
{
    match mark {
        Mark::Resting => true,
        Mark::Ready(_) | Mark::Waiting(_) | Mark::Finished(_) | Mark::Dropped => false,
    }
}
