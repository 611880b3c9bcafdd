ghost use Rattle.std.specs.Prelude.{◌≡◌, ◌∷◌, ◌++◌, [], IfOk, OnErr, OnOk, fold, length};
ghost use Rattle.std.specs.Option.{option_copied};
ghost use Rattle.serial_model.specs.Log.{merged, new_log, with_effect, with_made as made_more, with_write, with_missing, is_held as held_in};
ghost use Rattle.serial_model.specs.declared.effect.Effect.{Effect as Effecting};
ghost use Rattle.serial_model.specs.declared.effect.What.TheVariants as what;
ghost use Rattle.serial_model.specs.Sends.{effects_to};
ghost use Rattle.task_log.specs.Logged.{mark_of, next_effect, CountsSends, HasMarks, HasMembers};
ghost use Rattle.value_core.specs.Named.{is_among, named, over, made_by, with_name, Rises};

use crate::SharedList;
use crate::send_counts::{count_of, count_send};
use crate::shared_list::{list_effects, list_names};
use serial_model::{Effect, What};
use shared_map::{SharedMap, SharedNames};
use std::alloc::{AllocError, Global};
use std::marker::Model;
use value_core::{Name, Value, Values};

/// What a task of a transaction has done so far. Copies share what they hold.
pub struct TaskLog {
    name: Name,
    writes: SharedMap<Value>,
    joined: SharedList<Name>,
    among_joined: SharedNames,
    made: u32,
    own: u32,
    effects: SharedList<Effect>,
    held: SharedNames,
    // How many of the effects send something to an actor, by its name.
    sends: SharedMap<usize>,
}

impl Drop for TaskLog {
    fn drop(self) {
        let TaskLog {
            name: _name,
            writes: _writes,
            joined: _joined,
            among_joined: _among_joined,
            made: _,
            own: _,
            effects: _effects,
            held: _held,
            sends: _sends,
        } = self;
    }
}

impl Model for TaskLog {
    ghost use Rattle.serial_model.specs.Log.{Log};
    ghost use Rattle.task_log.specs.Logged.{log_code, CountsSends, HasMarks, HasMembers};

    ghost Value = { Log };

    ghost coded = { log_code };

    ghost view = { λ l. record {
      name = l.name;
      writes = l.writes;
      joined = l.joined;
      made = l.made;
      own = l.own;
      effects = l.effects;
    } };

    ghost invariant = { λ l. HasMembers l.among_joined l.joined × HasMarks l.held l.effects × CountsSends l.sends l.effects };
}

impl TaskLog {
    /// The log of a task that has done nothing.
    pub fn new(alloc: Global, name: Name) -> Self
        ensures { result ≡ new_log name }
    {
        TaskLog {
            name,
            writes: SharedMap::new(alloc),
            joined: SharedList::new(alloc),
            among_joined: SharedNames::new(alloc),
            made: 0,
            own: 0,
            effects: SharedList::new(alloc),
            held: SharedNames::new(alloc),
            sends: SharedMap::new(alloc),
        }
    }

    /// An equal log, which shares what this one holds.
    pub fn copy(&self, alloc: Global) -> Result<Self, AllocError>
        ensures { IfOk result (λ copied. copied ≡ self.now) }
    {
        Ok(TaskLog {
            name: self.name.copy(alloc)?,
            writes: self.writes.copy()?,
            joined: self.joined.copy()?,
            among_joined: self.among_joined.copy()?,
            made: self.made,
            own: self.own,
            effects: self.effects.copy()?,
            held: self.held.copy()?,
            sends: self.sends.copy()?,
        })
    }

    /// The name of the next thing that the task makes.
    pub fn next_made(&self, alloc: Global) -> Result<Name, AllocError>
        ensures { IfOk result (λ name. name ≡ made_by self.now.name self.now.made) }
    {
        self.name.child(alloc, self.made)
    }

    /// The name of the thing that the task made with that number.
    pub fn made_at(&self, alloc: Global, number: u32) -> Result<Name, AllocError>
        ensures { IfOk result (λ name. name ≡ made_by self.now.name number) }
    {
        self.name.child(alloc, number)
    }

    /// How many things the task has made.
    pub fn made(&self) -> u32
        ensures { result ≡ self.now.made }
    {
        self.made
    }

    /// Counts one thing made, or answers want of memory at 4,294,967,295 of them; then the log stays.
    pub fn count_made(&mut self) -> Result<(), AllocError>
        ensures made { OnOk result (self.new ≡ made_more self.old) }
        ensures same { OnErr result (self.new ≡ self.old) }
    {
        self.made = self.made.checked_add(1).ok_or(AllocError)?;
        Ok(())
    }

    /// The value of the ref in the task's own writes.
    pub fn written(&self, name: &Name) -> Option<&Value>
        ensures value { option_copied result ≡ named name.now self.now.writes }
        ensures rises { Rises self.now.writes }
    {
        self.writes.get(name)
    }

    /// Writes the ref. For want of memory the log stays.
    pub fn write(&mut self, name: Name, value: Value) -> Result<(), AllocError>
        ensures written { OnOk result (self.new ≡ with_write self.old name value) }
        ensures same { OnErr result (self.new ≡ self.old) }
    {
        self.writes.put(name, value)
    }

    /// Adds an effect of the task itself. For want of memory the log stays.
    pub fn act(&mut self, alloc: Global, what: What) -> Result<(), AllocError>
        ensures acted { OnOk result (self.new ≡ with_effect self.old what) }
        ensures same { OnErr result (self.new ≡ self.old) }
    {
        let own = self.own.checked_add(1).ok_or(AllocError)?;
        self.append_own(alloc, what)?;
        self.own = own;
        Ok(())
    }

    /// Appends the task's next effect, which is not counted yet. For want of memory the log stays.
    fn append_own(&mut self, alloc: Global, what: What) -> Result<(), AllocError>
        ensures appended { OnOk result (self.new ≡ record self.old { effects = self.old.effects ++ next_effect self.old what ∷ [] }) }
        ensures same { OnErr result (self.new ≡ self.old) }
    {
        let effect = effect_of(alloc, &self.name, self.own, what)?;
        let mark = effect.task.child(alloc, effect.number)?;
        self.append(alloc, mark, effect)
    }

    /// Makes a ref of that value, the next thing that the task makes. For want of memory the log stays.
    pub(crate) fn make_ref(&mut self, alloc: Global, value: Value) -> Result<(), AllocError>
        ensures written { OnOk result (self.new ≡ made_more (with_write self.old (made_by self.old.name self.old.made) value)) }
        ensures same { OnErr result (self.new ≡ self.old) }
    {
        let name = self.next_made(alloc)?;
        let made = self.made.checked_add(1).ok_or(AllocError)?;
        self.write(name, value)?;
        self.made = made;
        Ok(())
    }

    /// Makes an actor of that behaviour and state, the next thing that the task makes. For want of memory the log stays.
    pub(crate) fn make_actor(
        &mut self,
        alloc: Global,
        behaviour: u32,
        state: Values,
    ) -> Result<(), AllocError>
        ensures spawned { OnOk result (self.new ≡ made_more (with_effect self.old (what.Spawn (made_by self.old.name self.old.made) behaviour state))) }
        ensures same { OnErr result (self.new ≡ self.old) }
    {
        let name = self.next_made(alloc)?;
        let made = self.made.checked_add(1).ok_or(AllocError)?;
        self.act(alloc, What::Spawn(name, behaviour, state))?;
        self.made = made;
        Ok(())
    }

    /// Appends an effect with its mark. For want of memory the log stays.
    fn append(&mut self, alloc: Global, mark: Name, effect: Effect) -> Result<(), AllocError>
        requires { mark ≡ mark_of effect }
        ensures appended { OnOk result (self.new ≡ record self.old { effects = self.old.effects ++ effect ∷ [] }) }
        ensures same { OnErr result (self.new ≡ self.old) }
    {
        let mut sends = self.sends.copy()?;
        count_send(alloc, &mut sends, &effect.what)?;
        append(&mut self.effects, &mut self.held, mark, effect)?;
        self.sends = sends;
        Ok(())
    }

    /// Whether the task has joined the future.
    pub fn has_joined(&self, future: &Name) -> bool
        ensures { result ≡ is_among future.now self.now.joined }
    {
        self.among_joined.contains(future)
    }

    /// Merges a child that is joined for the first time: its writes prevail, its effects that are not there yet are
    /// appended in order, and it counts as joined, with all that it has joined.
    pub fn merge(&mut self, alloc: Global, child: &TaskLog) -> Result<(), AllocError>
        ensures { OnOk result (self.new ≡ merged self.old child.now) }
    {
        self.merge_as(alloc, &child.name, child)
    }

    /// Merges the log of a child as that of the future.
    pub fn merge_as(
        &mut self,
        alloc: Global,
        future: &Name,
        child: &TaskLog,
    ) -> Result<(), AllocError>
        ensures { OnOk result (self.new ≡ merged self.old (record child.now { name = future.now })) }
    {
        self.take_writes(child)?;
        self.take_joined(alloc, future, child)?;
        self.take_effects(alloc, child)
    }

    fn take_writes(&mut self, child: &TaskLog) -> Result<(), AllocError>
        ensures { OnOk result (self.new ≡ record self.old { writes = over child.now.writes self.old.writes }) }
    {
        self.writes.put_all(&child.writes)
    }

    fn take_joined(
        &mut self,
        alloc: Global,
        future: &Name,
        child: &TaskLog,
    ) -> Result<(), AllocError>
        ensures { OnOk result (self.new ≡ record self.old { joined = fold with_name (with_name self.old.joined future.now) child.now.joined }) }
    {
        self.count_joined(alloc, future.copy(alloc)?)?;
        for name in list_names(alloc, &child.joined)? {
            self.count_joined(alloc, name)?;
        }
        Ok(())
    }

    fn count_joined(&mut self, alloc: Global, name: Name) -> Result<(), AllocError>
        ensures { OnOk result (self.new ≡ record self.old { joined = with_name self.old.joined name }) }
    {
        if self.has_joined(&name) {
            return Ok(());
        }
        let member = name.copy(alloc)?;
        append_name(&mut self.joined, &mut self.among_joined, member, name)
    }

    fn take_effects(&mut self, alloc: Global, child: &TaskLog) -> Result<(), AllocError>
        ensures { OnOk result (self.new ≡ record self.old { effects = fold with_missing self.old.effects child.now.effects }) }
    {
        for effect in list_effects(alloc, &child.effects)? {
            self.take_effect(alloc, effect)?;
        }
        Ok(())
    }

    fn take_effect(&mut self, alloc: Global, effect: Effect) -> Result<(), AllocError>
        ensures { OnOk result (self.new ≡ record self.old { effects = with_missing self.old.effects effect }) }
    {
        let mark = effect.task.child(alloc, effect.number)?;
        if self.holds(&mark) {
            return Ok(());
        }
        self.append(alloc, mark, effect)
    }

    /// Whether an effect with that mark is there.
    fn holds(&self, mark: &Name) -> bool
        ensures { (effect : Effecting) → mark.now ≡ mark_of effect → result ≡ held_in self.now.effects effect }
    {
        self.held.contains(mark)
    }

    /// The refs that the task wrote, and those that it joined, with their values. It takes no memory.
    pub fn writes(&self) -> &SharedMap<Value>
        ensures { result.now ≡ self.now.writes }
    {
        &self.writes
    }

    /// The effects in their order. It takes no memory.
    pub fn effects(&self) -> &SharedList<Effect>
        ensures { result.now ≡ self.now.effects }
    {
        &self.effects
    }

    /// How many of the effects send something to that actor. It takes no memory, and walks no effect.
    pub fn sends_to(&self, actor: &Name) -> usize
        ensures { result ≡ length (effects_to actor.now self.now.effects) }
    {
        count_of(&self.sends, actor)
    }
}

/// The effect of the task with that number.
fn effect_of(alloc: Global, task: &Name, number: u32, what: What) -> Result<Effect, AllocError>
    ensures { IfOk result (λ effect. effect ≡ record { task = task.now; number = number; what = what }) }
{
    let task = task.copy(alloc)?;
    Ok(Effect { task, number, what })
}

/// Appends an effect with its mark. For want of memory the effects stay.
fn append(
    effects: &mut SharedList<Effect>,
    held: &mut SharedNames,
    mark: Name,
    effect: Effect,
) -> Result<(), AllocError>
    requires mark { mark ≡ mark_of effect }
    requires held { HasMarks held.old effects.old }
    ensures appended { OnOk result (effects.new ≡ effects.old ++ effect ∷ []) }
    ensures same { OnErr result (effects.new ≡ effects.old) }
    ensures held { HasMarks held.new effects.new }
{
    let mut more = held.copy()?;
    more.add(mark)?;
    effects.push(effect)?;
    *held = more;
    Ok(())
}

/// Appends a name, which becomes a member. For want of memory the names stay.
fn append_name(
    names: &mut SharedList<Name>,
    members: &mut SharedNames,
    member: Name,
    name: Name,
) -> Result<(), AllocError>
    requires member { member ≡ name }
    requires members { HasMembers members.old names.old }
    ensures appended { OnOk result (names.new ≡ names.old ++ name ∷ []) }
    ensures same { OnErr result (names.new ≡ names.old) }
    ensures members { HasMembers members.new names.new }
{
    let mut more = members.copy()?;
    more.add(member)?;
    names.push(name)?;
    *members = more;
    Ok(())
}
