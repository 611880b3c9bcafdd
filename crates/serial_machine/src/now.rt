ghost use Rattle.std.specs.Prelude.{OnOk};
ghost use Rattle.serial_model.specs.declared.end.End.TheVariants as ends;
ghost use Rattle.serial_model.specs.State.{Setup};
ghost use Rattle.serial_model.specs.Step.{ended, with_unit};
ghost use Rattle.serial_machine.specs.Now.{Comes, Does};
ghost use Rattle.serial_units.specs.Units.{settled, AsksAt};

use actor_queues::Queues;
use serial_model::{ActorState, End};
use serial_units::{Becoming, Units};
use std::alloc::{AllocError, Global};
use std::collections::BTreeMap;
use value_core::{Code, Name, Place, Value};

/// Where a run is: refs, units, actors and queues by name, the bytes of this step, the number of units made, and the end,
/// where one is set.
#[derive(Drop)]
pub(crate) struct Now {
    pub(crate) refs: BTreeMap<Name, Value>,
    pub(crate) units: Units,
    pub(crate) actors: BTreeMap<Name, ActorState>,
    pub(crate) queues: Queues,
    pub(crate) text: Vec<u8>,
    pub(crate) made: u32,
    pub(crate) end: Option<End>,
}

impl Now {
    /// The run ends so.
    pub(crate) fn end_with(&mut self, end: End)
        ensures { (setup : Setup) → Comes setup self.old self.new (λ s. ended s end) }
    {
        self.end = Some(end);
    }

    /// A form of the unit fails.
    pub(crate) fn fail(
        &mut self,
        alloc: Global,
        name: &Name,
        code: Code,
        at: Place,
    ) -> Result<(), AllocError>
        ensures { OnOk result ((setup : Setup) → Comes setup self.old self.new (λ s. ended s (ends.Fault code at name.now))) }
    {
        let unit = name.copy(alloc)?;
        self.end_with(End::Fault { code, at, unit });
        Ok(())
    }

    /// The unit's fuel is spent.
    pub(crate) fn spend(&mut self, alloc: Global, name: &Name) -> Result<(), AllocError>
        ensures { OnOk result ((setup : Setup) → Comes setup self.old self.new (λ s. ended s (ends.Spent name.now))) }
    {
        let unit = name.copy(alloc)?;
        self.end_with(End::Spent { unit });
        Ok(())
    }

    /// The request of the unit is settled.
    pub(crate) fn reply(
        &mut self,
        alloc: Global,
        name: &Name,
        made: bool,
        becomes: Option<Becoming>,
        value: Value,
    ) -> Result<(), AllocError>
        requires { AsksAt name.now self.old.units }
        ensures { OnOk result ((setup : Setup) → Does setup name.now self.old self.new (λ s unit. with_unit s name.now (settled made becomes unit value))) }
    {
        self.units.settle(alloc, name, made, becomes, value)
    }
}
