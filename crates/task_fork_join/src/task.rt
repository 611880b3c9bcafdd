ghost use Rattle.std.specs.Prelude.{◌≡◌, OnErr, OnOk};
ghost use Rattle.std.specs.Option.{option_copied};
ghost use Rattle.task_fork_join.specs.Attempt.{machine_at};
ghost use Rattle.task_fork_join.specs.Closing.{next_join};
ghost use Rattle.task_fork_join.specs.Stepping.{HasActed};
ghost use Rattle.txn_snapshot.specs.SnapshotAnswer.{snapshot_of, IsAnswerable};

use crate::TaskEnd;
use crate::known::Known;
use eval_step::Machine;
use ref_store::Store;
use serial_model::Request;
use std::alloc::{AllocError, Global};
use txn_snapshot::{Answered, TaskLog};
use value_core::Value;

/// Where a task is: it goes on; it is at its value, and has joined some of its children; or it ended.
pub(crate) enum Stage {
    Going(Machine),
    Closing(Closing),
    Ended(TaskEnd),
}

impl Drop for Stage {
    fn drop(self) {
        match self {
            Stage::Going(_machine) => {}
            Stage::Closing(_closing) => {}
            Stage::Ended(_taskend) => {}
        }
    }
}

/// A task at its value: the machine that comes to that value, and the number of the thing that it made from which its joins go
/// on.
pub(crate) struct Closing {
    pub(crate) machine: Machine,
    pub(crate) value: Value,
    pub(crate) next: u32,
}

impl Drop for Closing {
    fn drop(self) {
        let Closing {
            machine: _machine,
            value: _value,
            next: _,
        } = self;
    }
}

impl Stage {
    /// The machine of a task that has not ended.
    pub(crate) fn machine(&self) -> Option<&Machine>
        ensures { option_copied result ≡ machine_at self.now }
    {
        match self {
            Stage::Going(machine) => Some(machine),
            Stage::Closing(closing) => Some(&closing.machine),
            Stage::Ended(_) => None,
        }
    }

    /// The number of the thing that the task made from which its joins at its value go on.
    pub(crate) fn next(&self) -> u32
        ensures { result ≡ next_join self.now }
    {
        match self {
            Stage::Going(_) => 0,
            Stage::Closing(closing) => closing.next,
            Stage::Ended(_) => 0,
        }
    }
}

/// A task of a tree: what it has done, the futures whose results it knows, and where it is.
pub(crate) struct Task {
    pub(crate) log: TaskLog,
    pub(crate) knows: Known,
    pub(crate) stage: Stage,
}

impl Drop for Task {
    fn drop(self) {
        let Task {
            log: _log,
            knows: _knows,
            stage: _stage,
        } = self;
    }
}

impl Task {
    /// It is there.
    pub(crate) fn go(&mut self, stage: Stage)
        ensures { self.new ≡ record self.old { stage = stage } }
    {
        self.stage = stage;
    }

    /// Its log answers the request, and it goes on with that machine, which was given the answer. For want of memory the task
    /// stays.
    pub(crate) fn act(
        &mut self,
        alloc: Global,
        machine: Machine,
        request: &Request,
        store: &Store,
        snapshot: u64,
    ) -> Result<(), AllocError>
        requires { IsAnswerable request.now }
        ensures acted { OnOk result (HasActed (snapshot_of store.now.versions snapshot) request.now machine self.old self.new) }
        ensures same { OnErr result (self.new ≡ self.old) }
    {
        match self.log.answer(alloc, request, store, snapshot) {
            Ok(answered) => {
                answer_goes(answered);
                self.stage = Stage::Going(machine);
                Ok(())
            }
            Err(error) => {
                machine_goes(machine);
                Err(error)
            }
        }
    }

    /// It has done this, knows these, and is there.
    pub(crate) fn set(&mut self, parts: Parts, stage: Stage)
        ensures { self.new ≡ record { log = parts.log; knows = parts.knows; stage = stage } }
    {
        self.log = parts.log;
        self.knows = parts.knows;
        self.stage = stage;
    }
}

/// What a task has done, and the futures whose results it knows.
#[derive(Drop)]
pub(crate) struct Parts {
    pub(crate) log: TaskLog,
    pub(crate) knows: Known,
}

/// Drops a machine.
pub(crate) fn machine_goes(_machine: Machine) {}

/// Drops an answer that was foreseen.
fn answer_goes(_answered: Answered) {}
