ghost use Rattle.std.specs.Prelude.{◌≡◌, ◌<◌, true, ◌↔◌, [], ◌∷◌, ◌++◌, ℕ, List, Option, Some, None, IfOk, OnOk, OnErr, IfSome, IsSome, Ok, Err};
ghost use Rattle.std.specs.Arc.{arc_value};
ghost use Rattle.std.specs.Option.{option_copied};
ghost use Rattle.core_syntax.specs.WellFormed.{IsWellFormed};
ghost use Rattle.serial_model.specs.Replay.{IsOver};
ghost use Rattle.serial_model.specs.State.{Setup, State as Standing, opening};
ghost use Rattle.serial_model.specs.Step.{step};
ghost use Rattle.serial_model.specs.First.{first_of};
ghost use Rattle.serial_model.specs.declared.end.End.{End as Ending};
ghost use Rattle.serial_model.specs.declared.end.End.TheVariants as ends;
ghost use Rattle.serial_machine.specs.Now.{state_after, IsNow, IsStepped};
ghost use Rattle.serial_machine.specs.Progress.{state_of};
ghost use Rattle.serial_machine.specs.Standing.{end_seen, IsAdvanced};
ghost use Rattle.serial_units.specs.Units.{AreUnits};
ghost use Rattle.serial_machine.specs.declared.error.SerialNo.TheVariants as no;

use crate::error::SerialNo;
use crate::now::Now;
use actor_queues::Queues;
use core_syntax::Program;
use serial_model::{End, Entry, History, Limits};
use serial_units::Units;
use std::alloc::{AllocError, Global};
use std::collections::BTreeMap;
use std::marker::Model;
use std::sync::Arc;
use value_core::{Name, Values};

/// A run by one thread. Contracts see what is run and the entries so far, which replay to a state. After want of memory
/// it stays as it was, and every later call that takes memory finds none.
#[derive(Drop)]
pub struct Serial {
    program: Arc<Program>,
    limits: Limits,
    history: History,
    output: Vec<u8>,
    done: End,
    place: Option<Now>,
}

impl Model for Serial {
    ghost use Rattle.std.specs.Arc.{arc_value};
    ghost use Rattle.serial_machine.specs.Progress.{Progress, progress_code};
    ghost use Rattle.serial_machine.specs.Standing.{Stands};

    ghost Value = { Progress };

    ghost coded = { progress_code };

    ghost view = { λ s. record { setup = record { program = arc_value s.program; limits = s.limits }; history = s.history.items } };

    ghost invariant = { λ s. Stands (record { program = arc_value s.program; limits = s.limits }) s.history.items s.output.items s.done s.place };
}

impl Serial {
    /// The run of the program under these limits, before its first entry.
    pub fn new(alloc: Global, program: Arc<Program>, limits: Limits) -> Result<Self, AllocError>
        ensures setup { IfOk result (λ serial. serial.setup ≡ record { program = arc_value program; limits = limits }) }
        ensures history { IfOk result (λ serial. serial.history ≡ []) }
    {
        let now = Now::opening(alloc, &program, limits)?;
        Ok(Serial {
            program,
            limits,
            history: History::new(alloc),
            output: Vec::new(alloc),
            done: End::Done,
            place: Some(now),
        })
    }

    /// Does the entry, which is then the last one of the history. `NotEnabled` comes exactly where the meaning doesn't
    /// enable it. After a refusal all is as before.
    pub fn step(&mut self, alloc: Global, entry: &Entry) -> Result<(), SerialNo>
        ensures setup { self.new.setup ≡ self.old.setup }
        ensures stepped { OnOk result (self.new.history ≡ self.old.history ++ entry.now ∷ []) }
        ensures refused { OnErr result (self.new.history ≡ self.old.history) }
        ensures replays { IsSome (state_of self.new) }
        ensures not_enabled { result ≡ Err no.NotEnabled → IfSome (state_of self.old) (λ s. step self.old.setup s entry.now ≡ None) }
    {
        let Some(now) = &mut self.place else {
            return Err(SerialNo::Memory);
        };
        match advance(
            alloc,
            &self.program,
            self.limits,
            now,
            &mut self.history,
            &mut self.output,
            entry,
        ) {
            Ok(true) => Ok(()),
            Ok(false) => Err(SerialNo::NotEnabled),
            Err(_) => {
                forget(&mut self.place);
                Err(SerialNo::Memory)
            }
        }
    }

    /// The entry that one thread settles next, and `None` exactly where the run is over. While a unit is not finished, it
    /// is the `Run` of the first of these in after-order; else the `Take` of the first actor in after-order that has a
    /// message, of the first of its senders.
    pub fn first_enabled(&self, alloc: Global) -> Result<Option<Entry>, AllocError>
        ensures first { IfOk result (λ found. IfSome (state_of self.now) (λ s. found ≡ first_of s)) }
        ensures replays { IsSome (state_of self.now) }
    {
        match &self.place {
            Some(now) => now.first(alloc),
            None => Err(AllocError),
        }
    }

    /// The end that is set, or Done where nothing is enabled; `None` exactly where the run is not over. It takes no memory.
    pub fn end(&self) -> Option<&End>
        ensures over { IfSome (state_of self.now) (λ s. (end : Ending) → IsOver self.now.setup s end ↔ (option_copied result ≡ Some end)) }
        ensures first { IfSome (state_of self.now) (λ s. (option_copied result ≡ None) ↔ IsSome (first_of s)) }
        ensures replays { IsSome (state_of self.now) }
    {
        match &self.place {
            Some(now) => now.seen(&self.done),
            None => None,
        }
    }

    /// The entries so far.
    pub fn history(&self) -> &History
        ensures { result.now.items ≡ self.now.history }
    {
        &self.history
    }

    /// Gives up the run for its entries.
    pub fn into_history(self) -> History
        ensures { result.items ≡ self.history }
    {
        self.history
    }

    /// All bytes printed so far.
    pub fn output(&self) -> &[u8]
        ensures bytes { IfSome (state_of self.now) (λ s. result.now ≡ s.bytes) }
        ensures replays { IsSome (state_of self.now) }
    {
        self.output.as_slice()
    }
}

/// After want of memory the run is nowhere.
fn forget(now: &mut Option<Now>)
    ensures { now.new ≡ None }
{
    *now = None;
}

/// Does the entry, where it is enabled. For want of memory the entries and the bytes are as before.
fn advance(
    alloc: Global,
    program: &Program,
    limits: Limits,
    now: &mut Now,
    history: &mut History,
    output: &mut Vec<u8>,
    entry: &Entry,
) -> Result<bool, AllocError>
    requires well_formed { IsWellFormed program.now }
    requires units { AreUnits (record { program = program.now; limits = limits }) now.old.units }
    ensures advanced { IfOk result (λ done. (s : Standing) → IsNow (record { program = program.now; limits = limits }) output.old.items now.old s → now.old.text.items ≡ []
        → s.bytes ≡ output.old.items
        → IsAdvanced (record { program = program.now; limits = limits }) s entry.now history.old.items history.new.items output.old.items output.new.items now.new
        (step (record { program = program.now; limits = limits }) s entry.now) done) }
    ensures entries { OnErr result (history.new.items ≡ history.old.items) }
    ensures bytes { OnErr result (output.new.items ≡ output.old.items) }
    ensures going { OnErr result ((before : List ℕ) → IsSome (first_of (state_after before now.old))) }
{
    if now.is_over() {
        return Ok(false);
    }
    history.reserve(1)?;
    let copied = entry.copy(alloc)?;
    match enact(alloc, program, limits, now, entry) {
        Ok(true) => {
            let done = hand_out(now, history, output, copied)?;
            Ok(done)
        }
        Ok(false) => Ok(false),
        Err(error) => Err(error),
    }
}

/// Does what the entry says, where it is enabled.
fn enact(
    alloc: Global,
    program: &Program,
    limits: Limits,
    now: &mut Now,
    entry: &Entry,
) -> Result<bool, AllocError>
    requires well_formed { IsWellFormed program.now }
    requires units { AreUnits (record { program = program.now; limits = limits }) now.old.units }
    ensures { IfOk result (λ done. (before : List ℕ) (s : Standing) → IsNow (record { program = program.now; limits = limits }) before now.old s → s.end ≡ None
        → IsStepped (record { program = program.now; limits = limits }) before now.new s (step (record { program = program.now; limits = limits }) s entry.now) done) }
{
    match entry {
        Entry::Run(name) => now.run(alloc, program, limits, name),
        Entry::Take(actor, sender) => now.take(alloc, program, limits, actor, sender),
    }
}

/// Hands out the bytes that the entry printed, and keeps the entry.
fn hand_out(
    now: &mut Now,
    history: &mut History,
    output: &mut Vec<u8>,
    entry: Entry,
) -> Result<bool, AllocError>
    requires { 0 < history.old.room }
    ensures done { IfOk result (λ done. done ≡ true) }
    ensures entries { OnOk result (history.new.items ≡ history.old.items ++ entry ∷ []) }
    ensures bytes { OnOk result (output.new.items ≡ output.old.items ++ now.old.text.items) }
    ensures text { OnOk result (now.new.text.items ≡ []) }
    ensures at { OnOk result ((setup : Setup) (before : List ℕ) (s : Standing) → IsNow setup before now.old s → IsNow setup (before ++ now.old.text.items) now.new s) }
    ensures entries_stay { OnErr result (history.new.items ≡ history.old.items) }
    ensures bytes_stay { OnErr result (output.new.items ≡ output.old.items) }
{
    output.extend_from_slice(now.text.as_slice())?;
    now.text.clear();
    match history.push(entry) {
        Ok(()) => Ok(true),
        Err(error) => Err(error),
    }
}

impl Now {
    /// Main alone.
    fn opening(alloc: Global, program: &Program, limits: Limits) -> Result<Self, AllocError>
        ensures opening { IfOk result (λ now. IsNow (record { program = program.now; limits = limits }) [] now (opening (record { program = program.now; limits = limits }))) }
        ensures text { IfOk result (λ now. now.text.items ≡ []) }
        ensures well_formed { OnOk result (IsWellFormed program.now) }
    {
        let mut now = Now {
            refs: BTreeMap::new(alloc),
            units: Units::new(alloc),
            actors: BTreeMap::new(alloc),
            queues: Queues::new(alloc),
            text: Vec::new(alloc),
            made: 0,
            end: None,
        };
        let name = Name::main(alloc)?;
        let body = program.main();
        now.start(alloc, program, limits, name, None, body, Values::new(alloc))?;
        Ok(now)
    }

    /// The end, where the run has come to it; `done` is Done.
    fn seen<'a>(&'a self, done: &'a End) -> Option<&'a End>
        requires { done.now ≡ ends.Done }
        ensures { (before : List ℕ) → option_copied result ≡ end_seen (state_after before self.now) }
    {
        match &self.end {
            Some(end) => Some(end),
            None => { if self.is_over() { Some(done) } else { None } }
        }
    }
}
