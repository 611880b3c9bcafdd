ghost use Rattle.std.specs.Prelude.{◌≡◌, ◌≤◌, ◌<◌, ◌↔◌, [], Some, IfOk, IsErr, length};
ghost use Rattle.world_io.specs.FailPlan.{first_plan};
ghost use Rattle.world_io.specs.MemSink.{Refuses, taken_count, sink_after};

use crate::counts::count_after_fault;
use crate::fail_plan::FailPlan;
use crate::files::CallList;
use crate::sink::{Failed, Sink};
use std::alloc::{AllocError, Global};
use std::marker::Model;

/// A sink in memory. It tells the bytes that it has taken, has room for so many, takes at most so many at a time, and
/// fails at the calls that it is told to fail at.
#[derive(Drop)]
pub struct MemSink {
    taken: Vec<u8>,
    at_most: usize,
    room: usize,
    plan: FailPlan,
    faults: u64,
}

impl Model for MemSink {
    ghost use Rattle.std.specs.Prelude.{◌≤◌};
    ghost use Rattle.std.specs.Vec.{vec_len, vec_capacity};
    ghost use Rattle.world_io.specs.MemSink.{SinkInMemory};

    ghost Value = { SinkInMemory };

    ghost view = { λ s. record { taken = s.taken.items; at_most = s.at_most; room = s.room; plan = s.plan; faults = s.faults } };

    ghost invariant = { λ s. (1 ≤ s.at_most) × (vec_len s.taken ≤ s.room) × (s.room ≤ vec_capacity s.taken) };
}

impl MemSink {
    /// A sink with room for `room` bytes, which takes at most `at_most` at a time, and of which the calls with these
    /// numbers, from 0, fail. It takes its memory here, and none later.
    pub fn new(
        alloc: Global,
        at_most: usize,
        room: usize,
        fails: CallList,
    ) -> Result<Self, AllocError>
        requires { 1 ≤ at_most }
        ensures { IfOk result (λ sink. sink ≡ record { taken = []; at_most = at_most; room = room; plan = first_plan fails; faults = 0 }) }
    {
        Ok(MemSink {
            taken: Vec::with_capacity(alloc, room)?,
            at_most,
            room,
            plan: FailPlan::new(fails),
            faults: 0,
        })
    }

    /// The bytes taken so far.
    pub fn taken(&self) -> &[u8]
        ensures { result.now ≡ self.now.taken }
    {
        self.taken.as_slice()
    }
}

impl Sink for MemSink {
    ghost seen = { λ s. record { taken = Some s.taken; faults = s.faults } };

    /// Takes as much of the piece as it may and as there is room for. `Failed` comes exactly at the calls listed, and
    /// where no room is left and the piece is not empty.
    fn write(&mut self, piece: &[u8]) -> Result<usize, Failed>
        ensures failed { IsErr result ↔ Refuses self.old piece.now }
        ensures takes { IfOk result (λ n. n ≡ taken_count self.old (length piece.now)) }
        ensures after { self.new ≡ sink_after self.old piece.now result }
        ensures within { IfOk result (λ n. n ≤ length piece.now) }
        ensures progress { IfOk result (λ n. 0 < length piece.now → 0 < n) }
        ensures later { self.old.faults ≤ self.new.faults }
    {
        let fails = self.plan.next_fails();
        let left = self.room - self.taken.len();
        if fails || (left == 0 && !piece.is_empty()) {
            self.faults = count_after_fault(self.faults);
            return Err(Failed);
        }
        let front = &piece[..piece.len().min(self.at_most.min(left))];
        self.taken.extend_from_slice(front).unwrap();
        Ok(front.len())
    }
}
