ghost use Rattle.std.specs.Prelude.{◌≡◌, [], IfSome, None};
ghost use mathlib.Core.List.{IsPrefix};
ghost use Rattle.world_lock.specs.Known.{IsSeatOf};

use core_syntax::Program;
use interleave_core::World;
use serial_model::{Entry, Limits};
use std::alloc::Global;
use std::sync::Wait;
use world_lock::{Seat, WorldLock};

/// What a worker does between two of its holds. It is seen as a start, which it keeps; the history that it has used; and the
/// setup under which it used it, where it has one, which it keeps too.
pub trait Between {
    ghost use Rattle.std.specs.Prelude.{List, Option};
    ghost use Rattle.core_syntax.specs.Table.{Table};
    ghost use Rattle.serial_model.specs.Limits.{Budget};
    ghost use Rattle.serial_model.specs.declared.entry.Entry.{Entry};

    /// What it began with.
    type Start;

    ghost start: { Self → Self.Start };

    ghost used: { Self → List Entry };

    ghost under: { Self → Option (Table × Budget) };

    /// It may enter the lock by the seat. The seat that comes back is of the lock, has as many shares, and has seen at least
    /// what the given one had, and all that is used.
    fn after<R: Wait>(
        &mut self,
        rt: &R,
        alloc: Global,
        lock: &WorldLock<World>,
        seat: Seat<World>,
    ) -> Seat<World>
        requires of { IsSeatOf lock.now seat }
        requires under { IfSome (under self.old) (λ s. lock.now.setup ≡ s) }
        requires used { IsPrefix (used self.old) seat.seen }
        ensures of { IsSeatOf lock.now result }
        ensures shares { result.shares ≡ seat.shares }
        ensures seen { IsPrefix seat.seen result.seen }
        ensures start { start self.new ≡ start self.old }
        ensures under { under self.new ≡ under self.old }
        ensures used { IsPrefix (used self.new) result.seen };
}

/// It does nothing.
#[derive(Clone, Copy)]
pub struct NoBetween;

impl Between for NoBetween {
    type Start = ();

    ghost start = { λ _. tt };

    ghost used = { λ _. [] };

    ghost under = { λ _. None };

    fn after<R: Wait>(
        &mut self,
        _rt: &R,
        _alloc: Global,
        _lock: &WorldLock<World>,
        seat: Seat<World>,
    ) -> Seat<World> {
        seat
    }
}
