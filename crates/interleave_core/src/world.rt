ghost use Rattle.std.specs.Prelude.{◌≡◌, ◌↔◌, IfOk, IsErrOf, IsOk, IsTrue, None, OnErr, OnOk, Some, false, true};
ghost use Rattle.std.specs.Arc.{arc_value};
ghost use Rattle.std.specs.Option.{option_copied};
ghost use Rattle.lent_pieces.specs.Back.{IsBack};
ghost use Rattle.lent_pieces.specs.Claims.{IsAbandoned, IsClaimOn, IsStale};
ghost use Rattle.lent_pieces.specs.Doomed.{IsToAbort};
ghost use Rattle.run_end.specs.Finishing.{IsFinished};
ghost use Rattle.run_end.specs.InTurn.{GoesInTurn};
ghost use Rattle.world_steps.specs.Kept.{IsSameBut};
ghost use Rattle.run_end.specs.Over.{IsIdle, IsOverWith, IsRunOver};
ghost use Rattle.interleave_core.specs.declared.error.ClaimNo.TheVariants as no;
ghost use Rattle.interleave_core.specs.Idle.{IsClaimOut};
ghost use Rattle.interleave_core.specs.declared.error.NamedNo.TheVariants as named;
ghost use Rattle.serial_model.specs.declared.end.End.{End as Ending};
ghost use Rattle.shared_world.specs.declared.given.Given.TheVariants as answers;
ghost use Rattle.shared_world.specs.Gave.{Gave};
ghost use Rattle.shared_world.specs.Later.{IsLater};
ghost use Rattle.shared_world.specs.Marks.{HasMarks};
ghost use Rattle.shared_world.specs.Opening.{IsOpening};
ghost use Rattle.shared_world.specs.Shared.{claimed, ready, ref_now};
ghost use Rattle.shared_world.specs.Stands.{Stands};
ghost use Rattle.unit_table.specs.Board.{actor_at};
ghost use Rattle.value_core.specs.declared.ticket.Ticket.{Ticket as Numbered};

use crate::claiming::{claim_any, claim_named, is_ready};
use crate::error::{ClaimNo, NamedNo, StepNo};
use core_syntax::Program;
use lent_pieces::{abandon, give};
use run_end::{end_by, finish};
use serial_model::{ActorState, End, History, Limits};
use shared_world::Given;
use std::alloc::{AllocError, Global};
use std::marker::Model;
use std::sync::Arc;
use value_core::{Name, Ticket, Value};
use world_claim::{Claim, Done};
use world_steps::Kept;

/// The world that the threads of a run share. Contracts see what it keeps: the history, the versions of refs, the pieces with
/// their marks and claims, the attempts, the bytes and the end. It always stands for the replay of its history, the mark of
/// each piece is right: something can be done with it unless it is finished or waits for what is still to come; and of each ref at
/// most one version more is kept than there are live snapshots, which are those of the attempts.
#[derive(Drop)]
pub struct World {
    kept: Kept,
    // The end of a run that ends by itself, so that it can be lent.
    done: End,
}

impl Model for World {
    ghost use Rattle.shared_world.specs.Shared.{Shared, shared_code};
    ghost use Rattle.world_steps.specs.Kept.{shared_of};
    ghost use Rattle.interleave_core.specs.Standing.{IsStanding};

    ghost Value = { Shared };

    ghost coded = { shared_code };

    ghost view = { λ w. shared_of w.kept };

    ghost invariant = { λ w. IsStanding (shared_of w.kept) w.done };
}

impl World {
    /// Main alone, of that program under these limits: nothing is in the history, and no claim is out.
    pub fn new(alloc: Global, program: Arc<Program>, limits: Limits) -> Result<Self, AllocError>
        ensures opens { IfOk result (λ world. IsOpening (record { program = arc_value program; limits = limits }) world) }
        ensures unclaimed { IfOk result (λ world. (ticket : Numbered) → claimed world ticket ≡ None) }
    {
        let kept = Kept::opening(alloc, program, limits)?;
        Ok(World {
            kept,
            done: End::Done,
        })
    }

    /// A claim on a piece that is ready, whichever it is. It lends the machine that is kept of the piece, under a ticket that was
    /// never given out, and changes nothing else. `Over` comes exactly where the run is over, that is where an end is set or no
    /// entry is enabled in the state that the history replays to; `Idle` exactly where it is not and nothing is ready, and then a
    /// claim is out. After a refusal nothing has changed.
    pub fn claim(&mut self, alloc: Global) -> Result<Claim, ClaimNo>
        ensures claim { IfOk result (λ claim. IsClaimOn claim.piece self.old claim self.new) }
        ensures ready { IfOk result (λ claim. ready self.old claim.piece ≡ true) }
        ensures over { IsErrOf result no.Over ↔ IsRunOver self.old }
        ensures idle { IsErrOf result no.Idle ↔ IsIdle self.old }
        ensures out { IsErrOf result no.Idle → IsClaimOut self.old }
        ensures same { OnErr result (IsSameBut self.old self.new) }
    {
        claim_any(&mut self.kept, alloc)
    }

    /// A claim on the piece of that name. `NotReady` comes exactly where the piece is not ready. After a refusal nothing has
    /// changed.
    pub fn claim_named(&mut self, alloc: Global, piece: &Name) -> Result<Claim, NamedNo>
        ensures claim { IfOk result (λ claim. IsClaimOn piece.now self.old claim self.new) }
        ensures not_ready { IsErrOf result named.NotReady ↔ (ready self.old piece.now ≡ false) }
        ensures same { OnErr result (IsSameBut self.old self.new) }
    {
        claim_named(&mut self.kept, alloc, piece)
    }

    /// What a result that is given back comes to, and what it changes. The result was run on the world's program. `Stale` comes
    /// exactly where its claim is out no more, or the machine or the work that it was lent are not the ones kept; then its piece is
    /// ready again, and nothing else changes. For want of memory the history, the refs, the bytes and the end are as before, its
    /// claim is out no more, and its piece is ready again. Where an attempt is to be undone by it, as its root has ended and a ref that
    /// it read has a version above its snapshot, it takes no memory, and succeeds.
    pub fn give(&mut self, alloc: Global, done: Done) -> Result<Given, StepNo>
        requires { done.program ≡ self.old.setup.program }
        ensures gave { IfOk result (λ found. Gave self.old done found self.new) }
        ensures stale { IfOk result (λ found. found ≡ answers.Stale → IsStale self.old done self.new) }
        ensures back { OnErr result (IsBack self.old done self.new) }
        ensures aborts { IsToAbort self.old done → IsOk result }
    {
        let parts = done.into_parts();
        Ok(give(&mut self.kept, alloc, parts)?)
    }

    /// The claim of that ticket is out no more, where it was, and its piece can be claimed again. Else nothing changes. It takes
    /// no memory.
    pub fn abandon(&mut self, ticket: Ticket)
        ensures { IsAbandoned ticket self.old self.new }
    {
        abandon(&mut self.kept, ticket);
    }

    /// Ends the run by one thread: every claim and every attempt ends, what ran ahead of the history goes back to where that left it, and
    /// then one entry after the other is settled, each in turn, until the run is over; it answers the end. In turn is the entry that one
    /// thread settles next: the unit goes that is first in after-order among those that are not finished, and where each is finished, the
    /// first actor with mail begins a turn, on a message of the first of its senders. Then no attempt is left, no claim is out, nothing is
    /// held, and no turn is begun that the history does not know. For want of memory the history has grown by whole entries, each in turn.
    pub fn finish(&mut self, alloc: Global) -> Result<End, AllocError>
        ensures finished { IfOk result (IsFinished self.new) }
        ensures later { IsLater self.old self.new }
        ensures in_turn { GoesInTurn self.old self.new }
    {
        finish(&mut self.kept, alloc)
    }

    /// The entries so far.
    pub fn history(&self) -> &History
        ensures { result.now.items ≡ self.now.history }
    {
        &self.kept.history
    }

    /// All bytes printed so far.
    pub fn output(&self) -> &[u8]
        ensures { result.now ≡ self.now.bytes }
    {
        self.kept.output.as_slice()
    }

    /// The end that is set, or Done where nothing is enabled in the state that the history replays to. None exactly where the run
    /// is not over. It takes no memory.
    pub fn end(&self) -> Option<&End>
        ensures { (end : Ending) → IsOverWith self.now end ↔ (option_copied result ≡ Some end) }
    {
        end_by(&self.kept, &self.done)
    }

    /// What the ref holds now. None exactly where it is not there. It takes no memory.
    pub fn ref_now(&self, name: &Name) -> Option<&Value>
        ensures { option_copied result ≡ ref_now self.now.versions name.now }
    {
        match self.kept.store.newest(name) {
            Some(version) => Some(&version.value),
            None => None,
        }
    }

    /// The state of the actor of that name. None exactly where there is none. It takes no memory.
    pub fn actor_now(&self, name: &Name) -> Option<&ActorState>
        ensures { option_copied result ≡ actor_at self.now.board name.now }
    {
        self.kept.units.actor(name)
    }

    /// Whether something can be done with the piece, and it is not lent. Once the run has ended nothing can. It takes no memory.
    pub fn is_ready(&self, piece: &Name) -> bool
        ensures { result ≡ ready self.now piece.now }
    {
        is_ready(&self.kept, piece)
    }

    /// The world stands for the replay of its history, and the mark of each piece is right. It does nothing.
    pub fn stands(&self)
        ensures stands { Stands self.now }
        ensures marks { HasMarks self.now }
    {
        let _done = &self.done;
    }

    /// Gives up the world for its entries.
    pub fn into_history(self) -> History
        ensures { result.items ≡ self.history }
    {
        let kept = self.kept;
        kept.history
    }
}
