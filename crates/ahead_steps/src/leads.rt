// Whether a turn that runs ahead is definite.
ghost use Rattle.std.specs.Prelude.{◌≡◌, IfOk};
ghost use Rattle.std.specs.Option.{option_copied};
ghost use Rattle.ahead_steps.specs.Leads.{IsLead};
ghost use Rattle.shared_world.specs.rows.Leading as rows;
ghost use Rattle.turns_ahead.specs.Leading.{ahead_of};
ghost use Rattle.value_core.specs.Placed.{filled};
ghost use Rattle.world_steps.specs.Kept.{shared_of};

use actor_mailbox::Message;
use std::alloc::AllocError;
use turns_ahead::TurnAhead;
use unit_table::{Mark, Work};
use value_core::name_map::find;
use value_core::{Name, Places};
use world_steps::Kept;

/// Whether the turn is definite. One that does not run ahead, of which no run knows, is taken for want of memory.
pub fn check_definite(kept: &Kept, name: &Name) -> Result<bool, AllocError>
    ensures { IfOk result (IsLead (shared_of kept.now) name.now) }
{
    match find(&kept.aheads, name) {
        Some(turn) => Ok(is_definite(&kept.taken, turn)),
        None => Err(AllocError),
    }
}

/// Whether the begin of the turn is not held, or the message that it took is settled.
fn is_definite(taken: &Places<Message>, turn: &TurnAhead) -> bool
    ensures { result ≡ rows.is_definite (filled taken.now) (ahead_of turn.now).takes }
{
    match turn.takes() {
        Some(actor) => is_settled(taken.get(actor)),
        None => true,
    }
}

/// Whether there is a message, and it is settled.
fn is_settled(message: Option<&Message>) -> bool
    ensures { result ≡ rows.is_settled (option_copied message.entry) }
{
    match message {
        Some(message) => message.depends.is_none(),
        None => false,
    }
}

/// The mark of a turn that holds something: a definite one settles that next, another one has the mark that is given.
pub(crate) fn mark_ahead(definite: bool, mark: Mark) -> Mark
    ensures { result ≡ rows.mark_ahead definite mark }
{
    if definite {
        mark_goes(mark);
        return Mark::Ready(Work::Settle);
    }
    mark
}

/// Drops a mark.
fn mark_goes(_mark: Mark) {}
