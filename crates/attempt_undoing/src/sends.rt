// What was sent is gone, from the mail and from what is taken.
ghost use Rattle.std.specs.Prelude.{◌≡◌, ◌∷◌, ◌||◌, [], MatchOption, None, Some, cond, is_some, reverse};
ghost use Rattle.std.specs.Option.{option_copied};
ghost use Rattle.actor_mails.specs.Mails.{held, mail_at};
ghost use Rattle.attempt_undoing.specs.Hanging.{depends_in, effect_receiver, effect_receivers, sends_on};
ghost use Rattle.attempt_undoing.specs.Sends.{mark_resting, marked_now, ActorsMarked, IsNewMark, IsRemarked, IsTakenLeft, SendsGone};
ghost use Rattle.shared_world.specs.rows.Actors.{actor_mark, has_turn};
ghost use Rattle.tentative_turn.specs.Sending.{listed, request_receivers};
ghost use Rattle.turns_ahead.specs.Leading.{ahead_of};
ghost use Rattle.unit_table.specs.Board.{piece_at};
ghost use Rattle.value_core.specs.Named.{named, same_name, Name as Called};
ghost use Rattle.value_core.specs.Placed.{filled};
ghost use Rattle.world_steps.specs.Kept.{shared_of};

use actor_mailbox::Message;
use serial_model::{Effect, What};
use task_log::SharedList;
use turns_ahead::TurnAhead;
use unit_table::{Actor, Mark, Piece, Work};
use value_core::{Name, Places};
use world_steps::Kept;

/// What the effects have sent under that name is gone, from the mail and from what is taken, and each actor has the mark that it has
/// without it. Only claims end on actors that are left without mail. It takes no memory.
pub(crate) fn drop_done(kept: &mut Kept, effects: &SharedList<Effect>, on: &Name)
    requires marks { ActorsMarked (shared_of kept.old) }
    ensures gone { SendsGone (sends_on on.now (effect_receivers (reverse effects.now))) (shared_of kept.old) (shared_of kept.new) }
    ensures others { kept.new ≡ record kept.old { units = kept.new.units; mails = kept.new.mails; taken = kept.new.taken } }
{
    let mut last = effects.last();
    while let Some(link) = last {
        let (effect, below) = link.parts();
        drop_to(kept, receiver_of(effect), on);
        last = below;
    }
}

/// The receiver of what the effect has sent, where it has sent something.
fn receiver_of(effect: &Effect) -> Option<&Name>
    ensures { listed (option_copied result) ≡ effect_receiver effect.now.what }
{
    match &effect.what {
        What::Send(to, _) => Some(to),
        _ => None,
    }
}

/// What the turn holds that is sent is gone, in the same way. It takes no memory.
pub(crate) fn drop_held(kept: &mut Kept, turn: &TurnAhead, name: &Name)
    requires marks { ActorsMarked (shared_of kept.old) }
    ensures gone { SendsGone (sends_on name.now (request_receivers (ahead_of turn.now).held)) (shared_of kept.old) (shared_of kept.new) }
    ensures others { kept.new ≡ record kept.old { units = kept.new.units; mails = kept.new.mails; taken = kept.new.taken } }
{
    for effect in turn.effects() {
        drop_to(kept, effect.receiver(), name);
    }
}

/// What was sent to that receiver under that name is gone, where there is one.
fn drop_to(kept: &mut Kept, receiver: Option<&Name>, on: &Name)
    requires marks { ActorsMarked (shared_of kept.old) }
    ensures gone { SendsGone (sends_on on.now (listed (option_copied receiver.entry))) (shared_of kept.old) (shared_of kept.new) }
    ensures others { kept.new ≡ record kept.old { units = kept.new.units; mails = kept.new.mails; taken = kept.new.taken } }
{
    if let Some(to) = receiver {
        drop_sent(kept, to, on);
    }
}

/// What was sent to that receiver under that name is gone.
fn drop_sent(kept: &mut Kept, to: &Name, on: &Name)
    requires marks { ActorsMarked (shared_of kept.old) }
    ensures gone { SendsGone (sends_on on.now (to.now ∷ [])) (shared_of kept.old) (shared_of kept.new) }
    ensures others { kept.new ≡ record kept.old { units = kept.new.units; mails = kept.new.mails; taken = kept.new.taken } }
{
    kept.units.lent_are_ready();
    kept.mails.drop_of(to, on);
    drop_taken(&mut kept.taken, to, on);
    mark_actor(kept, to);
}

/// What the actor has taken is gone where it depends on that name.
fn drop_taken(taken: &mut Places<Message>, to: &Name, on: &Name)
    ensures { IsTakenLeft to.now on.now (filled taken.old) (filled taken.new) }
{
    if has_taken(taken, to, on) {
        let _message = taken.take(to);
    }
}

/// Whether that actor has taken a message that depends on that name.
fn has_taken(taken: &Places<Message>, to: &Name, on: &Name) -> bool
    ensures { result ≡ depends_in on.now (named to.now (filled taken.now)) }
{
    match taken.get(to) {
        Some(message) => match &message.depends {
            Some(name) => on == name,
            None => false,
        },
        None => false,
    }
}

/// The actor has the mark that it has by what is taken of it, and by its mail. Where it has that already, the claim on it stays.
fn mark_actor(kept: &mut Kept, name: &Name)
    ensures marked { (n : Called) → piece_at kept.new.units n ≡ cond (same_name n name.now) (marked_now (shared_of kept.old) n (piece_at kept.old.units n)) (piece_at kept.old.units n) }
    ensures claims { IsRemarked name.now kept.old.units kept.new.units }
    ensures others { kept.new ≡ record kept.old { units = kept.new.units } }
{
    if let Some(mark) = new_mark(kept, name) {
        kept.units.mark(name, mark);
    }
}

/// The mark of the actor, where it is another one than it has.
fn new_mark(kept: &Kept, name: &Name) -> Option<Mark>
    ensures { IsNewMark (shared_of kept.now) name.now (piece_at kept.now.units name.now) result }
{
    match kept.units.piece(name) {
        Some(Piece::Actor(actor)) => other_mark(&actor.mark, must_rest(kept, name, actor)),
        _ => None,
    }
}

/// Whether the actor has a turn, or no mail.
fn must_rest(kept: &Kept, name: &Name, actor: &Actor) -> bool
    ensures { mark_resting result ≡ actor_mark (has_turn (filled kept.now.taken) name.now actor.now.state) (mail_at (held kept.now.mails) name.now) }
{
    actor.state.busy || kept.taken.get(name).is_some() || kept.mails.front(name).is_none()
}

/// The mark of an actor that rests or can begin a turn, where that is another one than this.
fn other_mark(mark: &Mark, rests: bool) -> Option<Mark>
    ensures { MatchOption result (mark.now ≡ mark_resting rests) (λ other. (other ≡ mark_resting rests) × (mark.now ≡ other → ⊥)) }
{
    match mark {
        Mark::Resting if rests => None,
        Mark::Ready(Work::Begin) if !rests => None,
        _ if rests => Some(Mark::Resting),
        _ => Some(Mark::Ready(Work::Begin)),
    }
}
