// Messages that are settled in the mail.
ghost use Rattle.std.specs.Prelude.{◌≡◌, ◌+◌, ◌<◌, ◌≤◌, not};
ghost use Rattle.actor_mails.specs.Mails.{held, mail_at, room_at, IsMailed, KeepsRoomBut};
ghost use Rattle.value_core.specs.Named.{same_name};
ghost use Rattle.world_model.specs.Message.{settle_or_put};
ghost use Rattle.world_model.specs.rows.Effects.{has_put};

use actor_mailbox::Message;
use actor_mails::Mails;
use value_core::Name;

/// The first message of the actor's mail that depends on the name is settled; where there is none, that one is the last, for which
/// there must be room. It is true where that one was put. No other actor has less room. It takes no memory.
pub fn settle_in(mails: &mut Mails, to: &Name, on: &Name, last: Message) -> bool
    requires { 0 < room_at mails.old to.now }
    ensures put { result ≡ not (has_put on.now (mail_at (held mails.old) to.now)) }
    ensures mail { IsMailed to.now (settle_or_put (same_name on.now) last (mail_at (held mails.old) to.now)) (held mails.old) (held mails.new) }
    ensures room { room_at mails.old to.now ≤ room_at mails.new to.now + 1 }
    ensures kept { KeepsRoomBut to.now mails.old mails.new }
{
    if mails.settle_first(to, on) {
        drop_message(last);
        false
    } else {
        mails.put(to, last);
        true
    }
}

/// Drops a message.
fn drop_message(_message: Message) {}
