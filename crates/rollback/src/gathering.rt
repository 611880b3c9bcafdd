ghost use Rattle.std.specs.Prelude.{◌≡◌, ◌+◌, ◌<◌, ◌≤◌, drop, false, fold, length, take};
ghost use Rattle.rollback.specs.Dependants.{is_one_of as is_in};
ghost use Rattle.rollback.specs.Gathering.{directly, with_ticket, IsRoomFor};
ghost use Rattle.rollback.specs.Undone.{AreAppended};

use crate::link::Link;
use crate::links::Tickets;
use value_core::Ticket;

/// Appends each ticket that hangs on this one, directly or through others, once.
pub fn gather(links: &[Link], of: Ticket, out: &mut Tickets)
    requires { length links.now ≤ out.old.room }
    ensures appended { AreAppended links.now of out.old.items out.new.items }
    ensures room { out.old.room ≤ out.new.room + length links.now }
{
    let start = out.items().len();
    append_direct(links, of, start, out);
    let mut next = start;
    while next < out.items().len() {
        let on = out.items()[next];
        append_direct(links, on, start, out);
        next += 1;
    }
}

/// Appends each ticket that hangs on this one by a link and does not stand in the list from `start` on.
fn append_direct(links: &[Link], on: Ticket, start: usize, out: &mut Tickets)
    requires start { start ≤ length out.old.items }
    requires fits { IsRoomFor links.now (drop start out.old.items) out.old.room }
    ensures kept { take start out.new.items ≡ take start out.old.items }
    ensures start { start ≤ length out.new.items }
    ensures added { drop start out.new.items ≡ fold with_ticket (drop start out.old.items) (directly links.now on) }
    ensures fits { IsRoomFor links.now (drop start out.new.items) out.new.room }
    ensures room { out.old.room + length out.old.items ≤ out.new.room + length out.new.items }
{
    for link in links {
        if link.on == on {
            append_once(link.by, start, out);
        }
    }
}

/// Appends the ticket where it does not stand in the list from `start` on.
fn append_once(ticket: Ticket, start: usize, out: &mut Tickets)
    requires start { start ≤ length out.old.items }
    requires room { is_in ticket (drop start out.old.items) ≡ false → 0 < out.old.room }
    ensures kept { take start out.new.items ≡ take start out.old.items }
    ensures start { start ≤ length out.new.items }
    ensures added { drop start out.new.items ≡ with_ticket (drop start out.old.items) ticket }
    ensures room { out.old.room + length out.old.items ≤ out.new.room + length out.new.items }
{
    if !is_one_of(ticket, &out.items()[start..]) {
        let _ = out.push(ticket);
    }
}

/// Whether the ticket is one of these.
pub fn is_one_of(ticket: Ticket, tickets: &[Ticket]) -> bool
    ensures { result ≡ is_in ticket tickets.now }
{
    tickets.iter().any(|other| ticket == *other)
}
