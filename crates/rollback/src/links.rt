ghost use Rattle.std.specs.Prelude.{◌≡◌, ◌+◌, ◌<◌, ◌≤◌, [], ◌∷◌, ◌++◌, length, IfOk, IsOk, OnErr, OnOk};
ghost use Rattle.std.specs.Vec.{vec_capacity, vec_len};
ghost use Rattle.rollback.specs.Dependants.{AreDependants};
ghost use Rattle.rollback.specs.Undone.{appended, without, AreAppended};

use crate::gathering::{gather, is_one_of};
use crate::link::Link;
use std::alloc::{AllocError, Global};
use std::marker::Model;
use value_core::{Reserved, Ticket};

/// A list of tickets.
pub type Tickets = Reserved<Ticket>;

/// Which tickets hang on which. Contracts see the links in the order in which they were added, with the room for more.
#[derive(Drop)]
pub struct Links {
    links: Vec<Link>,
}

impl Model for Links {
    ghost use Rattle.std.specs.Prelude.{◌-◌};
    ghost use Rattle.std.specs.Vec.{vec_capacity, vec_len};
    ghost use Rattle.value_core.specs.Roomy.{Roomy, roomy_code};
    ghost use Rattle.rollback.specs.contracts.link.Link as link;
    ghost use Rattle.rollback.specs.declared.link.Link.{Link as Linking};

    ghost Value = { Roomy Linking };

    ghost coded = { roomy_code (link.the_row).coded };

    ghost view = { λ l. record { items = l.links.items; room = vec_capacity l.links - vec_len l.links } };
}

impl Links {
    /// No links. It takes no memory.
    pub fn new(alloc: Global) -> Self
        ensures { result.items ≡ [] }
    {
        Links {
            links: Vec::new(alloc),
        }
    }

    /// Makes room for `more` further links, or finds no memory. The links stay, and the room does not shrink.
    pub fn reserve(&mut self, more: usize) -> Result<(), AllocError>
        ensures items { self.new.items ≡ self.old.items }
        ensures room { OnOk result (more ≤ self.new.room) }
        ensures kept { self.old.room ≤ self.new.room }
    {
        self.links.reserve(more)
    }

    /// Adds the link that `by` hangs on `on`. Where there is room it takes no memory, and succeeds. For want of memory the
    /// links stay.
    pub fn add(&mut self, on: Ticket, by: Ticket) -> Result<(), AllocError>
        ensures added { OnOk result (self.new.items ≡ self.old.items ++ (record { on = on; by = by }) ∷ []) }
        ensures same { OnErr result (self.new.items ≡ self.old.items) }
        ensures room { 0 < self.old.room → IsOk result × (self.old.room ≤ self.new.room + 1) }
    {
        match self.links.push(Link { on, by }) {
            Ok(()) => Ok(()),
            Err(_) => Err(AllocError),
        }
    }

    /// The tickets that hang on this one, directly or through others, each once.
    pub fn dependants(&self, alloc: Global, of: Ticket) -> Result<Tickets, AllocError>
        ensures { IfOk result (λ tickets. AreDependants self.now.items of tickets.items) }
    {
        let mut tickets = Tickets::new(alloc);
        tickets.reserve(self.links.len())?;
        gather(self.links.as_slice(), of, &mut tickets);
        Ok(tickets)
    }

    /// Appends each ticket that hangs on this one, directly or through others, once. The links by which these hang are
    /// forgotten, and so are those by which this one does. It takes no memory.
    pub fn undo(&mut self, of: Ticket, out: &mut Tickets)
        requires { length self.old.items ≤ out.old.room }
        ensures appended { AreAppended self.old.items of out.old.items out.new.items }
        ensures forgotten { self.new.items ≡ without (of ∷ appended out.old.items out.new.items) self.old.items }
        ensures room { self.old.room ≤ self.new.room }
        ensures out_room { out.old.room ≤ out.new.room + length self.old.items }
    {
        let start = out.items().len();
        gather(self.links.as_slice(), of, out);
        forget(&mut self.links, of, &out.items()[start..]);
    }
}

/// Forgets the links by which the first ticket or one of the others hangs.
fn forget(links: &mut Vec<Link>, first: Ticket, others: &[Ticket])
    ensures forgotten { links.new.items ≡ without (first ∷ others.now) links.old.items }
    ensures capacity { vec_capacity links.new ≡ vec_capacity links.old }
    ensures fewer { vec_len links.new ≤ vec_len links.old }
{
    links.retain(|link| !(link.by == first || is_one_of(link.by, others)));
}
