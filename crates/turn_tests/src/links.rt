ghost use Rattle.std.specs.Prelude.{◌≡◌, length, IfOk};

use rollback::{Links, Tickets};
use std::alloc::{AllocError, Global};
use std::test::Fail;
use value_core::Ticket;

fn ticket(slot: usize) -> Ticket {
    Ticket {
        slot,
        generation: 0,
    }
}

/// 2 and 4 hang on 1, 3 hangs on 2 and on 4, 6 hangs on 5, and 1 hangs on 0.
fn linked(alloc: Global) -> Result<Links, AllocError>
    ensures { IfOk result (λ links. length links.items ≡ 6) }
{
    let mut links = Links::new(alloc);
    links.reserve(6)?;
    for (on, by) in [(1, 2), (2, 3), (5, 6), (1, 4), (4, 3), (0, 1)] {
        links.add(ticket(on), ticket(by))?;
    }
    Ok(links)
}

/// The slots of the tickets in rising order, as a text.
fn slots(alloc: Global, tickets: &[Ticket]) -> Result<String, AllocError> {
    let mut slots = Vec::new(alloc);
    for ticket in tickets {
        slots.push(ticket.slot)?;
    }
    slots.sort()?;
    format!(in alloc; "{:?}", slots.as_slice())
}

fn hanging(alloc: Global, links: &Links, of: usize) -> Result<String, AllocError> {
    let tickets = links.dependants(alloc, ticket(of))?;
    slots(alloc, tickets.items())
}

#[test]
fn dependants_are_found_through_others(rt: HostRuntime) -> Result<(), Fail> {
    let alloc = rt.alloc();
    let links = linked(alloc)?;
    let rows = [
        (0, "[1, 2, 3, 4]"),
        (1, "[2, 3, 4]"),
        (2, "[3]"),
        (3, "[]"),
        (5, "[6]"),
        (7, "[]"),
    ];
    for (of, wanted) in rows {
        assert_eq!(rt; hanging(alloc, &links, of)?.as_str(), wanted);
    }
    Ok(())
}

#[test]
fn undone_tickets_are_forgotten(rt: HostRuntime) -> Result<(), Fail> {
    let alloc = rt.alloc();
    let mut links = linked(alloc)?;
    let mut out = Tickets::new(alloc);
    out.reserve(6)?;
    links.undo(ticket(1), &mut out);
    assert_eq!(rt; slots(alloc, out.items())?.as_str(), "[2, 3, 4]");
    for (of, wanted) in [(0, "[]"), (1, "[]"), (2, "[]"), (5, "[6]")] {
        assert_eq!(rt; hanging(alloc, &links, of)?.as_str(), wanted);
    }
    Ok(())
}
