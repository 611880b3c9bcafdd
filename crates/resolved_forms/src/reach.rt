ghost use Rattle.std.specs.Prelude.{◌≡◌, ◌<◌, [], length, not, replicate, All, IfOk};
ghost use Rattle.resolved_forms.specs.Reach.{AreReached, globals_named, units_named};
ghost use Rattle.resolved_forms.specs.Users.{ends_in, ending_in, AreUsers, Notes, Spreads};

use crate::uses::Uses;
use core_syntax::as_number;
use std::alloc::{AllocError, Global};
use value_core::Seq;
use value_core::lists::add;

/// The units that name each global, and those that name each unit.
#[derive(Drop)]
struct Users {
    of_globals: Vec<Seq<u32>>,
    of_units: Vec<Seq<u32>>,
}

/// For each unit the globals below `globals` that it reaches, in rising order.
pub fn reached(alloc: Global, uses: &Seq<Uses>, globals: u32) -> Result<Seq<Seq<u32>>, AllocError>
    ensures { IfOk result (AreReached uses.now globals) }
{
    let users = users_of(alloc, uses.items(), globals)?;
    let mut lists = empty_lists(alloc, uses.items().len())?;
    for global in 0..globals {
        let direct = users.of_globals[global as usize].items();
        spread(alloc, &mut lists, &users.of_units, direct, global)?;
    }
    to_seq(alloc, lists)
}

/// The users of each global and of each unit.
fn users_of(alloc: Global, uses: &[Uses], globals: u32) -> Result<Users, AllocError>
    ensures globals { IfOk result (λ users. AreUsers globals_named uses.now globals users.of_globals.items) }
    ensures units { IfOk result (λ users. AreUsers units_named uses.now (length uses.now) users.of_units.items) }
{
    let mut of_globals = empty_lists(alloc, globals as usize)?;
    let mut of_units = empty_lists(alloc, uses.len())?;
    for (unit, one) in uses.iter().enumerate() {
        let unit = as_number(unit)?;
        note(&mut of_globals, one.globals.items(), unit)?;
        note(&mut of_units, one.units.items(), unit)?;
    }
    Ok(Users {
        of_globals,
        of_units,
    })
}

/// That many lists, each empty.
fn empty_lists(alloc: Global, count: usize) -> Result<Vec<Seq<u32>>, AllocError>
    ensures { IfOk result (λ lists. lists.items ≡ replicate count []) }
{
    let mut lists = Vec::with_capacity(alloc, count)?;
    for _ in 0..count {
        lists.push(Seq::new(alloc)).map_err(|_| AllocError)?;
    }
    Ok(lists)
}

/// Notes the unit at each number that it names. A number that has no list is skipped.
fn note(users: &mut [Seq<u32>], named: &[u32], unit: u32) -> Result<(), AllocError>
    ensures { IfOk result (λ _. Notes users.old named.now unit users.new) }
{
    for number in named {
        let number = *number as usize;
        if number < users.len() {
            put_last(&mut users[number], unit)?;
        }
    }
    Ok(())
}

/// Puts the number at the end of the list, unless it stands there. Whether it was put.
fn put_last(list: &mut Seq<u32>, number: u32) -> Result<bool, AllocError>
    ensures whether { IfOk result (λ put. put ≡ not (ends_in list.old number)) }
    ensures after { IfOk result (λ _. list.new ≡ ending_in list.old number) }
{
    if list.items().last().copied() == Some(number) {
        return Ok(false);
    }
    add(list, number)?;
    Ok(true)
}

/// Puts the global at the end of the list of each unit that reaches it: of its users, of their callers, and so on.
fn spread(
    alloc: Global,
    lists: &mut [Seq<u32>],
    callers: &[Seq<u32>],
    users: &[u32],
    global: u32,
) -> Result<(), AllocError>
    requires as_many { length callers.now ≡ length lists.old }
    requires callers { All (All (λ unit. unit < length lists.old)) callers.now }
    requires users { All (λ unit. unit < length lists.old) users.now }
    ensures { IfOk result (λ _. Spreads callers.now users.now global lists.old lists.new) }
{
    let mut waiting = Vec::from_slice(alloc, users)?;
    while let Some(unit) = waiting.pop() {
        let unit = unit as usize;
        if put_last(&mut lists[unit], global)? {
            waiting.extend_from_slice(callers[unit].items())?;
        }
    }
    Ok(())
}

/// The same lists in a list that can be handed out.
fn to_seq(alloc: Global, lists: Vec<Seq<u32>>) -> Result<Seq<Seq<u32>>, AllocError>
    ensures { IfOk result (λ seq. seq ≡ lists.items) }
{
    let mut seq = Seq::new(alloc);
    for list in lists {
        add(&mut seq, list)?;
    }
    Ok(seq)
}
