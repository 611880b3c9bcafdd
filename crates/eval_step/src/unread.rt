ghost use Rattle.std.specs.Prelude.{◌≡◌, ◌<◌, length, IsSome, IsSomeAnd, IfSome, IsTrue};
ghost use Rattle.core_syntax.specs.Table.{node_at};
ghost use Rattle.eval_step.specs.Unread.{ItemSpares, SparesBehind, SparesFrom, is_one_of, reads as reads_of};
ghost use Rattle.eval_step.specs.declared.item.Item.TheVariants as item;
ghost use Rattle.eval_step.specs.Walk.{ItemIn, ItemsIn};

use crate::context::Context;
use crate::item::Item;
use core_syntax::{Locals, Node, NodeId, Program};
use eval_frames::argument;

/// How many nodes are looked at, to find whether a place of the frame is read again.
const LOOKED_AT: u32 = 24;

/// How many items of the stack are looked at for that.
const ITEMS_LOOKED_AT: usize = 12;

impl Context {
    /// Whether it is found, with a look at a few nodes, that nothing on the stack reads that place of the frame.
    pub fn is_unread(&self, program: &Program, place: u32) -> bool
        requires { ItemsIn program.now self.now }
        ensures { IsTrue result → SparesBehind program.now place self.now.stack }
    {
        let mut left = LOOKED_AT;
        for depth in 0..ITEMS_LOOKED_AT {
            let Some(item) = self.stack.item(depth) else {
                return true;
            };
            if let Item::Back(_) = item {
                return true;
            }
            let Some(rest) = item_spares(program, item, place, left) else {
                return false;
            };
            left = rest;
        }
        false
    }
}

// Whether it is found that the stack does the same in frames that differ at most at the place with this item as without
// it, and how many of so many looks are left.
fn item_spares(program: &Program, item: &Item, place: u32, left: u32) -> Option<u32>
    requires { ItemIn (length program.now.nodes) item.now }
    ensures { IsSome result → ItemSpares program.now place item.now }
{
    match item {
        Item::Back(_) => Some(left),
        Item::Shrink(_) => Some(left),
        Item::Arguments(id, _, number) => spares(program, *id, *number, place, left),
        Item::Do(id, number) => spares(program, *id, *number, place, left),
        Item::Let(id, number) => bound_spares(program, *id, *number, place, left),
        Item::Choose(taken, other) => {
            let left = spares(program, *taken, 0, place, left)?;
            spares(program, *other, 0, place, left)
        }
        Item::Steps(_, _, _) => None,
    }
}

// The same of a let whose expressions from that number on are still to be evaluated.
fn bound_spares(program: &Program, id: NodeId, number: usize, place: u32, left: u32) -> Option<u32>
    requires { id.index < length program.now.nodes }
    ensures { IsSome result → ItemSpares program.now place (item.Let id number) }
{
    match program.node(id) {
        Node::Let(bound, _) if number <= bound.items().len() => spares(
            program, id, number, place, left,
        ),
        _ => None,
    }
}

// Whether it is found that neither the node itself reads the place, nor one of its arguments from that number on, and
// how many of so many looks are left.
fn spares(program: &Program, id: NodeId, from: usize, place: u32, looks: u32) -> Option<u32>
    requires { id.index < length program.now.nodes }
    ensures spares { IsSome result → IsSomeAnd (node_at program.now.nodes id) (SparesFrom program.now place from) }
    ensures fewer { IfSome result (λ rest. rest < looks) }
{
    let node = program.node(id);
    if looks == 0 || reads(node, place) {
        return None;
    }
    let mut left = looks - 1;
    let mut number = from;
    while let Some(child) = argument(node, number) {
        left = spares(program, child, 0, place, left)?;
        number += 1;
    }
    Some(left)
}

// Whether the operation of the node reads the place.
fn reads(node: &Node, place: u32) -> bool
    ensures { result ≡ reads_of place node.now }
{
    match node {
        Node::Local(other) => *other == place,
        Node::Call(_, places, _) | Node::Spawn(_, places, _) | Node::Become(_, places, _) => {
            is_one_of(places, place)
        }
        Node::Fork(_) | Node::Dosync(_) | Node::Turn(_, _) | Node::Main(_) => true,
        _ => false,
    }
}

fn is_one_of(places: &Locals, place: u32) -> bool
    ensures { result ≡ is_one_of place places.now }
{
    places.items().iter().any(|other| *other == place)
}
