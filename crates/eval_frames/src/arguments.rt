ghost use Rattle.std.specs.Prelude.{◌≡◌, ◌<◌, [], ◌∷◌, ◌++◌, OnOk, IsSome};
ghost use Rattle.std.specs.List.{slice_get};
ghost use Rattle.serial_model.specs.Operation.{arguments as arguments_of};
ghost use Rattle.eval_frames.specs.Finish.{hidden_of};

use crate::frame::Frame;
use crate::values::push_locals;
use core_syntax::{Node, NodeId, NodeIds};
use std::alloc::{AllocError, Global};

/// The argument of the node with that number, from 0.
pub fn argument(node: &Node, number: usize) -> Option<NodeId>
    ensures value { result ≡ slice_get (arguments_of node.now) number }
    ensures small { IsSome result → number < usize.MAX }
{
    match node {
        Node::Vector(ids)
        | Node::Map(ids)
        | Node::Do(ids)
        | Node::Call(_, _, ids)
        | Node::Op(_, ids)
        | Node::Println(ids)
        | Node::Spawn(_, _, ids)
        | Node::Become(_, _, ids) => listed(ids.items(), number),
        Node::If(condition, taken, other) => listed(&[*condition, *taken, *other], number),
        Node::Let(bound, body) => listed_before(bound, *body, number),
        Node::Ref(id) | Node::Deref(id) | Node::Join(id) => listed(&[*id], number),
        Node::RefSet(cell, content) => listed(&[*cell, *content], number),
        Node::Send(receiver, message) => listed_behind(*receiver, message, number),
        _ => None,
    }
}

fn listed(ids: &[NodeId], number: usize) -> Option<NodeId>
    ensures value { result ≡ slice_get ids.now number }
    ensures small { IsSome result → number < usize.MAX }
{
    ids.get(number).copied()
}

// The node with that number, where the one follows the others.
fn listed_before(ids: &NodeIds, last: NodeId, number: usize) -> Option<NodeId>
    ensures value { result ≡ slice_get (ids.now ++ last ∷ []) number }
    ensures small { IsSome result → number < usize.MAX }
{
    let ids = ids.items();
    if number == ids.len() {
        return Some(last);
    }
    listed(ids, number)
}

// The node with that number, where the one precedes the others.
fn listed_behind(first: NodeId, ids: &NodeIds, number: usize) -> Option<NodeId>
    ensures value { result ≡ slice_get (first ∷ ids.now) number }
    ensures small { IsSome result → number < usize.MAX }
{
    if number == 0 {
        return Some(first);
    }
    listed(ids.items(), number - 1)
}

/// Appends the values that stand before the arguments of the node: the hidden arguments, which are taken from the frame.
pub fn push_hidden(
    alloc: Global,
    node: &Node,
    frame: &Frame,
    values: &mut Frame,
) -> Result<(), AllocError>
    ensures { OnOk result (values.new ≡ values.old ++ hidden_of frame.now node.now) }
{
    match node {
        Node::Call(_, places, _) | Node::Spawn(_, places, _) | Node::Become(_, places, _) => {
            push_locals(alloc, frame, places, values)
        }
        _ => Ok(()),
    }
}
