ghost use Rattle.std.specs.Prelude.{◌≡◌, IfOk};
ghost use Rattle.program_plan.specs.Applied.{applied as applied_of, fixed as fixed_of, sent as sent_of};

use crate::frame::Frame;
use core_syntax::{Node, NodeId, NodeIds};
use resolved_forms::Head;
use std::alloc::{AllocError, Global};
use value_core::Seq;

/// The node that the head makes of the parts with these ids.
pub(crate) fn applied(
    alloc: Global,
    frame: &Frame,
    head: Head,
    ids: NodeIds,
) -> Result<Node, AllocError>
    ensures { IfOk result (λ node. node ≡ applied_of frame.now head ids) }
{
    match head {
        Head::Vector => Ok(Node::Vector(ids)),
        Head::Map => Ok(Node::Map(ids)),
        Head::Do => Ok(Node::Do(ids)),
        Head::Op(op) => Ok(Node::Op(op, ids)),
        Head::Println => Ok(Node::Println(ids)),
        Head::Call(number) => {
            let hidden = frame.function_places(alloc, number)?;
            Ok(Node::Call(number, hidden, ids))
        }
        Head::Spawn(number) => {
            let hidden = frame.behaviour_places(alloc, number)?;
            Ok(Node::Spawn(number, hidden, ids))
        }
        Head::Become(number) => {
            let hidden = frame.behaviour_places(alloc, number)?;
            Ok(Node::Become(number, hidden, ids))
        }
        Head::Send => sent(alloc, ids.items()),
        Head::If
        | Head::Ref
        | Head::Deref
        | Head::RefSet
        | Head::Fork
        | Head::Join
        | Head::Dosync
        | Head::SelfActor => Ok(fixed(head, ids.items())),
    }
}

// A send to the first part.
fn sent(alloc: Global, ids: &[NodeId]) -> Result<Node, AllocError>
    ensures { IfOk result (λ node. node ≡ sent_of ids.now) }
{
    match ids {
        [receiver, message @ ..] => Ok(Node::Send(*receiver, Seq::from_slice(alloc, message)?)),
        [] => Ok(Node::Nil),
    }
}

// The node of a head that takes a fixed number of parts.
fn fixed(head: Head, ids: &[NodeId]) -> Node
    ensures { result ≡ fixed_of head ids.now }
{
    match (head, ids) {
        (Head::If, [condition, taken, other]) => Node::If(*condition, *taken, *other),
        (Head::RefSet, [cell, value]) => Node::RefSet(*cell, *value),
        (Head::Ref, [value]) => Node::Ref(*value),
        (Head::Deref, [cell]) => Node::Deref(*cell),
        (Head::Fork, [body]) => Node::Fork(*body),
        (Head::Join, [future]) => Node::Join(*future),
        (Head::Dosync, [body]) => Node::Dosync(*body),
        (Head::SelfActor, _) => Node::SelfActor,
        _ => Node::Nil,
    }
}
