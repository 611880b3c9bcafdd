ghost use Rattle.std.specs.Prelude.{◌≡◌, [], ◌∷◌, IfOk};

use core_syntax::{BuildNo, Builder, Node, NodeId, NodeIds, Program};
use std::alloc::{AllocError, Global};
use value_core::{Place, Seq};

/// (println 1)
pub(crate) const CHILD: u32 = 1;
/// (fork (println 1))
pub(crate) const FORKED: u32 = 2;
/// (join (fork (println 1)))
pub(crate) const JOINED: u32 = 3;
/// (do (fork (println 1)) 1)
pub(crate) const BOTH: u32 = 4;

fn one(alloc: Global, id: NodeId) -> Result<NodeIds, AllocError>
    ensures { IfOk result (λ ids. ids ≡ id ∷ []) }
{
    Seq::from_slice(alloc, [id].as_slice())
}

fn two(alloc: Global, first: NodeId, second: NodeId) -> Result<NodeIds, AllocError>
    ensures { IfOk result (λ ids. ids ≡ first ∷ second ∷ []) }
{
    Seq::from_slice(alloc, [first, second].as_slice())
}

/// A program with the nodes that the constants name, and a main of no steps.
pub(crate) fn sample(alloc: Global) -> Result<Program, BuildNo> {
    let at = Place::new(1, 1);
    let mut builder = Builder::new(alloc);
    let number = builder.push(Node::Int(1), at)?;
    let child = builder.push(Node::Println(one(alloc, number)?), at)?;
    let fork = builder.push(Node::Fork(child), at)?;
    builder.push(Node::Join(fork), at)?;
    builder.push(Node::Do(two(alloc, fork, number)?), at)?;
    Ok(builder.finish(Seq::new(alloc), Seq::new(alloc), 0, Seq::new(alloc))?)
}
