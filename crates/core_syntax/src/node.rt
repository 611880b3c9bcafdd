ghost use Rattle.std.specs.Prelude.{◌≡◌};
ghost use Rattle.core_syntax.specs.Limit.{counts};

use crate::node_id::{NodeId, NodeIds};
use crate::step::Steps;
use value_core::{Op, Seq, Text};

/// Places of a frame, from 0.
pub type Locals = Seq<u32>;

/// One expression of a program. A frame is the list of values that are bound where it is evaluated.
#[derive(Drop)]
pub enum Node {
    Nil,
    Bool(bool),
    Int(i64),
    Str(Text),
    Kw(Text),
    /// The value at that place of the frame.
    Local(u32),
    Vector(NodeIds),
    /// Keys and values, by turns.
    Map(NodeIds),
    /// Gives the last value, and nil where there is none.
    Do(NodeIds),
    /// The condition, then what is evaluated where it holds, and where it doesn't.
    If(NodeId, NodeId, NodeId),
    /// Each value is bound for the later ones and for the body, which comes last.
    Let(NodeIds, NodeId),
    /// A call of the function with that number: its hidden arguments, then the written ones.
    Call(u32, Locals, NodeIds),
    Op(Op, NodeIds),
    Println(NodeIds),
    Ref(NodeId),
    Deref(NodeId),
    /// The ref, then the value.
    RefSet(NodeId, NodeId),
    Fork(NodeId),
    Join(NodeId),
    Dosync(NodeId),
    /// An actor of the behaviour with that number: the hidden arguments, then the written ones.
    Spawn(u32, Locals, NodeIds),
    /// The behaviour with that number for later turns: the hidden arguments, then the written ones.
    Become(u32, Locals, NodeIds),
    /// The receiver, then the message.
    Send(NodeId, NodeIds),
    SelfActor,
    /// The body of a behaviour that takes so many values in all.
    Turn(u32, NodeId),
    /// What main does. It doesn't count towards the limit of nodes.
    Main(Steps),
}

impl Node {
    /// Whether the node counts towards the limit of nodes.
    pub(crate) fn counts(&self) -> bool
        ensures { result ≡ counts self.now }
    {
        !matches!(self, Node::Main(_))
    }
}
