use crate::node_id::NodeId;
use value_core::Seq;

/// A step of main: the node that it evaluates, and whether it binds the value as a global.
#[derive(Clone, Copy, Debug, PartialEq, Eq)]
pub struct Step {
    pub node: NodeId,
    pub binds: bool,
}

/// The steps of main, in their order.
pub type Steps = Seq<Step>;
