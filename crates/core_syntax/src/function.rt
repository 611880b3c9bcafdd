use crate::node_id::NodeId;
use value_core::{Place, Seq};

/// A function: its place, how many arguments it takes, hidden and written, and the node of its body.
#[derive(Clone, Copy, Debug, PartialEq, Eq)]
pub struct Function {
    pub at: Place,
    pub takes: u32,
    pub body: NodeId,
}

/// The functions of a program, by their numbers.
pub type Functions = Seq<Function>;
