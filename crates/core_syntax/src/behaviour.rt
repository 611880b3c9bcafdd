use crate::node_id::NodeId;
use value_core::{Place, Seq};

/// A behaviour: its place, how many hidden arguments, state parameters and message parameters it takes, and the node of
/// its body, which is a `Turn`.
#[derive(Clone, Copy, Debug, PartialEq, Eq)]
pub struct Behaviour {
    pub at: Place,
    pub hidden: u32,
    pub state: u32,
    pub message: u32,
    pub body: NodeId,
}

/// The behaviours of a program, by their numbers.
pub type Behaviours = Seq<Behaviour>;
