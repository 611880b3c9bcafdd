use value_core::Seq;

/// A node of a table, by its position there, from 0.
#[derive(Clone, Copy, Debug, PartialEq, Eq)]
pub struct NodeId {
    pub index: u32,
}

/// The children of a node, in the order in which they are evaluated.
pub type NodeIds = Seq<NodeId>;
