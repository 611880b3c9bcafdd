use core_syntax::NodeId;

/// Where a machine stands. What belongs to that is in its registers.
#[derive(Clone, Copy)]
pub enum At {
    /// Before its body.
    Begin(NodeId),
    /// Before a node.
    Enter(NodeId),
    /// Behind a node, whose value is in a register.
    Deliver,
    /// Before the argument of the node with that number. The values before it are in a register, the hidden ones first.
    Arguments(NodeId, usize),
    /// Where it stops, as a register says.
    Halted,
    /// Where memory was wanting.
    Failed,
}
