ghost use Rattle.std.specs.Prelude.{◌≡◌, length, IfOk};

use crate::node::Node;
use crate::node_id::NodeId;
use crate::number::as_number;
use std::alloc::AllocError;
use value_core::{Place, Seq};

/// A node of a table, and its place in the source.
#[derive(Drop)]
pub struct Row {
    pub node: Node,
    pub at: Place,
}

/// The id of the next node of a table, and no memory where no number is left for it.
pub(crate) fn next_id(rows: &Seq<Row>) -> Result<NodeId, AllocError>
    ensures { IfOk result (λ id. id.index ≡ length rows.now) }
{
    Ok(NodeId {
        index: as_number(rows.items().len())?,
    })
}
