ghost use Rattle.std.specs.Prelude.{◌≡◌, ◌∷◌, ◌++◌, IfOk};
ghost use Rattle.shared_map.specs.Trees.{node_items, pair_of, tree_items};

use std::alloc::{AllocError, Global};
use std::sync::Arc;
use value_core::Name;

/// A name and what stands under it.
#[derive(Drop)]
pub(crate) struct Entry<V> {
    pub(crate) name: Name,
    pub(crate) value: V,
}

/// An entry between those before it and those after it, and the most nodes one above another from this one on.
#[derive(Drop)]
pub(crate) struct Node<V> {
    pub(crate) left: Option<Arc<Node<V>>>,
    pub(crate) entry: Arc<Entry<V>>,
    pub(crate) right: Option<Arc<Node<V>>>,
    height: u32,
}

/// The parts of a node, shared.
#[derive(Drop)]
pub(crate) struct Parts<V> {
    pub(crate) left: Option<Arc<Node<V>>>,
    pub(crate) entry: Arc<Entry<V>>,
    pub(crate) right: Option<Arc<Node<V>>>,
}

/// The same nodes, shared. It takes no memory, and fails only where there are too many copies to count.
pub(crate) fn share<V: Drop>(
    tree: &Option<Arc<Node<V>>>,
) -> Result<Option<Arc<Node<V>>>, AllocError>
    ensures { IfOk result (λ shared. tree_items shared ≡ tree_items tree.now) }
{
    match tree {
        Some(node) => Ok(Some(Arc::try_clone(node)?)),
        None => Ok(None),
    }
}

/// The parts of the node, shared.
pub(crate) fn parts_of<V: Drop>(node: &Node<V>) -> Result<Parts<V>, AllocError>
    ensures { IfOk result (λ parts. node_items node.now ≡ tree_items parts.left ++ pair_of parts.entry ∷ tree_items parts.right) }
{
    let left = share(&node.left)?;
    let right = share(&node.right)?;
    Ok(Parts {
        left,
        entry: Arc::try_clone(&node.entry)?,
        right,
    })
}

/// A node of these parts.
pub(crate) fn node_of<V: Drop>(
    alloc: Global,
    left: Option<Arc<Node<V>>>,
    entry: Arc<Entry<V>>,
    right: Option<Arc<Node<V>>>,
) -> Result<Arc<Node<V>>, AllocError>
    ensures { IfOk result (λ node. node_items node.value ≡ tree_items left ++ pair_of entry ∷ tree_items right) }
{
    let height = height_of(&left).max(height_of(&right)).saturating_add(1);
    Arc::new(
        alloc,
        Node {
            left,
            entry,
            right,
            height,
        },
    )
    .map_err(|_| AllocError)
}

/// The most nodes one above another.
pub(crate) fn height_of<V: Drop>(tree: &Option<Arc<Node<V>>>) -> u32 {
    match tree {
        Some(node) => node.height,
        None => 0,
    }
}
