// The entries of a tree, and their names, as lists.
ghost use Rattle.std.specs.Prelude.{◌≡◌, ◌∷◌, ◌++◌, [], OnOk};
ghost use Rattle.shared_map.specs.Names.{names_of};
ghost use Rattle.shared_map.specs.Trees.{node_items, pair_of, tree_items};

use crate::node::{Entry, Node};
use std::alloc::{AllocError, Global};
use std::sync::Arc;
use value_core::{Copied, Name};

/// Appends equal entries, in order.
#[cycle(push)]
pub(crate) fn push_all<V: Copied>(
    alloc: Global,
    entries: &mut Vec<(Name, V)>,
    tree: &Option<Arc<Node<V>>>,
) -> Result<(), AllocError>
    ensures { OnOk result (entries.new.items ≡ entries.old.items ++ tree_items tree.now) }
{
    match tree {
        Some(node) => push_node(alloc, entries, node),
        None => Ok(()),
    }
}

/// Appends the entries of the left side, that of the node, and those of the right side.
#[cycle(push)]
fn push_node<V: Copied>(
    alloc: Global,
    entries: &mut Vec<(Name, V)>,
    node: &Node<V>,
) -> Result<(), AllocError>
    ensures { OnOk result (entries.new.items ≡ entries.old.items ++ node_items node.now) }
{
    push_all(alloc, entries, &node.left)?;
    push_one(alloc, entries, &node.entry)?;
    push_all(alloc, entries, &node.right)
}

fn push_one<V: Copied>(
    alloc: Global,
    entries: &mut Vec<(Name, V)>,
    entry: &Arc<Entry<V>>,
) -> Result<(), AllocError>
    ensures { OnOk result (entries.new.items ≡ entries.old.items ++ pair_of entry.now ∷ []) }
{
    let value = entry.value.copied(alloc)?;
    let name = entry.name.copy(alloc)?;
    Ok(entries.push((name, value))?)
}

/// Appends the names of the entries, in order.
#[cycle(name)]
pub(crate) fn push_names<V: Drop>(
    alloc: Global,
    names: &mut Vec<Name>,
    tree: &Option<Arc<Node<V>>>,
) -> Result<(), AllocError>
    ensures { OnOk result (names.new.items ≡ names.old.items ++ names_of (tree_items tree.now)) }
{
    match tree {
        Some(node) => push_node_names(alloc, names, node),
        None => Ok(()),
    }
}

/// Appends the names of the left side, that of the node, and those of the right side.
#[cycle(name)]
fn push_node_names<V: Drop>(
    alloc: Global,
    names: &mut Vec<Name>,
    node: &Node<V>,
) -> Result<(), AllocError>
    ensures { OnOk result (names.new.items ≡ names.old.items ++ names_of (node_items node.now)) }
{
    push_names(alloc, names, &node.left)?;
    names.push(node.entry.name.copy(alloc)?)?;
    push_names(alloc, names, &node.right)
}
