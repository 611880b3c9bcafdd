ghost use Rattle.std.specs.Prelude.{◌≡◌, ◌∷◌, ◌++◌, IfOk, length};
ghost use Rattle.shared_map.specs.Trees.{node_items, pair_of, tree_items};
ghost use Rattle.value_core.specs.Named.{Rises, with_named};

use crate::node::{Entry, Node, Parts, height_of, node_of, parts_of};
use std::alloc::{AllocError, Global};
use std::cmp::Ordering;
use std::sync::Arc;

/// The tree with that entry in its place. What stood under the name before is in the given tree alone.
#[cycle(put)]
pub(crate) fn with_entry<V: Drop>(
    alloc: Global,
    tree: &Option<Arc<Node<V>>>,
    entry: Arc<Entry<V>>,
) -> Result<Arc<Node<V>>, AllocError>
    requires { Rises (tree_items tree.now) }
    ensures { IfOk result (λ node. node_items node.value ≡ with_named (tree_items tree.now) (pair_of entry).0 (pair_of entry).1) }
{
    match tree {
        Some(node) => beside(alloc, node, entry),
        None => node_of(alloc, None, entry, None),
    }
}

/// The node with that entry in its place, among those before it, over it, or among those after it.
#[cycle(put)]
#[tactic(auto, using(crate::proofs::Entries::left_rises, crate::proofs::Entries::right_rises, crate::proofs::Entries::left_shorter, crate::proofs::Entries::right_shorter, crate::proofs::Entries::puts_left, crate::proofs::Entries::puts_here, crate::proofs::Entries::puts_right))]
fn beside<V: Drop>(
    alloc: Global,
    node: &Node<V>,
    entry: Arc<Entry<V>>,
) -> Result<Arc<Node<V>>, AllocError>
    requires { Rises (node_items node.now) }
    ensures { IfOk result (λ put. node_items put.value ≡ with_named (node_items node.now) (pair_of entry).0 (pair_of entry).1) }
{
    let parts = parts_of(node)?;
    match entry.name.cmp_after(&parts.entry.name) {
        Ordering::Less => {
            let left = with_entry(alloc, &parts.left, entry)?;
            balanced(alloc, Some(left), parts.entry, parts.right)
        }
        Ordering::Equal => node_of(alloc, parts.left, entry, parts.right),
        Ordering::Greater => {
            let right = with_entry(alloc, &parts.right, entry)?;
            balanced(alloc, parts.left, parts.entry, Some(right))
        }
    }
}

/// A node of these parts, which is turned where one side is higher than the other by more than one.
fn balanced<V: Drop>(
    alloc: Global,
    left: Option<Arc<Node<V>>>,
    entry: Arc<Entry<V>>,
    right: Option<Arc<Node<V>>>,
) -> Result<Arc<Node<V>>, AllocError>
    ensures { IfOk result (λ node. node_items node.value ≡ tree_items left ++ pair_of entry ∷ tree_items right) }
{
    if height_of(&left) > height_of(&right).saturating_add(1) {
        turned_right(alloc, left, entry, right)
    } else if height_of(&right) > height_of(&left).saturating_add(1) {
        turned_left(alloc, left, entry, right)
    } else {
        node_of(alloc, left, entry, right)
    }
}

/// The same entries, with a node of the left side at the top.
fn turned_right<V: Drop>(
    alloc: Global,
    left: Option<Arc<Node<V>>>,
    entry: Arc<Entry<V>>,
    right: Option<Arc<Node<V>>>,
) -> Result<Arc<Node<V>>, AllocError>
    ensures { IfOk result (λ node. node_items node.value ≡ tree_items left ++ pair_of entry ∷ tree_items right) }
{
    let Some(node) = &left else {
        return node_of(alloc, left, entry, right);
    };
    let first = parts_of(node)?;
    if height_of(&first.left) >= height_of(&first.right) {
        raise_left(alloc, first, entry, right)
    } else {
        raise_left_inner(alloc, first, entry, right)
    }
}

/// The left node at the top.
fn raise_left<V: Drop>(
    alloc: Global,
    first: Parts<V>,
    entry: Arc<Entry<V>>,
    right: Option<Arc<Node<V>>>,
) -> Result<Arc<Node<V>>, AllocError>
    ensures { IfOk result (λ node. node_items node.value ≡ (tree_items first.left ++ pair_of first.entry ∷ tree_items first.right) ++ pair_of entry ∷ tree_items right) }
{
    let lower = node_of(alloc, first.right, entry, right)?;
    node_of(alloc, first.left, first.entry, Some(lower))
}

/// The right one below the left node at the top.
fn raise_left_inner<V: Drop>(
    alloc: Global,
    first: Parts<V>,
    entry: Arc<Entry<V>>,
    right: Option<Arc<Node<V>>>,
) -> Result<Arc<Node<V>>, AllocError>
    ensures { IfOk result (λ node. node_items node.value ≡ (tree_items first.left ++ pair_of first.entry ∷ tree_items first.right) ++ pair_of entry ∷ tree_items right) }
{
    let Some(node) = &first.right else {
        return raise_left(alloc, first, entry, right);
    };
    let middle = parts_of(node)?;
    let lower = node_of(alloc, first.left, first.entry, middle.left)?;
    let upper = node_of(alloc, middle.right, entry, right)?;
    node_of(alloc, Some(lower), middle.entry, Some(upper))
}

/// The same entries, with a node of the right side at the top.
fn turned_left<V: Drop>(
    alloc: Global,
    left: Option<Arc<Node<V>>>,
    entry: Arc<Entry<V>>,
    right: Option<Arc<Node<V>>>,
) -> Result<Arc<Node<V>>, AllocError>
    ensures { IfOk result (λ node. node_items node.value ≡ tree_items left ++ pair_of entry ∷ tree_items right) }
{
    let Some(node) = &right else {
        return node_of(alloc, left, entry, right);
    };
    let last = parts_of(node)?;
    if height_of(&last.right) >= height_of(&last.left) {
        raise_right(alloc, left, entry, last)
    } else {
        raise_right_inner(alloc, left, entry, last)
    }
}

/// The right node at the top.
fn raise_right<V: Drop>(
    alloc: Global,
    left: Option<Arc<Node<V>>>,
    entry: Arc<Entry<V>>,
    last: Parts<V>,
) -> Result<Arc<Node<V>>, AllocError>
    ensures { IfOk result (λ node. node_items node.value ≡ tree_items left ++ pair_of entry ∷ (tree_items last.left ++ pair_of last.entry ∷ tree_items last.right)) }
{
    let lower = node_of(alloc, left, entry, last.left)?;
    node_of(alloc, Some(lower), last.entry, last.right)
}

/// The left one below the right node at the top.
fn raise_right_inner<V: Drop>(
    alloc: Global,
    left: Option<Arc<Node<V>>>,
    entry: Arc<Entry<V>>,
    last: Parts<V>,
) -> Result<Arc<Node<V>>, AllocError>
    ensures { IfOk result (λ node. node_items node.value ≡ tree_items left ++ pair_of entry ∷ (tree_items last.left ++ pair_of last.entry ∷ tree_items last.right)) }
{
    let Some(node) = &last.left else {
        return raise_right(alloc, left, entry, last);
    };
    let middle = parts_of(node)?;
    let lower = node_of(alloc, left, entry, middle.left)?;
    let upper = node_of(alloc, middle.right, last.entry, last.right)?;
    node_of(alloc, Some(lower), middle.entry, Some(upper))
}
