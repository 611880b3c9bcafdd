ghost use Rattle.std.specs.Prelude.{◌≡◌, [], OnErr, OnOk, IfOk, is_some, option_copied};
ghost use Rattle.shared_map.specs.Names.{names_of};
ghost use Rattle.shared_map.specs.Trees.{tree_items};
ghost use Rattle.value_core.specs.Named.{Rises, named, over, with_named};

use crate::in_order::{push_all, push_names};
use crate::node::{Entry, Node, share};
use crate::putting::with_entry;
use std::alloc::{AllocError, Global};
use std::cmp::Ordering;
use std::marker::Model;
use std::sync::Arc;
use value_core::{Copied, Name};

/// A map by name whose copies share its entries: a copy takes no memory, and what is put takes a node for each step down to
/// its place. Contracts see the entries in after-order.
pub struct SharedMap<V> {
    alloc: Global,
    root: Option<Arc<Node<V>>>,
}

impl<V> Model for SharedMap<V> {
    ghost use Rattle.std.specs.Prelude.{ℕ};
    ghost use Rattle.std.specs.Coded.{coded×, coded_list, coded_ℕ};
    ghost use Rattle.shared_map.specs.Trees.{tree_items};
    ghost use Rattle.value_core.specs.Named.{Named, Rises};

    ghost Value = { Named V };

    ghost coded = { coded_list (coded× (coded_list coded_ℕ) V.code) };

    ghost view = { λ m. tree_items m.root };

    ghost invariant = { λ m. Rises (tree_items m.root) };
}

impl<V: Drop> SharedMap<V> {
    /// The empty map. It takes no memory.
    pub fn new(alloc: Global) -> Self
        ensures { result ≡ [] }
    {
        SharedMap { alloc, root: None }
    }

    /// An equal map, which shares the entries. It takes no memory, and fails only where there are too many copies to count.
    pub fn copy(&self) -> Result<Self, AllocError>
        ensures { IfOk result (λ copied. copied ≡ self.now) }
    {
        Ok(SharedMap {
            alloc: self.alloc,
            root: share(&self.root)?,
        })
    }

    /// Puts the value under the name. No other map that shares the entries changes. For want of memory the map stays.
    pub fn put(&mut self, name: Name, value: V) -> Result<(), AllocError>
        ensures put { OnOk result (self.new ≡ with_named self.old name value) }
        ensures same { OnErr result (self.new ≡ self.old) }
    {
        let entry = Arc::new(self.alloc, Entry { name, value }).map_err(|_| AllocError)?;
        let root = with_entry(self.alloc, &self.root, entry)?;
        self.root = Some(root);
        Ok(())
    }

    /// What stands under the name, where something does. It takes no memory.
    pub fn get(&self, name: &Name) -> Option<&V>
        ensures value { option_copied result ≡ named name.now self.now }
        ensures rises { Rises self.now }
    {
        found(&self.root, name)
    }

    /// Whether something stands under the name. It takes no memory.
    pub fn contains(&self, name: &Name) -> bool
        ensures { result ≡ is_some (named name.now self.now) }
    {
        self.get(name).is_some()
    }

    /// The names of the entries, in after-order.
    pub fn names(&self) -> Result<Vec<Name>, AllocError>
        ensures items { IfOk result (λ names. names.items ≡ names_of self.now) }
        ensures rises { Rises self.now }
    {
        let mut names = Vec::new(self.alloc);
        push_names(self.alloc, &mut names, &self.root)?;
        Ok(names)
    }
}

impl<V: Copied> SharedMap<V> {
    /// Equal entries, in after-order.
    pub fn entries(&self) -> Result<Vec<(Name, V)>, AllocError>
        ensures items { IfOk result (λ entries. entries.items ≡ self.now) }
        ensures rises { Rises self.now }
    {
        let mut entries = Vec::new(self.alloc);
        push_all(self.alloc, &mut entries, &self.root)?;
        Ok(entries)
    }

    /// Puts equal entries of the other map over those that are there. For want of memory the map stays.
    pub fn put_all(&mut self, more: &SharedMap<V>) -> Result<(), AllocError>
        ensures put { OnOk result (self.new ≡ over more.now self.old) }
        ensures same { OnErr result (self.new ≡ self.old) }
    {
        let mut both = self.copy()?;
        for (name, value) in more.entries()? {
            both.put(name, value)?;
        }
        *self = both;
        Ok(())
    }
}

impl<V: Drop> Drop for SharedMap<V> {
    fn drop(self) {
        let SharedMap {
            alloc: _,
            root: _root,
        } = self;
    }
}

/// What stands under the name in the tree.
fn found<'a, V: Drop>(tree: &'a Option<Arc<Node<V>>>, name: &Name) -> Option<&'a V>
    requires { Rises (tree_items tree.now) }
    ensures { option_copied result ≡ named name.now (tree_items tree.now) }
{
    let mut at = tree;
    while let Some(node) = at {
        match name.cmp_after(&node.entry.name) {
            Ordering::Less => at = &node.left,
            Ordering::Equal => return Some(&node.entry.value),
            Ordering::Greater => at = &node.right,
        }
    }
    None
}
