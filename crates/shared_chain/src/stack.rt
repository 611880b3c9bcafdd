ghost use Rattle.std.specs.Prelude.{◌≡◌, ◌≤◌, length, [], ◌∷◌, ◌++◌, reverse, false, IfOk, OnOk, MatchOption};
ghost use Rattle.std.specs.List.{slice_get};
ghost use Rattle.std.specs.Option.{option_copied};
ghost use Rattle.shared_chain.specs.Chunks.{joined};
ghost use Rattle.shared_chain.specs.Links.{from_link};

use crate::chain::{Chain, Link};
use crate::chunk::{Chunk, copies};
use std::alloc::{AllocError, Global};
use std::marker::Model;
use std::mem;
use value_core::Copied;

/// How many items at most are kept apart from those that copies share.
const OWN: usize = 64;

/// How many of them are shared once there are so many.
const CHUNK: usize = 32;

/// A stack of which a copy copies a few items at its top, and shares all others. Contracts see the items, the last one
/// pushed first.
pub struct SharedStack<T> {
    alloc: Global,
    own: Vec<T>,
    below: Chain<Chunk<T>>,
}

impl<T> Model for SharedStack<T> {
    ghost use Rattle.std.specs.Prelude.{List, reverse, ◌++◌};
    ghost use Rattle.std.specs.Coded.{coded_list};
    ghost use Rattle.shared_chain.specs.Chunks.{joined};

    ghost Value = { List T };

    ghost coded = { coded_list T.code };

    ghost view = { λ s. reverse s.own.items ++ joined s.below };
}

impl<T: Drop> Drop for SharedStack<T> {
    fn drop(self) {
        let SharedStack {
            alloc: _,
            own: _own,
            below: _below,
        } = self;
    }
}

impl<T: Copied> SharedStack<T> {
    /// The empty stack. It takes no memory.
    pub fn new(alloc: Global) -> Self
        ensures { result ≡ [] }
    {
        SharedStack {
            alloc,
            own: Vec::new(alloc),
            below: Chain::new(alloc),
        }
    }

    /// An equal stack.
    pub fn copy(&self) -> Result<Self, AllocError>
        ensures { IfOk result (λ copied. copied ≡ self.now) }
    {
        Ok(SharedStack {
            alloc: self.alloc,
            own: copies(self.alloc, &self.own)?,
            below: self.below.copy()?,
        })
    }

    /// Puts the item before the others.
    pub fn push(&mut self, item: T) -> Result<(), AllocError>
        ensures { OnOk result (self.new ≡ item ∷ self.old) }
    {
        if self.own.len() >= OWN {
            share_lower(&mut self.own, &mut self.below)?;
        }
        self.own.push(item).map_err(|_| AllocError)
    }

    /// Sees to it that the first item lies apart from those that copies share, and says whether there is one. Where copies
    /// share it, that copies a few items.
    pub fn fetch(&mut self) -> Result<bool, AllocError>
        ensures same { OnOk result (self.new ≡ self.old) }
        ensures none { IfOk result (λ is_there. is_there ≡ false → self.new ≡ []) }
    {
        if !self.own.is_empty() {
            return Ok(true);
        }
        self.own = fetched(self.alloc, &mut self.below)?;
        Ok(!self.own.is_empty())
    }

    /// Takes the first item off where it lies apart from those that copies share, as after `fetch`. It takes no memory.
    pub fn pop(&mut self) -> Option<T>
        ensures { MatchOption result (self.new ≡ self.old) (λ item. self.old ≡ item ∷ self.new) }
    {
        self.own.pop()
    }

    /// The item that comes after so many others.
    pub fn item(&self, depth: usize) -> Option<&T>
        ensures { option_copied result ≡ slice_get self.now depth }
    {
        if depth < self.own.len() {
            return self.own.iter().rev().nth(depth);
        }
        shared_item(self.below.top(), depth - self.own.len())
    }
}

// Shares the lower ones of the items.
fn share_lower<T: Drop>(own: &mut Vec<T>, below: &mut Chain<Chunk<T>>) -> Result<(), AllocError>
    requires { 32 ≤ length own.old.items }
    ensures { OnOk result (reverse own.new.items ++ joined below.new ≡ reverse own.old.items ++ joined below.old) }
{
    let lower = lower_of(own)?;
    below.push(lower).map_err(|_| AllocError)
}

// Takes the lower ones of the items.
fn lower_of<T: Drop>(own: &mut Vec<T>) -> Result<Chunk<T>, AllocError>
    requires { 32 ≤ length own.old.items }
    ensures { IfOk result (λ lower. reverse own.new.items ++ lower ≡ reverse own.old.items) }
{
    let upper = own.split_off(CHUNK)?;
    let mut lower = mem::replace(own, upper);
    lower.shrink_to_fit();
    Ok(Chunk::of(lower))
}

// Takes the first items that there are off the shared ones.
fn fetched<T: Copied>(alloc: Global, below: &mut Chain<Chunk<T>>) -> Result<Vec<T>, AllocError>
    ensures same { IfOk result (λ own. reverse own.items ++ joined below.new ≡ joined below.old) }
    ensures all { IfOk result (λ own. own.items ≡ [] → below.new ≡ []) }
{
    while let Some(chunk) = below.pop()? {
        let items = chunk.into_items();
        if !items.is_empty() {
            return Ok(items);
        }
    }
    Ok(Vec::new(alloc))
}

// The item of the shared ones that comes after so many others.
fn shared_item<T: Drop>(top: Option<&Link<Chunk<T>>>, depth: usize) -> Option<&T>
    ensures { option_copied result ≡ slice_get (joined (from_link (option_copied top.entry))) depth }
{
    let mut top = top;
    let mut depth = depth;
    while let Some(link) = top {
        let (chunk, below) = link.parts();
        let items = chunk.items();
        if depth < items.len() {
            return items.iter().rev().nth(depth);
        }
        depth -= items.len();
        top = below;
    }
    None
}
