ghost use Rattle.std.specs.Prelude.{◌≡◌, ◌<◌, length, drop, option_copied, [], ◌∷◌, IfOk, OnErr, MatchOption, MatchResult};
ghost use Rattle.shared_chain.specs.Links.{from_link, links, link_items};

use std::alloc::{AllocError, Global};
use std::marker::Model;
use std::mem;
use std::sync::Arc;
use value_core::Copied;

/// An item on top of others.
#[derive(Drop)]
pub struct Link<T> {
    item: T,
    below: Option<Arc<Link<T>>>,
}

/// A list that is taken and extended at its head, and whose copies share its items. Contracts see the items, the last one
/// pushed first.
pub struct Chain<T> {
    alloc: Global,
    top: Option<Arc<Link<T>>>,
}

impl<T> Model for Chain<T> {
    ghost use Rattle.std.specs.Prelude.{List};
    ghost use Rattle.std.specs.Coded.{coded_list};
    ghost use Rattle.shared_chain.specs.Links.{links};

    ghost Value = { List T };

    ghost coded = { coded_list T.code };

    ghost view = { λ a. links a.top };
}

impl<T> Link<T> {
    /// The item of the link, and the link below it.
    pub fn parts(&self) -> (&T, Option<&Link<T>>)
        ensures { link_items self.now ≡ result.0.now ∷ from_link (option_copied result.1) }
    {
        (&self.item, seen(&self.below))
    }
}

// The link at the top.
fn seen<T>(top: &Option<Arc<Link<T>>>) -> Option<&Link<T>>
    ensures { from_link (option_copied result) ≡ links top.now }
{
    match top {
        Some(link) => Some(link),
        None => None,
    }
}

// The same links, shared.
fn share<T>(top: &Option<Arc<Link<T>>>) -> Result<Option<Arc<Link<T>>>, AllocError>
    ensures { IfOk result (λ shared. links shared ≡ links top.now) }
{
    match top {
        Some(link) => Ok(Some(Arc::try_clone(link)?)),
        None => Ok(None),
    }
}

impl<T: Drop> Chain<T> {
    /// The empty list. It takes no memory.
    pub fn new(alloc: Global) -> Self
        ensures { result ≡ [] }
    {
        Chain { alloc, top: None }
    }

    /// An equal list, which shares the items. It takes no memory, and fails only where there are too many copies to
    /// count.
    pub fn copy(&self) -> Result<Self, AllocError>
        ensures { IfOk result (λ copied. copied ≡ self.now) }
    {
        Ok(Chain {
            alloc: self.alloc,
            top: share(&self.top)?,
        })
    }

    /// The link of the first item.
    pub fn top(&self) -> Option<&Link<T>>
        ensures { from_link (option_copied result) ≡ self.now }
    {
        seen(&self.top)
    }

    /// Puts the item before the others. For want of memory it hands the item back, and the list stays.
    pub fn push(&mut self, item: T) -> Result<(), T>
        ensures { MatchResult result (λ _. self.new ≡ item ∷ self.old) (λ back. (self.new ≡ self.old) × (back ≡ item)) }
    {
        let below = mem::replace(&mut self.top, None);
        match Arc::new(self.alloc, Link { item, below }) {
            Ok(link) => {
                self.top = Some(link);
                Ok(())
            }
            Err(refused) => {
                let Link { item, below } = refused.value;
                self.top = below;
                Err(item)
            }
        }
    }

    /// Puts the item in the place of the first one; where there is none it is the only one. For want of memory it hands
    /// the item back, and the list stays. No list that shares the items changes.
    pub fn set_first(&mut self, item: T) -> Result<(), T>
        ensures { MatchResult result (λ _. self.new ≡ item ∷ drop 1 self.old) (λ back. (self.new ≡ self.old) × (back ≡ item)) }
    {
        if self.owns_first() {
            return self.write_first(item);
        }
        self.replace_first(item)
    }

    // Whether no other list shares the first item.
    fn owns_first(&self) -> bool {
        match &self.top {
            Some(link) => Arc::strong_count(link) == 1,
            None => false,
        }
    }

    // Writes the item over the first one, where no other list shares that.
    fn write_first(&mut self, item: T) -> Result<(), T>
        ensures { MatchResult result (λ _. self.new ≡ item ∷ drop 1 self.old) (λ back. (self.new ≡ self.old) × (back ≡ item)) }
    {
        match &mut self.top {
            Some(link) => match Arc::get_mut(link) {
                Some(link) => {
                    link.item = item;
                    Ok(())
                }
                None => Err(item),
            },
            None => Err(item),
        }
    }

    // Puts the item on a new link over those below the first one.
    fn replace_first(&mut self, item: T) -> Result<(), T>
        ensures { MatchResult result (λ _. self.new ≡ item ∷ drop 1 self.old) (λ back. (self.new ≡ self.old) × (back ≡ item)) }
    {
        let Ok(below) = shared_rest(&self.top) else {
            return Err(item);
        };
        match Arc::new(self.alloc, Link { item, below }) {
            Ok(link) => {
                self.top = Some(link);
                Ok(())
            }
            Err(refused) => {
                let Link {
                    item,
                    below: _below,
                } = refused.value;
                Err(item)
            }
        }
    }
}

// The links below the first one, shared.
fn shared_rest<T>(top: &Option<Arc<Link<T>>>) -> Result<Option<Arc<Link<T>>>, AllocError>
    ensures { IfOk result (λ rest. links rest ≡ drop 1 (links top.now)) }
{
    match top {
        Some(link) => share(&link.below),
        None => Ok(None),
    }
}

impl<T: Copied> Chain<T> {
    /// Takes the first item off. Where another list shares it, that is a copy. For want of memory the list stays.
    pub fn pop(&mut self) -> Result<Option<T>, AllocError>
        ensures ok { IfOk result (λ item. MatchOption item ((self.old ≡ []) × (self.new ≡ [])) (λ item. self.old ≡ item ∷ self.new)) }
        ensures err { OnErr result (self.new ≡ self.old) }
    {
        match mem::replace(&mut self.top, None) {
            Some(link) => match Arc::try_unwrap(link) {
                Ok(Link { item, below }) => {
                    self.top = below;
                    Ok(Some(item))
                }
                Err(shared) => match copied_parts(self.alloc, &shared) {
                    Ok((item, below)) => {
                        drop_links(Some(shared));
                        self.top = below;
                        Ok(Some(item))
                    }
                    Err(error) => {
                        self.top = Some(shared);
                        Err(error)
                    }
                },
            },
            None => Ok(None),
        }
    }
}

// Equal parts of a link.
fn copied_parts<T: Copied>(
    alloc: Global,
    link: &Link<T>,
) -> Result<(T, Option<Arc<Link<T>>>), AllocError>
    ensures { IfOk result (λ parts. link_items link.now ≡ parts.0 ∷ links parts.1) }
{
    let item = link.item.copied(alloc)?;
    match share(&link.below) {
        Ok(below) => Ok((item, below)),
        Err(error) => Err(error),
    }
}

impl<T: Drop> Drop for Chain<T> {
    // Link by link, so that a long list takes no more of the thread's stack than a short one.
    fn drop(self) {
        let Chain { alloc: _, top } = self;
        drop_links(top);
    }
}

fn drop_links<T: Drop>(top: Option<Arc<Link<T>>>) {
    let mut top = top;
    while let Some(link) = top {
        top = under(link);
    }
}

// What is below the link, where this was its last owner.
fn under<T: Drop>(link: Arc<Link<T>>) -> Option<Arc<Link<T>>>
    ensures { length (links result) < length (link_items link.value) }
{
    match Arc::into_inner(link) {
        Some(inner) => below_of(inner),
        None => None,
    }
}

fn below_of<T: Drop>(link: Link<T>) -> Option<Arc<Link<T>>>
    ensures { length (links result) < length (link_items link) }
{
    let Link { item: _item, below } = link;
    below
}
