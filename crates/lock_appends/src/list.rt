ghost use Rattle.std.specs.Prelude.{◌≡◌, ◌+◌, ◌<◌, ◌++◌, ◌∷◌, [], length, vec_len, OnOk, OnErr};

use std::alloc::{AllocError, Global};
use std::sync::ledger::{Book, Ledger, Share};
use world_lock::Grows;

/// A list of numbers under a number that stays. It grows by appending alone. Its book has one for each number in it, so
/// that the shares of all who append have as much together as the list is long.
#[derive(Drop)]
pub struct Numbers<L: Ledger + Send + Sync> {
    pub setup: u32,
    pub items: Vec<u32>,
    book: Book<L>,
    ghost counted: { vec_len items ≡ book.total },
}

/// The list after its lock is closed.
#[derive(Drop)]
pub struct Listed {
    pub setup: u32,
    pub items: Vec<u32>,
}

impl<L: Ledger + Send + Sync> Grows for Numbers<L> {
    type Setup = u32;

    type Item = u32;

    ghost setup = { λ n. n.setup };

    ghost history = { λ n. n.items.items };
}

impl<L: Ledger + Send + Sync> Numbers<L> {
    /// No numbers, under this one.
    pub fn new(alloc: Global, setup: u32, book: Book<L>) -> Numbers<L>
        requires { book.total ≡ 0 }
        ensures setup { result.setup ≡ setup }
        ensures empty { result.items.items ≡ [] }
    {
        Numbers {
            setup,
            items: Vec::new(alloc),
            book,
        }
    }

    /// Appends a number, which counts in that share. For want of memory the list and the share stay as they were.
    pub fn append(&mut self, share: &mut Share<L>, number: u32) -> Result<(), AllocError>
        requires { 0 < share.old.parts }
        ensures setup { self.new.setup ≡ self.old.setup }
        ensures ok { OnOk result (self.new.items.items ≡ self.old.items.items ++ number ∷ []) }
        ensures err { OnErr result (self.new.items.items ≡ self.old.items.items) }
        ensures once { OnOk result (share.new.amount ≡ share.old.amount + 1) }
        ensures none { OnErr result (share.new.amount ≡ share.old.amount) }
        ensures parts { share.new.parts ≡ share.old.parts }
    {
        let Numbers {
            setup: _,
            items,
            book,
        } = self;
        items.push(number)?;
        book.add(share, 1);
        Ok(())
    }

    /// The list, where this share is all that there is.
    pub fn listed(self, share: Share<L>) -> Listed
        requires { share.parts ≡ L.parts }
        ensures setup { result.setup ≡ self.setup }
        ensures items { result.items.items ≡ self.items.items }
        ensures length { length result.items.items ≡ share.amount }
    {
        let Numbers {
            setup,
            items,
            mut book,
        } = self;
        let mut all = share;
        book.audit(&mut all);
        Listed { setup, items }
    }
}
