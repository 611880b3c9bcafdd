ghost use Rattle.std.specs.Prelude.{◌≡◌, [], ◌∷◌, ◌++◌, IfOk, OnOk};
ghost use Rattle.value_core.specs.Name.{after_cmp};
ghost use Rattle.value_core.specs.Numbers.{numbers_in};

use crate::few::Few;
use crate::name::compare;
use std::alloc::{AllocError, Global};
use std::cmp::Ordering;

/// The numbers of a name. Up to four take no memory of their own.
#[derive(Debug, Drop)]
pub enum Numbers {
    Few(Few),
    Many(Vec<u32>),
}

impl Numbers {
    /// No number.
    pub fn new() -> Self
        ensures { numbers_in result ≡ [] }
    {
        Numbers::Few(Few::new())
    }

    /// The numbers in order.
    #[inline]
    pub fn as_slice(&self) -> &[u32]
        ensures { result.now ≡ numbers_in self.now }
    {
        match self {
            Numbers::Few(few) => few.as_slice(),
            Numbers::Many(many) => many.as_slice(),
        }
    }

    /// Equal numbers.
    pub fn copy(&self, alloc: Global) -> Result<Self, AllocError>
        ensures { IfOk result (λ numbers. numbers_in numbers ≡ numbers_in self.now) }
    {
        match self {
            Numbers::Few(few) => Ok(Numbers::Few(few.copy())),
            Numbers::Many(many) => Ok(Numbers::Many(Vec::from_slice(alloc, many.as_slice())?)),
        }
    }

    /// Appends the number, or finds no memory.
    pub fn push(&mut self, alloc: Global, number: u32) -> Result<(), AllocError>
        ensures { OnOk result (numbers_in self.new ≡ numbers_in self.old ++ number ∷ []) }
    {
        match self {
            Numbers::Few(few) => {
                if few.has_room() {
                    few.push(number);
                    return Ok(());
                }
                let many = one_more(alloc, few.as_slice(), number)?;
                *self = Numbers::Many(many);
                Ok(())
            }
            Numbers::Many(many) => {
                many.push(number)?;
                Ok(())
            }
        }
    }

    /// How these numbers stand to the others in after-order.
    #[inline]
    pub fn cmp_after(&self, other: &Numbers) -> Ordering
        ensures { result ≡ after_cmp (numbers_in self.now) (numbers_in other.now) }
    {
        match (self, other) {
            (Numbers::Few(left), Numbers::Few(right)) => left.cmp_after(right),
            _ => compare(self.as_slice(), other.as_slice()),
        }
    }
}

/// These numbers and one more.
fn one_more(alloc: Global, numbers: &[u32], number: u32) -> Result<Vec<u32>, AllocError>
    ensures { IfOk result (λ more. more.items ≡ numbers.now ++ number ∷ []) }
{
    let mut more = Vec::from_slice(alloc, numbers)?;
    more.push(number)?;
    Ok(more)
}
