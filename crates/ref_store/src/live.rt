ghost use Rattle.std.specs.Prelude.{◌≡◌, length};
ghost use Rattle.std.specs.List.Sorted.{IsNonDecreasing};
ghost use Rattle.ref_store.specs.Pruned.{has_between};

/// Numbers that are live, of which it can be asked whether one lies in a range.
pub trait Live {
    ghost use Rattle.std.specs.Prelude.{ℕ, List};

    ghost numbers: { Self → List ℕ };

    /// What must hold for that to be asked.
    ghost holds: { Self → Type 0 };

    /// How many there are. It takes no memory.
    fn count(&self) -> usize
        ensures { result ≡ length (numbers self.now) };

    /// Whether one of them is at or above the first bound and below the second. It takes no memory.
    fn any_between(&self, from: u64, to: u64) -> bool
        requires { holds self.now }
        ensures { result ≡ has_between from to (numbers self.now) };
}

/// Numbers in order.
#[derive(Drop)]
pub(crate) struct Sorted<'a> {
    pub(crate) numbers: &'a [u64],
}

impl Live for Sorted<'_> {
    ghost numbers = { λ s. s.numbers.now };

    ghost holds = { λ s. IsNonDecreasing s.numbers.now };

    fn count(&self) -> usize {
        self.numbers.len()
    }

    fn any_between(&self, from: u64, to: u64) -> bool {
        any_between(self.numbers, from, to)
    }
}

/// Whether one of the numbers is at or above the first bound and below the second.
fn any_between(numbers: &[u64], from: u64, to: u64) -> bool
    requires { IsNonDecreasing numbers.now }
    ensures { result ≡ has_between from to numbers.now }
{
    let first = numbers.partition_point(|number| *number < from);
    first < numbers.len() && numbers[first] < to
}
