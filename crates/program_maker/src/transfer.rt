ghost use Rattle.std.specs.Prelude.{◌≡◌};
ghost use Rattle.program_maker.specs.Draws.{state_after};

use crate::draws::Draws;

/// A transfer of money: the teller who makes it, from 0, the places of the ref that pays and of the ref that is paid,
/// from 0, and how much it pays.
#[derive(Clone, Copy)]
pub(crate) struct Transfer {
    pub(crate) teller: u64,
    pub(crate) from: u64,
    pub(crate) to: u64,
    pub(crate) amount: u64,
}

impl Transfer {
    ghost use Rattle.program_maker.specs.MadeText.{transfer};

    /// The transfer that the next four draws choose.
    pub(crate) fn choose(draws: &mut Draws) -> Self
        ensures transfer { result ≡ transfer draws.old 0 }
        ensures state { draws.new ≡ state_after draws.old 4 }
    {
        Transfer {
            teller: draws.draw() % 8,
            from: draws.draw() % 100,
            to: draws.draw() % 100,
            amount: draws.draw() % 50 + 1,
        }
    }
}
