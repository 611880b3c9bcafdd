ghost use Rattle.std.specs.Prelude.{◌≡◌, ◌/◌};
ghost use Rattle.program_maker.specs.Draws.{next_state};

use std::marker::Model;

/// Draws by chance, each the same at the same start. Contracts see the state from which the next draw comes.
#[derive(Drop)]
pub(crate) struct Draws {
    state: u64,
}

impl Model for Draws {
    ghost use Rattle.std.specs.Prelude.{ℕ, ◌<◌, ◌^◌};

    ghost Value = { ℕ };

    ghost view = { λ draws. draws.state };

    ghost invariant = { λ draws. draws.state < 2 ^ 32 };
}

impl Draws {
    /// The draws that start from this number.
    pub(crate) fn new(number: u32) -> Self
        ensures { result ≡ number }
    {
        Draws {
            state: u64::from(number),
        }
    }

    /// The next draw, from 0 to 32,767.
    pub(crate) fn draw(&mut self) -> u64
        ensures state { self.new ≡ next_state self.old }
        ensures drawn { result ≡ self.new / 65536 }
    {
        self.state = (self.state * 1_103_515_245 + 12_345) % 2_147_483_648;
        self.state / 65_536
    }
}
