ghost use Rattle.std.specs.Prelude.{◌≡◌};
ghost use Rattle.scope_check.specs.Heads.{start_head};

use resolved_forms::Head;

/// What is done with a behaviour.
#[derive(Clone, Copy, Debug, PartialEq, Eq)]
pub enum Start {
    Spawn,
    Become,
}

impl Start {
    /// The head for the behaviour with that number.
    pub fn head(self, number: u32) -> Head
        ensures { result ≡ start_head self number }
    {
        match self {
            Start::Spawn => Head::Spawn(number),
            Start::Become => Head::Become(number),
        }
    }
}
