ghost use Rattle.std.specs.Prelude.{◌≡◌};
ghost use Rattle.scope_check.specs.Scope.{inner};

/// Where `recur` goes: the number of the function, and how many arguments are written.
#[derive(Clone, Copy, Debug, PartialEq, Eq)]
pub struct Target {
    pub number: u32,
    pub takes: u32,
}

/// Where an expression stands: in which loop or function, and whether in tail position there.
#[derive(Clone, Copy, Debug, PartialEq, Eq)]
pub struct Stand {
    pub target: Option<Target>,
    pub tail: bool,
}

impl Stand {
    /// The same loop or function, and no tail position.
    pub fn inner(self) -> Stand
        ensures { result ≡ inner self }
    {
        Stand {
            target: self.target,
            tail: false,
        }
    }
}
