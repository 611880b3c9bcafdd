ghost use Rattle.std.specs.Prelude.{◌≡◌};
ghost use Rattle.scope_check.specs.Tails.{tail_at, part_stand};

use crate::stand::Stand;

/// How some parts stand side by side: which of them are in tail position where the whole is.
#[derive(Clone, Copy, Debug, PartialEq, Eq)]
pub enum Rule {
    /// None of them.
    Plain,
    /// The last one.
    Last,
    /// All but the first.
    Branches,
    /// Every second one.
    Results,
    /// The last one; and each binds a local without a name for those behind it.
    Chain,
}

impl Rule {
    /// Where a part stands, by its index from 0 and whether it is the last one.
    pub fn stand_of(self, index: usize, is_last: bool, stand: Stand) -> Stand
        ensures { result ≡ part_stand self index is_last stand }
    {
        Stand {
            target: stand.target,
            tail: stand.tail && self.is_tail(index, is_last),
        }
    }

    fn is_tail(self, index: usize, is_last: bool) -> bool
        ensures { result ≡ tail_at self index is_last }
    {
        match self {
            Rule::Plain => false,
            Rule::Last | Rule::Chain => is_last,
            Rule::Branches => index >= 1,
            Rule::Results => index % 2 == 1,
        }
    }
}
