ghost use Rattle.std.specs.Prelude.{◌≡◌, ◌↔◌, IsTrue};
ghost use Rattle.world_io.specs.FailPlan.{first_plan, plan_after, IsListed};

use crate::files::CallList;
use std::marker::Model;

/// Which calls of an object in memory fail. The calls are numbered from 0.
#[derive(Drop)]
pub struct FailPlan {
    fails: CallList,
    next: Option<u64>,
}

impl Model for FailPlan {
    ghost use Rattle.world_io.specs.FailPlan.{Plan};

    ghost Value = { Plan };

    ghost view = { λ p. record { fails = p.fails; next = p.next } };
}

impl FailPlan {
    /// The plan at the first call.
    pub fn new(fails: CallList) -> Self
        ensures { result ≡ first_plan fails }
    {
        FailPlan {
            fails,
            next: Some(0),
        }
    }

    /// Numbers a call, and answers whether it is to fail.
    pub fn next_fails(&mut self) -> bool
        ensures fails { IsTrue result ↔ IsListed self.old }
        ensures numbered { self.new ≡ plan_after self.old }
    {
        let Some(number) = self.next else {
            return false;
        };
        self.next = number.checked_add(1);
        self.fails.items().contains(&number)
    }
}
