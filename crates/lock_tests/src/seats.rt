ghost use Rattle.std.specs.Prelude.{◌≡◌, ◌++◌, ◌∷◌, [], OnOk, OnErr};

use std::alloc::AllocError;
use std::process::Abort;
use std::sync::Wait;
use std::test::*;
use world_lock::{Grows, StillOut, WorldLock};

/// A list of numbers under a number that stays.
#[derive(Drop)]
struct Pile {
    setup: u32,
    items: Vec<u32>,
}

impl Grows for Pile {
    type Setup = u32;

    type Item = u32;

    ghost setup = { λ p. p.setup };

    ghost history = { λ p. p.items.items };
}

impl Pile {
    fn append(&mut self, number: u32) -> Result<(), AllocError>
        ensures setup { self.new.setup ≡ self.old.setup }
        ensures ok { OnOk result (self.new.items.items ≡ self.old.items.items ++ number ∷ []) }
        ensures err { OnErr result (self.new.items.items ≡ self.old.items.items) }
    {
        self.items.push(number)?;
        Ok(())
    }
}

/// An empty pile under the number 7.
fn empty_pile(rt: &HostRuntime) -> Pile {
    Pile {
        setup: 7,
        items: Vec::new(rt.alloc()),
    }
}

#[test]
fn a_seat_with_one_share_is_not_split_and_closes_the_lock(rt: HostRuntime) -> Result<(), Fail> {
    let (lock, seat) = WorldLock::new(rt.alloc(), empty_pile(&rt), 1)
        .ok()
        .ok_or("memory")?;
    let (seat, other) = lock.split(seat);
    assert!(rt; other.is_none());
    let mut turn = lock.enter(&rt, seat);
    let appended = turn.value().append(5);
    let seat = lock.leave(turn);
    appended?;
    let pile = lock.close(seat).ok().ok_or("no other seat is out")?;
    assert_eq!(rt; pile.setup, 7);
    assert_eq!(rt; pile.items.as_slice(), [5].as_slice());
    Ok(())
}

#[test]
fn a_lock_with_a_seat_out_comes_back_until_it_is_joined(rt: HostRuntime) -> Result<(), Fail> {
    let (lock, seat) = WorldLock::new(rt.alloc(), empty_pile(&rt), 2)
        .ok()
        .ok_or("memory")?;
    let (mine, theirs) = lock.split(seat);
    let theirs = theirs.ok_or("two shares are split")?;
    let (mine, third) = lock.split(mine);
    assert!(rt; third.is_none());
    let StillOut { lock, seat: mine } = lock.close(mine).err().ok_or("a seat is out")?;
    let mut turn = lock.enter(&rt, theirs);
    let appended = turn.value().append(6);
    let theirs = lock.leave(turn);
    appended?;
    let both = lock.join(mine, theirs);
    let pile = lock.close(both).ok().ok_or("no other seat is out")?;
    assert_eq!(rt; pile.items.as_slice(), [6].as_slice());
    Ok(())
}
