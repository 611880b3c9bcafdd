ghost use Rattle.std.specs.Prelude.{◌≡◌, ◌≤◌};
ghost use Rattle.worker_rounds.specs.declared.rounds.Went.TheVariants as rounds;

use crate::rounds::Went;
use std::thread::yield_now;

// At most so many times in a row a worker yields.
const MOST: u32 = 64;

/// Where a round found nothing to claim the thread yields its processor, twice as often as after the round before, which it
/// did so often after. Else it does not. It answers how often it did.
pub(crate) fn pause(went: Went, before: u32) -> u32
    ensures idle { result ≤ 64 }
    ensures others { (went ≡ rounds.Idle → ⊥) → result ≡ 0 }
{
    if went != Went::Idle {
        return 0;
    }
    let times = before.saturating_mul(2).clamp(1, MOST);
    for _ in 0..times {
        yield_now();
    }
    times
}
