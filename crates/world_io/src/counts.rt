ghost use Rattle.std.specs.Prelude.{◌≡◌};
ghost use Rattle.world_io.specs.Counts.{raised};

/// The count after one fault more. At its last value it stays.
pub(crate) fn count_after_fault(count: u64) -> u64
    ensures { result ≡ raised count }
{
    count.saturating_add(1)
}
