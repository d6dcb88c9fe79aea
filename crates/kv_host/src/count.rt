//! A count of faults or calls, which stands still at the end of its type.
ghost use Rattle.std.specs.Prelude.{◌≡◌};
ghost use Rattle.kv_host.specs.Contents.{counted_up};

/// One more, or the same at 2^64 - 1.
pub(crate) fn counted_up(count: u64) -> u64
    ensures { result ≡ counted_up count }
{
    count.saturating_add(1)
}
