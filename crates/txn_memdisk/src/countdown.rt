//! Which of the calls to come fail.
ghost use Rattle.std.specs.Prelude.{◌≡◌};
ghost use Rattle.txn_memdisk.specs.Countdown.{is_listed, counted_down};

/// Counts a call, and answers whether it is one of those that fail. Each number says how many calls it takes to come to
/// such a call.
pub fn fires(waits: &mut [u64]) -> bool
    ensures listed { result ≡ is_listed waits.old }
    ensures counted { waits.new ≡ counted_down waits.old }
{
    let listed = waits.contains(&1);
    for wait in waits.iter_mut() {
        *wait = wait.saturating_sub(1);
    }
    listed
}
