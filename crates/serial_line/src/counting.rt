//! Counts calls on a line.
ghost use Rattle.std.specs.Prelude.{◌≡◌};
ghost use Rattle.serial_line.specs.Counts.{counted_if_none};

/// Counts a call that moved no octet (`count` is 0) though it could have (`could` isn't 0). The count
/// stops at `u64::MAX`.
pub fn count_if_none(calls: &mut u64, could: usize, count: usize)
    ensures { calls.new ≡ counted_if_none could count calls.old }
{
    if could > 0 && count == 0 {
        *calls = calls.saturating_add(1);
    }
}
