//! Shares.

ghost use Rattle.std.specs.Prelude.{◌≡◌, ◌⊎◌, ◌≤◌, ◌+◌, ◌*◌, ◌^◌, IfSome, IfNone};
ghost use Rattle.batches_report.specs.Share.{IsRoundedShare};

/// Returns the share of a part in tenths of a percent, rounded to the nearest one, and up from the
/// middle. Returns none if there is nothing to have a share of, or if a thousand times the part is
/// beyond 64 bits.
pub fn share_of(part: usize, entire: usize) -> Option<usize>
    ensures share { IfSome result (IsRoundedShare part entire) }
    ensures none { IfNone result ((entire ≡ 0) ⊎ (2 ^ 64 ≤ 1000 * part + entire)) }
{
    part.checked_mul(1_000)?
        .checked_add(entire / 2)?
        .checked_div(entire)
}
