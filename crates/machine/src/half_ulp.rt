// Half an ulp of a number, by its size, and half the gap below a number. In integers: on floats a subnormal result is slow.
ghost use Rattle.std.specs.Prelude.{◌≡◌, true, ◌-◌, ◌^◌, ◌≤◌, ◌<◌};
ghost use Rattle.arith.specs.Formats.{is_finite};
ghost use Rattle.machine.specs.Floats.{machine, HalfUlp};

use crate::float::{format_at, size};

// Half an ulp of a number with a small exponent field: a subnormal one.
fn half_ulp_small(field: u64) -> u64
    requires { field < 64 }
    ensures { (field < 2 → result ≡ 0) × (2 ≤ field → result ≡ 2 ^ (field - 2)) }
{
    if field < 2 {
        return 0;
    }
    1 << (field - 2)
}

// Half an ulp of m.
pub(crate) fn half_ulp<const WIDE: bool>(m: u64) -> u64
    requires { m < (machine WIDE).sign }
    ensures { HalfUlp (machine WIDE) m result }
{
    let format = format_at::<WIDE>();
    let fraction = format.fraction;
    let field = m >> fraction;
    if field < fraction + 2 {
        return half_ulp_small(field);
    }
    (field - (fraction + 1)) << fraction
}

// Half the gap between a finite number and the one below it.
pub(crate) fn half_gap_below<const WIDE: bool>(q: u64) -> u64
    requires { is_finite (machine WIDE) q ≡ true }
    ensures { is_finite (machine WIDE) result ≡ true }
{
    let format = format_at::<WIDE>();
    let above = size::<WIDE>(q) + u64::from(q >= format.sign);
    if above == 0 {
        return 0;
    }
    half_ulp::<WIDE>(above - 1)
}
