// The forward sum in the order of IEEE 754-2008: the exact sum, that sum rounded, the range test. `exact_sum`, `round_sum` and
// `range_test` are the steps, each after the functions that it uses; `add_signed` is the three together, and shift and narrowing
// add by it too; what rounding left over, `remainder` has from the first two. What each promises is said in specs/Steps. Rests on
// `words`, `format`, `pattern`, `refusal` and `remainder`.
ghost use Rattle.std.specs.Prelude.{◌≡◌, ◌+◌, ◌*◌, ◌^◌, ◌<◌, ◌≤◌};
ghost use Rattle.arith.specs.Formats.{Finite, ordinal, pattern, sum};
ghost use Rattle.arith.specs.Exacts.{parts_of, exact_of, Shaped, Roundable, joined_of, Scales, leading_of, kept_of, Fraction, Digits};
ghost use Rattle.arith.specs.Sums.{mark_number, mark_for, sum_answer, add_in};
ghost use Rattle.arith.specs.Steps.{FinitePattern, FiniteSigned, Summands, ordinal_at, Represents, Exactly, RoundsUnits, Rounds, RangeTested, IsSum};
ghost use Rattle.arith.specs.Additions.{GivesSum};

use crate::format::Format;
use crate::pattern::finite;
use crate::refusal::{Reason, Refusal};
use crate::remainder::left_over;
use crate::words::{digits, dropped, shift_left, shift_right, sticky};

// A float by its sign bit, at its weight where it is set and else 0, and m, its pattern without the sign bit.
#[derive(Clone, Copy)]
pub(crate) struct Signed {
    pub(crate) sign: u64,
    pub(crate) m: u64,
}

// significand * 2^shift units.
#[derive(Clone, Copy)]
pub(crate) struct Scaled {
    pub(crate) significand: u64,
    pub(crate) shift: u64,
}

// The size of an exact sum: larger * 2^gap with smaller added, or taken away where the signs are opposite, all times 2^shift units.
#[derive(Clone, Copy)]
pub(crate) struct Exact {
    pub(crate) opposite: bool,
    pub(crate) larger: u64,
    pub(crate) smaller: u64,
    pub(crate) gap: u64,
    pub(crate) shift: u64,
}

// An exact sum: its sign, as a float has it, and its size.
#[derive(Clone, Copy)]
pub(crate) struct ExactSum {
    pub(crate) sign: u64,
    pub(crate) size: Exact,
}

// A number of units rounded: its m, and whether nothing was lost.
#[derive(Clone, Copy)]
pub(crate) struct Rounded {
    pub(crate) m: u64,
    pub(crate) exact: bool,
}

// A number of units rounded, and the result taken apart.
#[derive(Clone, Copy)]
pub(crate) struct Rounding {
    pub(crate) result: Rounded,
    pub(crate) kept: Scaled,
}

// 01's mark, by its numbers: nothing was lost, or the sum is rounded, or rounded and smaller than the smallest normal.
#[derive(Clone, Copy, PartialEq, Eq)]
pub enum Mark {
    Exact = 0,
    Rounded = 1,
    Subnormal = 2,
}

// What the range test leaves: the sum with its mark, or that it overflows, to the infinity of its sign. An enum of its own, since
// an overflow is no error here: the narrowing goes on with the infinity.
#[derive(Clone, Copy)]
pub(crate) enum Tested {
    Finite { sum: Signed, mark: Mark },
    Overflow { infinity: Signed },
}

// A sum by its three steps.
#[derive(Clone, Copy)]
pub(crate) struct Addition {
    pub(crate) exact: ExactSum,
    pub(crate) rounding: Rounding,
    pub(crate) tested: Tested,
}

// The sum's pattern, its mark and the pattern of what rounding left over.
#[derive(Clone, Copy, PartialEq, Eq)]
pub struct Sum {
    pub pattern: u64,
    pub mark: Mark,
    pub remainder: u64,
}

// ---- step 1. Steps 1 and 2 take the number of fraction bits alone: no exponent is too large for them

// The value of m taken apart. The field above the fraction is the biased exponent; where it is 0 the float is subnormal, else
// m - (field - 1) * 2^fraction is the fraction with its hidden digit.
pub(crate) fn decode(fraction: u64, m: u64) -> Scaled
    requires { fraction ≤ 52 }
    ensures { result ≡ parts_of fraction m }
{
    let field = shift_right(m, fraction);
    let shift = if field == 0 { 0 } else { field - 1 };
    Scaled {
        significand: m - shift_left(shift, fraction),
        shift,
    }
}

// The size of the exact sum of two floats by their m and n, m no smaller than n.
pub(crate) fn combine(fraction: u64, opposite: bool, m: u64, n: u64) -> Exact
    requires { (fraction ≤ 52) × (n ≤ m) }
    ensures { result ≡ exact_of fraction opposite m n }
{
    let large = decode(fraction, m);
    let small = decode(fraction, n);
    Exact {
        opposite,
        larger: large.significand,
        smaller: small.significand,
        gap: large.shift - small.shift,
        shift: small.shift,
    }
}

// Step 1 (IEEE 754-2008, 5.1): the intermediate result, correct to infinite precision and with unbounded range. Nothing is lost.
// Its sign is that of the operand larger in size, x's where both are equal.
fn exact_sum(format: Format, x: Signed, a: Signed) -> ExactSum
    requires { Summands FiniteSigned format x a }
    ensures { Exactly format (ordinal_at format x) (ordinal_at format a) result }
{
    let opposite = x.sign != a.sign;
    let fraction = format.fraction;
    if a.m <= x.m {
        return ExactSum {
            sign: x.sign,
            size: combine(fraction, opposite, x.m, a.m),
        };
    }
    ExactSum {
        sign: a.sign,
        size: combine(fraction, opposite, a.m, x.m),
    }
}

// ---- step 2

// larger and smaller, added, or taken away where the signs are opposite.
fn join(opposite: bool, larger: u64, smaller: u64, shift: u64) -> Scaled
    requires { (larger + smaller < 2 ^ 64) × (smaller ≤ larger) }
    ensures { result ≡ joined_of opposite larger smaller shift }
{
    if opposite {
        return Scaled {
            significand: larger - smaller,
            shift,
        };
    }
    Scaled {
        significand: larger + smaller,
        shift,
    }
}

// One word that rounds as the exact sum does. Where the gap is wider than three, smaller keeps its digits down to the third below
// larger's last, and one sticky digit for all lower ones. d, the digits beside the first, is for the contract alone.
pub(crate) fn scale(d: u64, t: Exact) -> Scaled
    requires { (Digits d) × (Shaped d t) }
    ensures { Scales d t result }
{
    let gap = t.gap;
    let smaller = t.smaller;
    if gap <= 3 {
        return join(t.opposite, shift_left(t.larger, gap), smaller, t.shift);
    }
    let drop = gap - 3;
    let jammed = 2 * shift_right(smaller, drop) + sticky(smaller, drop);
    join(t.opposite, 16 * t.larger, jammed, t.shift + (drop - 1))
}

// A number of fraction + 1 + excess digits rounded to fraction + 1; leading has its digits from the top of the word on. One up where
// the rest is over half a step, or half a step beside an odd significand; a carry runs on into the exponent. m fits a word.
fn round_leading(fraction: u64, leading: u64, excess: u64) -> Rounding
    requires { (Fraction fraction) × (excess * 2 ^ fraction ≤ 2 ^ 63 + 2 ^ 62) }
    ensures { result ≡ leading_of fraction leading excess }
{
    let low = 63 - fraction;
    let significand = shift_right(leading, low);
    let rest = dropped(leading, low);
    let half = shift_left(1, low - 1);
    let up = if half < rest + significand % 2 { 1 } else { 0 };
    let kept = significand + up;
    Rounding {
        result: Rounded {
            m: shift_left(excess, fraction) + kept,
            exact: rest == 0,
        },
        kept: Scaled {
            significand: kept,
            shift: excess,
        },
    }
}

// A number of units that is an m too, of which every digit is kept.
fn keep(m: u64) -> Rounding
    ensures { result ≡ kept_of m }
{
    Rounding {
        result: Rounded { m, exact: true },
        kept: Scaled {
            significand: m,
            shift: 0,
        },
    }
}

// n * 2^shift units, rounded. Of at most fraction + 1 digits every one is kept.
fn round_units(fraction: u64, n: u64, shift: u64) -> Rounding
    requires { (Fraction fraction) × (shift * 2 ^ fraction ≤ 2 ^ 63) }
    ensures { RoundsUnits fraction n shift result }
{
    if n == 0 {
        return keep(0);
    }
    let size = digits(n);
    if size + shift <= fraction + 1 {
        return keep(shift_left(n, shift));
    }
    let leading = shift_left(n, 64 - size);
    round_leading(fraction, leading, size + shift - (fraction + 1))
}

// Step 2 (IEEE 754-2008, 4.3.1, roundTiesToEven): the size of the exact sum, rounded to the nearest float, of two equally near ones
// to the one with an even last digit; as if no exponent were too large. To nearest the sign does not matter.
fn round_sum(fraction: u64, t: Exact) -> Rounding
    requires { Roundable fraction t }
    ensures { Rounds fraction t result }
{
    let s = scale(fraction, t);
    round_units(fraction, s.significand, s.shift)
}

// ---- step 3

// The mark of a finite sum; the smallest normal's m is 2^fraction: sign - infinity.
fn mark_for(format: Format, r: Rounded) -> Mark
    ensures { result ≡ mark_for format.fraction r.m r.exact }
{
    if r.exact {
        return Mark::Exact;
    }
    if r.m < format.sign - format.infinity {
        return Mark::Subnormal;
    }
    Mark::Rounded
}

// Step 3 (IEEE 754-2008, 7.4): the range test. The sum overflows, which is refusal 9, exactly where the rounded size passes the
// largest finite float, whose m is the one before infinity's; else sign and m make its pattern, and it has its mark.
fn range_test(format: Format, sign: u64, r: Rounded) -> Tested
    ensures { RangeTested format sign r result }
{
    if format.infinity <= r.m {
        return Tested::Overflow {
            infinity: Signed {
                sign,
                m: format.infinity,
            },
        };
    }
    Tested::Finite {
        sum: Signed { sign, m: r.m },
        mark: mark_for(format, r),
    }
}

// ---- the three together

// The sum of two finite floats, in the standard's order.
fn add_signed(format: Format, x: Signed, a: Signed) -> Addition
    requires { Summands FiniteSigned format x a }
    ensures { IsSum format (ordinal_at format x) (ordinal_at format a) result result.tested }
{
    let exact = exact_sum(format, x, a);
    let size = exact.size;
    let rounding = round_sum(format.fraction, size);
    let result = rounding.result;
    let tested = range_test(format, exact.sign, result);
    Addition {
        exact,
        rounding,
        tested,
    }
}

// ---- as numbers, ordinals and patterns

impl Mark {
    // 01's number.
    pub fn number(self) -> u64
        ensures { result ≡ mark_number self }
    {
        self as u64
    }
}

impl Signed {
    // The float of a finite ordinal.
    fn from_ordinal(format: Format, r: u64) -> Self
        requires { Finite format r }
        ensures { Represents format r result }
    {
        if r < format.sign {
            return Signed {
                sign: format.sign,
                m: format.sign - r,
            };
        }
        Signed {
            sign: 0,
            m: r - format.sign,
        }
    }

    // The float of a finite pattern.
    fn from_pattern(format: Format, p: u64) -> Self
        requires { FinitePattern format p }
        ensures { Represents format (ordinal format p) result }
    {
        if p < format.sign {
            return Signed { sign: 0, m: p };
        }
        Signed {
            sign: format.sign,
            m: p - format.sign,
        }
    }

    // Its ordinal, an infinity's too.
    fn ordinal(self, format: Format) -> u64
        requires { self.m ≤ format.infinity }
        ensures { result ≡ ordinal_at format self }
    {
        if self.sign == 0 {
            return format.sign + self.m;
        }
        format.sign - self.m
    }

    // Its pattern. Zero has its sign clear, whatever the signs of the operands, as 01 has it; 6.3 of the standard keeps that of -0 + -0.
    fn pattern(self, format: Format) -> u64
        requires { FiniteSigned format self }
        ensures { result ≡ pattern format (ordinal_at format self) }
    {
        if self.m == 0 {
            return 0;
        }
        self.sign + self.m
    }
}

// The sum of two finite ordinals: an infinity's ordinal where no finite sum exists.
pub(crate) fn sum_of(format: Format, x: u64, a: u64) -> u64
    requires { Summands Finite format x a }
    ensures { result ≡ sum format x a }
{
    let s = add_signed(
        format,
        Signed::from_ordinal(format, x),
        Signed::from_ordinal(format, a),
    );
    let tested = s.tested;
    match tested {
        Tested::Finite { sum, mark: _ } => sum.ordinal(format),
        Tested::Overflow { infinity } => infinity.ordinal(format),
    }
}

// The answer for two finite patterns: refusal 9, or pattern, mark and remainder.
pub(crate) fn add_finite(format: Format, x: u64, a: u64) -> Result<Sum, Refusal>
    requires { Summands FinitePattern format x a }
    ensures { result ≡ sum_answer format (ordinal format x) (ordinal format a) }
{
    let s = add_signed(
        format,
        Signed::from_pattern(format, x),
        Signed::from_pattern(format, a),
    );
    let tested = s.tested;
    match tested {
        Tested::Finite { sum, mark } => {
            let left = left_over(format, s.exact, s.rounding);
            Ok(Sum {
                pattern: sum.pattern(format),
                mark,
                remainder: left.pattern(format),
            })
        }
        Tested::Overflow { infinity: _ } => Err(Refusal::from(Reason::Overflow)),
    }
}

// The answer in a format.
#[tactic(auto, unfolding(crate::specs::Sums::add_in))]
fn add_in(format: Format, x: u64, a: u64) -> Result<Sum, Refusal>
    ensures { result ≡ add_in format x a }
{
    Reason::NotFinite.unless(finite(format, x))?;
    Reason::NotFinite.unless(finite(format, a))?;
    add_finite(format, x, a)
}

// The sum of two patterns with its mark and its remainder; refusals 1, 2 for x then a, 9, in this order.
#[tactic(auto, unfolding(crate::specs::Sums::add_of), using(crate::proofs::Additions::gives_sum))]
pub fn add(width: u64, x: u64, a: u64) -> Result<Sum, Refusal>
    ensures { GivesSum width x a result }
{
    add_in(Format::try_from(width)?, x, a)
}
