// Shifts of a word by any amount, as products, quotients and remainders by a power of two, and the number of binary digits. An amount is a word, too large for the u32 of std's own checked shifts.
ghost use Rattle.std.specs.Prelude.{◌≡◌, ◌*◌, ◌/◌, ◌%◌, ◌^◌, ◌<◌, min};
ghost use Rattle.ladder.specs.Rounding.{digits};

// n * 2^k
pub(crate) fn shift_left(n: u64, k: u64) -> u64
    requires { (k < 64) × (n * 2 ^ k < 2 ^ 64) }
    ensures { result ≡ n * 2 ^ k }
{
    n << k
}

// The low word of n * 2^k, for any k
pub(crate) fn shift_wrapping(n: u64, k: u64) -> u64
    ensures { result ≡ (n * 2 ^ k) % 2 ^ 64 }
{
    if k < 64 {
        return n << k;
    }
    0
}

// n / 2^k, for any k
pub(crate) fn shift_right(n: u64, k: u64) -> u64
    ensures { result ≡ n / 2 ^ k }
{
    if k < 64 {
        return n >> k;
    }
    0
}

// n mod 2^k, for any k: the digits that a shift right by k drops
pub(crate) fn dropped(n: u64, k: u64) -> u64
    ensures { result ≡ n % 2 ^ k }
{
    if k < 64 {
        return n - ((n >> k) << k);
    }
    n
}

// 1 where a digit below 2^k is set: the sticky digit of a shift right by k
pub(crate) fn sticky(n: u64, k: u64) -> u64
    ensures { result ≡ min (n % 2 ^ k) 1 }
{
    dropped(n, k).min(1)
}

// The number of binary digits, 0 for 0.
pub(crate) fn digits(n: u64) -> u64
    ensures { result ≡ digits n }
{
    64 - n.leading_zeros() as u64
}
