// Numbers as digits: decimal, and hexadecimal capitals by width. By hand, since std says what a `write!` wrote where it is Ok, and not that it is.
ghost use Rattle.std.specs.Prelude.{◌≡◌, ◌+◌, ◌≤◌, ◌<◌, ◌++◌, length};
ghost use Rattle.reader.specs.Digits.{digit_byte, digits_of, digit_count, decimal_of, hex_of};

use crate::lines::Lines;
use reader::number::digits_for;

// The byte of a digit.
#[tactic(auto, unfolding(reader::specs::Digits::digit_byte))]
fn digit_byte(d: u64) -> u8
    requires { d < 16 }
    ensures { result ≡ digit_byte d }
{
    let x = d as u8;
    if x < 10 { b'0' + x } else { b'A' - 10 + x }
}

// How many decimal digits a number has.
#[tactic(auto, using(crate::proofs::Counting::count_from))]
fn count_digits(n: u64) -> usize
    ensures { (result ≡ digit_count 19 n) × (result ≤ 20) }
{
    n.max(1).ilog10() as usize + 1
}

// Fills places with the last digits of n in a base, the highest first, from the last place on: with a recursion over the digits in its place
// a listing takes more than twice the time.
fn fill_digits(places: &mut [u8], base: u64, n: u64)
    requires { (0 < base) × (base ≤ 16) }
    ensures { places.new ≡ digits_of base (length places.old) n }
{
    let mut m = n;
    for j in (0..places.len()).rev() {
        places[j] = digit_byte(m % base);
        m = m / base;
    }
}

impl Lines {
    // Puts the last k digits of n in a base, the highest first. A word has at most 20.
    fn put_digits(&mut self, base: u64, k: usize, n: u64)
        requires { ((0 < base) × (base ≤ 16)) × ((k ≤ 20) × (length self.old + k ≤ 4096)) }
        ensures text { self.new ≡ self.old ++ digits_of base k n }
        ensures count { length self.new ≡ length self.old + k }
    {
        let mut digits = [0u8; 20];
        fill_digits(&mut digits[..k], base, n);
        self.copy(&digits[..k]);
    }

    // Puts a number in decimal.
    #[tactic(auto, unfolding(reader::specs::Digits::decimal_of))]
    pub(crate) fn put_decimal(&mut self, n: u64)
        requires { length self.old + 20 ≤ 4096 }
        ensures text { self.new ≡ self.old ++ decimal_of n }
        ensures most { length self.new ≤ length self.old + 20 }
    {
        self.put_digits(10, count_digits(n), n);
    }

    // Puts a pattern in hexadecimal.
    #[tactic(auto, unfolding(reader::specs::Digits::hex_of))]
    pub(crate) fn put_pattern(&mut self, width: u64, n: u64)
        requires { length self.old + 16 ≤ 4096 }
        ensures text { self.new ≡ self.old ++ hex_of width n }
        ensures most { length self.new ≤ length self.old + 16 }
    {
        self.put_digits(16, digits_for(width), n);
    }
}
