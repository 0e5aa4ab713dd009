// Patterns by the numbers that they stand for.

// Width 64: small numbers.
pub(crate) const MINUS_ZERO: u64 = 0x8000000000000000;

pub(crate) const ONE: u64 = 0x3FF0000000000000;

pub(crate) const MINUS_ONE: u64 = 0xBFF0000000000000;

pub(crate) const TWO: u64 = 0x4000000000000000;

pub(crate) const MINUS_TWO: u64 = 0xC000000000000000;

// Half the step above 1, and minus half the step below it: each makes a tie of a sum with 1.
pub(crate) const TIE_ABOVE: u64 = 0x3CA0000000000000;

pub(crate) const TIE_BELOW: u64 = 0xBC90000000000000;

// 2^53, up to twice as much, and the same below zero.
pub(crate) const LARGE: u64 = 0x4340000000000000;

pub(crate) const TWICE_LARGE: u64 = 0x4350000000000000;

pub(crate) const MINUS_LARGE: u64 = 0xC340000000000000;

pub(crate) const MINUS_TWICE_LARGE: u64 = 0xC350000000000000;

// The largest float and the least, and beyond them.
pub(crate) const LARGEST: u64 = 0x7FEFFFFFFFFFFFFF;

pub(crate) const LEAST: u64 = 0xFFEFFFFFFFFFFFFF;

pub(crate) const INFINITE: u64 = 0x7FF0000000000000;

pub(crate) const MINUS_INFINITE: u64 = 0xFFF0000000000000;

// Width 32.
pub(crate) const MINUS_ZERO_32: u64 = 0x80000000;

pub(crate) const ONE_32: u64 = 0x3F800000;

pub(crate) const MINUS_ONE_32: u64 = 0xBF800000;

pub(crate) const TWO_32: u64 = 0x40000000;

pub(crate) const THREE_32: u64 = 0x40400000;

pub(crate) const FOUR_32: u64 = 0x40800000;

pub(crate) const LARGEST_32: u64 = 0x7F7FFFFF;

pub(crate) const LEAST_32: u64 = 0xFF7FFFFF;

pub(crate) const INFINITE_32: u64 = 0x7F800000;
