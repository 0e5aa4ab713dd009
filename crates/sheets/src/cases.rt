// Lists made of pseudo-random words.
use crate::print::{NEG, UNKNOWN, of_kind};
use arith::interval::Interval;
use sheet::kept::Record;
use std::array;

// How many places the arrays have: two more than a sheet, of each kind.
pub(crate) const CELLS: usize = 66;

pub(crate) const RECORDS: usize = 130;

// The next pseudo-random word (Marsaglia's xorshift).
pub(crate) fn next_word(s: u64) -> u64 {
    let a = s ^ (s << 13);
    let b = a ^ (a >> 7);
    b ^ (b << 17)
}

// Pseudo-random words, each from the one before.
#[derive(Drop)]
pub(crate) struct Words {
    last: u64,
}

impl Words {
    // The words after a seed.
    pub(crate) fn new(seed: u64) -> Self {
        Words { last: seed }
    }

    pub(crate) fn next(&mut self) -> u64 {
        self.last = next_word(self.last);
        self.last
    }
}

// The sign bit.
fn sign_of(width: u64) -> u64 {
    if width == 32 {
        0x8000_0000
    } else {
        0x8000_0000_0000_0000
    }
}

// A finite pattern without sign, at width 32 or 64.
fn size_of(width: u64, w: u64) -> u64 {
    if width == 32 {
        w % 0x7F80_0000
    } else {
        w % 0x7FF0_0000_0000_0000
    }
}

// An interval around zero.
fn around(width: u64, w: u64) -> Interval {
    let v = next_word(w);
    Interval {
        low: sign_of(width) ^ size_of(width, w),
        high: size_of(width, v),
    }
}

// An interval: around zero, one float, or in two cases of 128 a faulty one.
fn cell_of(width: u64, calm: bool, w: u64) -> Interval {
    let wide = around(width, w);
    if calm {
        return wide;
    }
    let p = size_of(width, w);
    match (w >> 20) % 128 {
        0 => Interval {
            low: wide.high,
            high: wide.low,
        },
        1 => Interval {
            low: wide.low,
            high: 0xFFFF_FFFF_FFFF_FFFF,
        },
        2..=20 => Interval { low: p, high: p },
        _ => wide,
    }
}

// A record of a kind over cells, with 0 as the third number of a neg.
fn over_cells(kind: u64, x: u64, a: u64, b: u64) -> Record {
    of_kind(kind, x, a, if kind == NEG { 0 } else { b })
}

// A record over n cells, a sum, a diff or a neg: one cell of each third, in some cases x and b exchanged, in some a cell named more than once, in four of 256 a faulty one; 0 1 2 where there are fewer than three cells.
fn record_of(n: u64, calm: bool, w: u64) -> Record {
    let kind = (w >> 32) % 3;
    let k = n % 67 / 3;
    if k == 0 {
        return over_cells(kind, 0, 1, 2);
    }
    let x = w % k;
    let a = k + (w >> 8) % k % 67;
    let b = 2 * k + (w >> 16) % k % 67;
    if calm {
        return over_cells(kind, x, a, b);
    }
    match (w >> 24) % 256 {
        0 => of_kind(NEG, x, a, b),
        1 => over_cells(kind, n, a, b),
        2 => over_cells(UNKNOWN, x, a, b),
        3 => over_cells(w | 3, x, a, b),
        4..=11 => over_cells(kind, x, x, b),
        12..=19 => over_cells(kind, x, a, x),
        20..=27 => over_cells(kind, x, a, a),
        28..=35 => over_cells(kind, x, x, x),
        36..=111 => over_cells(kind, b, a, x),
        _ => over_cells(kind, x, a, b),
    }
}

// Cells for each place of the array that is lent.
pub(crate) fn make_cells(width: u64, calm: bool, seed: u64) -> [Interval; CELLS] {
    let mut words = Words::new(seed);
    array::from_fn(|_| cell_of(width, calm, words.next()))
}

// Records over n cells for each place of the array that is lent.
pub(crate) fn make_records(n: u64, calm: bool, seed: u64) -> [Record; RECORDS] {
    let mut words = Words::new(seed);
    array::from_fn(|_| record_of(n, calm, words.next()))
}
