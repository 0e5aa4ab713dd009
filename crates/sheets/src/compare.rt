// Each case once with lent lists and once with a kept sheet, and whether the two agree.
use crate::cases::{Words, make_cells, make_records, next_word};
use crate::lending::Case;
use crate::tally::Tally;
use std::io::Stdout;

// How many cases are compared.
const CASES: u64 = 670;

// Case c: every length of cells in turn; widths, limits, records and faults by the word w.
fn case_of(c: u64, w: u64) -> Case {
    let width = match w % 32 {
        0 => 16,
        1..=15 => 32,
        _ => 64,
    };
    let limit = match (w >> 5) % 64 {
        0 => 0,
        1 => 65536,
        2..=30 => 1,
        _ => 12,
    };
    let calm = (w >> 11) % 2 == 0;
    let n = c % 67;
    let v = w >> 15;
    let m = match (w >> 12) % 8 {
        0 => v,
        1 => 123 + v % 8,
        _ => v % 5,
    };
    Case {
        width,
        limit,
        cells: make_cells(width, calm, w),
        records: make_records(n, calm, next_word(w)),
        cell_count: n as usize,
        record_count: (m % 131) as usize,
    }
}

pub(crate) fn compare_lists(out: Stdout) {
    let mut tally = Tally::default();
    let mut words = Words::new(88172645463325252);
    // c is what a case is made of.
    for c in 0..CASES {
        let left = case_of(c, words.next()).narrow();
        tally.count(left.reply, left.alike);
    }
    let _ = println!(out; "lists {tally}");
}
