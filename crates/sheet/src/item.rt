// What a sheet holds in places, a cell or a record: its fault, its one written form, and what an unused place holds.
ghost use Rattle.std.specs.Prelude.{◌≡◌, ℕ, Result, Ok};
ghost use Rattle.arith.specs.declared.refusal.Reason.{Reason};
ghost use Rattle.sheet.specs.Cells.{canonical_cell};
ghost use Rattle.sheet.specs.Faults.{cell_fault, record_fault};
ghost use Rattle.sheet.specs.Sheets.{no_cell, no_record};

use crate::fault::{cell_fault, record_fault};
use crate::kept::Record;
use arith::interval::Interval;
use arith::refusal::Reason;

// A cell under its sheet's width, or a record under the count of cells: the bound that it is tested by.
pub(crate) trait Item: Copy {
    ghost fault: { ℕ → Self → Result Unit Reason };

    ghost tidied: { ℕ → Self → Self };

    ghost UNUSED: { Self };

    // What an unused place holds.
    const UNUSED: Self;

    // Nothing, or the reason that it is refused for.
    fn fault(self, bound: u64) -> Result<(), Reason>
        ensures { result ≡ fault bound self };

    // Where it has no fault, in its one written form.
    fn tidied(self, bound: u64) -> Self
        requires { fault bound self ≡ Ok tt }
        ensures { result ≡ tidied bound self };
}

impl Item for Interval {
    ghost fault = { cell_fault };

    ghost tidied = { canonical_cell };

    ghost UNUSED = { no_cell };

    const UNUSED: Self = Interval { low: 0, high: 0 };

    fn fault(self, bound: u64) -> Result<(), Reason> {
        cell_fault(bound, self)
    }

    fn tidied(self, bound: u64) -> Self {
        self.canonical(bound).unwrap_or(self)
    }
}

impl Item for Record {
    ghost fault = { record_fault };

    ghost tidied = { λ _ r. r };

    ghost UNUSED = { no_record };

    const UNUSED: Self = Record {
        kind: 0,
        x: 0,
        a: 0,
        b: 0,
    };

    fn fault(self, bound: u64) -> Result<(), Reason> {
        record_fault(bound, self)
    }

    fn tidied(self, _bound: u64) -> Self {
        self
    }
}
