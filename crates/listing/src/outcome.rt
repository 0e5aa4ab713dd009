// The listing of a run's outcome, line by line.
ghost use Rattle.std.specs.Prelude.{◌≡◌, ◌+◌, ◌*◌, ◌≤◌, ◌++◌, length, take};
ghost use Rattle.listing.specs.Listings.{worded, pair_line, cell_line, cell_lines, lines_of};

use crate::lines::Lines;
use arith::interval::Interval;
use propagation::passes::Outcome;

impl Lines {
    // Puts a word, a tab, a number and the byte after it.
    fn put_word(&mut self, word: &[u8], n: u64, last: u8)
        requires { length self.old + length word.now + 22 ≤ 4096 }
        ensures text { self.new ≡ self.old ++ worded word.now n last }
        ensures most { length self.new ≤ length self.old + length word.now + 22 }
    {
        self.copy(word);
        self.put(b'\t');
        self.put_decimal(n);
        self.put(last);
    }

    // Puts a line of a word and two numbers.
    fn put_pair(&mut self, word: &[u8], n: u64, m: u64)
        requires { length self.old + length word.now + 43 ≤ 4096 }
        ensures { self.new ≡ self.old ++ pair_line word.now n m }
    {
        self.put_word(word, n, b'\t');
        self.put_decimal(m);
        self.put(b'\n');
    }

    // Puts a cell's line: number, low, high.
    #[tactic(auto, unfolding(crate::specs::Listings::cell_line))]
    fn put_cell(&mut self, width: u64, i: u64, cell: &Interval)
        requires { length self.old + 60 ≤ 4096 }
        ensures text { self.new ≡ self.old ++ cell_line width i cell.now }
        ensures most { length self.new ≤ length self.old + 60 }
    {
        self.put_word(b"cell", i, b'\t');
        self.put_pattern(width, cell.low);
        self.put(b'\t');
        self.put_pattern(width, cell.high);
        self.put(b'\n');
    }

    // Puts the lines of cells.
    #[tactic(auto, unfolding(crate::specs::Listings::cell_lines))]
    fn put_cells(&mut self, width: u64, cells: &[Interval])
        requires { length self.old + 60 * length cells.now ≤ 4096 }
        ensures { self.new ≡ self.old ++ cell_lines width 0 cells.now }
    {
        for (i, cell) in cells.iter().enumerate() {
            self.put_cell(width, i as u64, cell);
        }
    }
}

// The listing of an outcome, with the cells that a settled or stopped run leaves.
#[tactic(auto, unfolding(crate::specs::Listings::lines_of))]
pub(crate) fn list_outcome(outcome: &Outcome, width: u64, cells: &[Interval]) -> Lines
    requires { length cells.now ≤ 64 }
    ensures { result ≡ lines_of outcome.now width cells.now }
{
    let mut lines = Lines::new();
    match *outcome {
        Outcome::Settled { passes } => {
            lines.put_word(b"settled", passes, b'\n');
            lines.put_cells(width, cells);
        }
        Outcome::NoTriple { pass, record } => lines.put_pair(b"none", pass, record),
        Outcome::Stopped { passes } => {
            lines.put_word(b"stopped", passes, b'\n');
            lines.put_cells(width, cells);
        }
        Outcome::Refused(r) => lines.put_pair(b"refused", r.reason.number(), r.place),
    }
    lines
}
