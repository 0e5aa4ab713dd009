// Prints the listings of 01's other sheets, of sheets with records of each kind, with a cell named more than once, and of a text for each refusal, then what the reader gives of some texts, all held to the stored output. Thin over the crates `listing` and `reader`.
#![tactic(auto)]

mod records;

use listing::from_text::list;
use std::io::{Stdout, Write};

// The listing of a text.
fn show(out: Stdout, text: &[u8]) {
    let mut listing = [0u8; 4096];
    if let Ok(n) = list(text, &mut listing) {
        let _ = out.write_all(&listing[..n]);
    }
}

// The listings of texts, one after the other.
fn show_each(out: Stdout, texts: &[&str]) {
    for text in texts {
        show(out, text.as_bytes());
    }
}

// The listing of some first lines and others that come n times.
fn show_many(out: Stdout, head: &str, lines: &str, n: usize) {
    let mut text = [0u8; 8192];
    let mut room = &mut text[..];
    let _ = room.write_all(head.as_bytes());
    for _ in 0..n {
        let _ = room.write_all(lines.as_bytes());
    }
    let left = room.len();
    show(out, &text[..8192usize.saturating_sub(left)])
}

// 01's sheets: the whole listing with limit 1, and the two sums with limits 5 and 6; then width 32 with the largest limit; a cell and no record; a head alone.
fn sheets(out: Stdout) {
    show(
        out,
        b"sheet\t64\t1\ncell\tC630000000000000\tC330000000000000\ncell\t3FF0000000000000\t4630000000000000\ncell\t3FE0000000000000\t3FF8000000000000\nsum\t0\t1\t2\n",
    );
    let two_sums =
        "cell\t0000000000000000\t000000000000000A\ncell\t0000000000000001\t0000000000000001\ncell\t0000000000000000\t000000000000000A\ncell\t0000000000000000\t0000000000000000\nsum\t0\t1\t2\nsum\t2\t3\t0\n";
    show_many(out, "sheet\t64\t5\n", two_sums, 1);
    show_many(out, "sheet\t64\t6\n", two_sums, 1);
    show_each(
        out,
        &[
            "sheet\t32\t65535\ncell\tFF7FFFFF\t7F7FFFFF\ncell\t3F800000\t3F800000\ncell\t3F800000\t3F800000\nsum\t0\t1\t2\n",
            "sheet\t32\t1\ncell\t80000000\t00000000\n",
            "sheet\t64\t1\n",
        ],
    )
}

// The whole listing with a diff and cell 1 mirrored; a neg without cell 0, which keeps its ends, and one with it; a record of each kind; the same at odds with limits 5 and 6, where at last the neg, which is record 1, has no solution.
fn kinds(out: Stdout) {
    show(
        out,
        b"sheet\t64\t10\ncell\tC630000000000000\tC330000000000000\ncell\tC630000000000000\tBFF0000000000000\ncell\t3FE0000000000000\t3FF8000000000000\ndiff\t0\t1\t2\n",
    );
    let three =
        "sheet\t32\t10\ncell\t80000000\t40000000\ncell\tBF800000\t40000000\ncell\tC0400000\t3F000000\n";
    show_many(out, three, "neg\t1\t2\n", 1);
    show_many(out, three, "neg\t0\t2\n", 1);
    show(
        out,
        b"sheet\t32\t10\ncell\t80000003\t00000003\ncell\t00000000\t0000000C\ncell\t80000004\t00000007\ncell\t80000005\t80000001\nsum\t2\t0\t1\ndiff\t0\t2\t3\nneg\t3\t0\n",
    );
    let at_odds =
        "cell\t00000000\t0000000A\ncell\t8000000A\t00000000\ncell\t00000000\t0000000A\ncell\t00000001\t00000001\nsum\t0\t3\t2\nneg\t2\t1\ndiff\t3\t1\t2\n";
    show_many(out, "sheet\t32\t5\n", at_odds, 1);
    show_many(out, "sheet\t32\t6\n", at_odds, 1)
}

// A cell named more than once. A stage at rest: what 1 absorbs from zero up, and its odd neighbour; where an a from 1 to 4 is absorbed. The doubling test from place 3 to the largest float, and one without a solution. A cell less itself; a cell less its half; all places alike, for each kind.
fn repeated(out: Stdout) {
    let rest = "cell\t0000000000000000\t3FF0000000000000\nsum\t0\t1\t0\n";
    show_many(
        out,
        "sheet\t64\t10\ncell\t3FF0000000000000\t3FF0000000000000\n",
        rest,
        1,
    );
    show_many(
        out,
        "sheet\t64\t10\ncell\t3FF0000000000001\t3FF0000000000001\n",
        rest,
        1,
    );
    show_each(
        out,
        &[
            "sheet\t64\t10\ncell\tBFF0000000000000\t4340000000000003\ncell\t3FF0000000000000\t4010000000000000\nsum\t0\t1\t0\n",
            "sheet\t32\t10\ncell\t00000000\t7F7FFFFF\ncell\t00000003\t7F7FFFFF\nsum\t0\t0\t1\n",
            "sheet\t32\t10\ncell\t00000001\t00000001\ncell\t00000003\t00000003\nsum\t0\t0\t1\n",
            "sheet\t32\t10\ncell\t3F800000\t40000000\ncell\tBF800000\t3F800000\ndiff\t0\t0\t1\n",
            "sheet\t32\t10\ncell\t3F800000\t40800000\ncell\t00000000\t3FC00000\ndiff\t0\t1\t1\n",
            "sheet\t32\t10\ncell\tBF800000\t3F800000\ncell\tBF800000\t3F800000\ncell\tBF800000\t3F800000\nsum\t0\t0\t0\ndiff\t1\t1\t1\nneg\t2\t2\n",
        ],
    )
}

// Refusal 4: no head, no line feed, an unknown or misplaced record, fields too few, too many or malformed.
fn malformed(out: Stdout) {
    show_each(
        out,
        &[
            "",
            "\n",
            "sheet\t64\t10",
            "cell\t00000000\t00000000\n",
            "sheet\t64\t010\n",
            "sheet\t64\t100000\n",
            "sheet\t64\t10\t\n",
            "sheet\t64\t10\nsheet\t64\t10\n",
            "sheet\t64\t10\nrow\t0\t1\n",
            "sheet\t64\t10\ncell\t3ff0000000000000\t4000000000000000\n",
            "sheet\t64\t10\ncell\t3FF00000\t40000000\n",
            "sheet\t64\t10\nsum\t0\t1\n",
            "sheet\t64\t10\ndiff\t0\t1\n",
            "sheet\t64\t10\nneg\t0\n",
            "sheet\t64\t10\nneg\t0\t1\t0\n",
        ],
    )
}

// Refusals 1, 7, 2, 3 and 5, this for each kind of record; the first bad line of several, and 4 before what else a line has.
fn refused(out: Stdout) {
    show_each(
        out,
        &[
            "sheet\t16\t10\n",
            "sheet\t16\t0\n",
            "sheet\t64\t0\n",
            "sheet\t64\t65536\n",
            "sheet\t64\t10\ncell\t7FF0000000000000\t7FF0000000000000\n",
            "sheet\t32\t10\ncell\t00000000\tFF800000\n",
            "sheet\t64\t10\ncell\t3FF0000000000000\t0000000000000000\n",
            "sheet\t64\t10\ncell\t0000000000000000\t0000000000000000\nsum\t0\t1\t2\n",
        ],
    );
    let one = "sheet\t32\t10\ncell\t00000000\t00000000\n";
    show_many(out, one, "diff\t0\t0\t1\n", 1);
    show_many(out, one, "neg\t0\t1\n", 1);
    show_each(
        out,
        &[
            "sheet\t64\t10\nsum\t0\t0\t0\ncell\t0\t0\n",
            "sheet\t16\t010\n",
        ],
    )
}

// Text too long; 64 cells and a 65th; 128 records and a 129th, of sums alone and of mixed kinds, where it is a neg and then a diff.
fn large(out: Stdout) {
    show(out, &[10u8; 8193]);
    show_many(out, "sheet\t32\t1\n", "cell\t00000000\t3F800000\n", 64);
    show_many(out, "sheet\t32\t1\n", "cell\t00000000\t3F800000\n", 65);
    let three =
        "sheet\t32\t9\ncell\t00000000\t3F800000\ncell\t00000000\t3F800000\ncell\t00000000\t3F800000\n";
    show_many(out, three, "sum\t0\t1\t2\n", 128);
    show_many(out, three, "sum\t0\t1\t2\n", 129);
    show_many(out, three, "diff\t2\t1\t0\nneg\t0\t1\n", 64);
    show_many(out, three, "sum\t0\t1\t2\ndiff\t2\t1\t0\nneg\t0\t1\n", 43);
    show_many(out, three, "neg\t0\t1\nsum\t0\t1\t2\ndiff\t2\t1\t0\n", 43)
}

fn main(rt: HostRuntime) {
    let out = rt.stdout();
    sheets(out);
    kinds(out);
    repeated(out);
    malformed(out);
    refused(out);
    large(out);
    records::read_records(out)
}
