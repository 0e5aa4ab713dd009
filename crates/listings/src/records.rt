// Prints what the reader gives of a text, record after record, each with the part of the text where it stands. Thin over the crate `reader`.
use reader::cursor::Step;
use reader::entry::Entry;
use reader::text::{Reader, nth, part};
use sheet::kept::Record;
use sheet::kind::Kind;
use std::io::Stdout;

// A record over cells by the word for its kind, and its three numbers.
fn put_record(out: Stdout, record: Record) {
    let Record { kind, x, a, b } = record;
    let word = match Kind::try_from(kind) {
        Ok(Kind::Sum) => "sum",
        Ok(Kind::Diff) => "diff",
        Ok(Kind::Neg) => "neg",
        Err(_) => "unknown",
    };
    let _ = print!(out; "{word}\t{x}\t{a}\t{b}");
}

// The fields of a head, a cell or a record over cells.
fn put_entry(out: Stdout, entry: Entry) {
    match entry {
        Entry::Head { width, limit } => {
            let _ = print!(out; "head\t{width}\t{limit}");
        }
        Entry::Cell(cell) => {
            let _ = print!(out; "cell\t{}\t{}", cell.low, cell.high);
        }
        Entry::Record(record) => put_record(out, record),
    }
}

// Those fields, that the text has ended, or a refusal's number and line.
fn put_step(out: Stdout, step: Step) {
    match step {
        Ok(Some(read)) => put_entry(out, read.entry),
        Ok(None) => {
            let _ = print!(out; "end");
        }
        Err(r) => {
            let _ = print!(out; "refused\t{}\t{}", r.reason.number(), r.place);
        }
    }
}

// A line for the first answer of a reader made over a text; then the first n answers, each in a line, the part of the text in brackets.
fn show_records(out: Stdout, text: &[u8], n: u16) {
    let _ = print!(out; "first ");
    put_step(out, Reader::new(text).next().step);
    let _ = println!(out);
    // i is what `nth` and `part` are asked for.
    for i in 0..n {
        put_step(out, nth(text, i));
        let _ = print!(out; "\t[");
        let _ = out.write_all(part(text, i));
        let _ = println!(out; "]");
    }
}

// A text with a record of each kind, and one whose places are all alike, to its end, and the end again; a refused record, stayed at; a last line without its line feed; no head; empty text; text too long.
pub(crate) fn read_records(out: Stdout) {
    for (text, n) in [
        (
            "sheet\t32\t10\ncell\t3F800000\t40000000\ncell\t00000000\t00000001\ncell\t80000000\t7F7FFFFF\nsum\t0\t1\t2\ndiff\t2\t1\t0\nneg\t1\t2\nsum\t0\t0\t0\n",
            10,
        ),
        (
            "sheet\t64\t10\ncell\t0000000000000000\t0000000000000001\nrow\t0\t1\nsum\t0\t1\t2\n",
            5,
        ),
        (
            "sheet\t64\t10\ncell\t0000000000000000\t0000000000000001\nsum\t0\t0\t1\n",
            4,
        ),
        (
            "sheet\t64\t10\ncell\t0000000000000000\t0000000000000001\nneg\t0\t1\t0\n",
            4,
        ),
        ("sheet\t64\t10\nsum\t0\t1\t2", 3),
        ("sum\t0\t1\t2\n", 2),
        ("", 2),
    ] {
        show_records(out, text.as_bytes(), n);
    }
    show_records(out, &[10u8; 8193], 2)
}
