// Reads a sheet text from standard input and prints its listing. Thin over the crate `listing`. A read or a write that fails is told on standard error; after a failed read there is no listing.
#![tactic(auto)]

mod failure;

ghost use Rattle.std.specs.Prelude.{◌<◌, take, length, IfOk};
ghost use Rattle.std.specs.Io.{ReadsAtMost};
ghost use Rattle.std.specs.Io.KnownBytes.{Consumes, IsAtEnd, ReadConsumes};

use failure::fail;
use listing::from_text::list;
use std::env::{Env, FillError};
use std::io;
use std::io::{Read, Stderr, Stdout};

// What one read puts at the start of text: nothing at the end of the input.
fn read_part<R: Read>(input: &mut R, text: &mut [u8]) -> io::Result<usize>
    ensures bound { ReadsAtMost result text.new }
    ensures bytes { ReadConsumes (R.remaining input.old) (R.remaining input.new) result text.new }
{
    input.read(text)
}

// The input to its end, or as much of it as there is room for. The loop is written out: std's `read_to_end` stores on the heap.
fn read_input<R: Read>(input: &mut R, text: &mut [u8]) -> io::Result<usize>
    ensures bound { ReadsAtMost result text.new }
    ensures bytes { IfOk result (λ n. Consumes (R.remaining input.old) (R.remaining input.new) (take n text.new)) }
    ensures end { IfOk result (λ n. n < length text.new → IsAtEnd (R.remaining input.new)) }
{
    let mut n = 0;
    while n < text.len() {
        let part = read_part(input, &mut text[n..])?;
        if part == 0 {
            return Ok(n);
        }
        n += part;
    }
    Ok(n)
}

// Prints the listing of a text. 4,096 bytes hold the longest.
fn print_listing(stdout: Stdout, stderr: Stderr, text: &[u8]) {
    let mut out = [0u8; 4096];
    if let Ok(n) = list(text, &mut out)
        && let Err(error) = stdout.write_all(&out[..n])
    {
        fail(stderr, "narrow: standard output", error);
    }
}

// Whether there is an argument after the program's name.
fn has_argument(env: &impl Env) -> bool {
    let mut start = [0u8; 1];
    !matches!(env.arg(1, &mut start), Err(FillError::NotPresent))
}

// One byte more than the longest text is room enough to refuse a longer one.
fn main(rt: HostRuntime) {
    let stderr = rt.stderr();
    if has_argument(&rt) {
        let _ = println!(stderr; "usage: narrow <sheet");
        return;
    }
    let mut text = [0u8; 8193];
    match read_input(&mut rt.stdin(), &mut text) {
        Ok(n) => print_listing(rt.stdout(), stderr, &text[..n]),
        Err(error) => fail(stderr, "narrow: standard input", error),
    }
}
