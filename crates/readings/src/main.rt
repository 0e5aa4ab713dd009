// Test program: 01's readings of sums, intervals and narrowings, a line each. What it writes is held to the file `stdout`.
#![tactic(auto)]

mod floats;
mod intervals;
mod named;
mod narrowings;
mod print;
mod sums;
mod traps;

fn main(rt: HostRuntime) {
    let out = rt.stdout();
    sums::read_sums(out);
    intervals::read_intervals(out);
    narrowings::read_narrowings(out);
    traps::read_traps(out);
    floats::read_floats(out)
}
