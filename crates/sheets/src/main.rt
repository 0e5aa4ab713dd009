// Test program: kept sheets made call by call and written, kept sheets of garbage, and lent lists, each beside the kept sheet of the same cells and records: 01's sheets, records of each kind, records that name a cell more than once, and lists of many lengths. What it writes is held to the file `stdout`.
#![tactic(auto)]

mod building;
mod cases;
mod compare;
mod garbage;
mod lending;
mod lists;
mod print;
mod repeated;
mod reply;
mod tally;
mod writing;

fn main(rt: HostRuntime) {
    let out = rt.stdout();
    writing::read_rooms(out, building::build(out));
    garbage::read_garbage(out);
    lists::read_lists(out);
    repeated::read_repeated(out);
    compare::compare_lists(out)
}
