// A sheet as every result has it: each end in its one pattern, unused places zero.
ghost use Rattle.std.specs.Prelude.{◌≡◌, Ok, map, ◌≤◌, length, take, replicate};
ghost use Rattle.sheet.specs.Sheets.{filled, first_fault, tidied, test_of};

use crate::item::Item;
use crate::kept::Sheet;

// Tidies each of some items, all faultless.
fn tidy_each<T: Item>(bound: u64, items: &mut [T])
    requires { first_fault (T.fault bound) 0 items.old ≡ Ok tt }
    ensures { items.new ≡ map (T.tidied bound) items.old }
{
    for item in items.iter_mut() {
        *item = item.tidied(bound);
    }
}

// Leaves every place unused.
fn clear_each<T: Item>(places: &mut [T])
    ensures { places.new ≡ replicate (length places.old) T.UNUSED }
{
    for place in places.iter_mut() {
        *place = T::UNUSED;
    }
}

// The first places, so many as are in use and each faultless, are tidied, and the others unused.
fn tidy_items<T: Item>(bound: u64, count: u64, places: &mut [T])
    requires { (count ≤ length places.old) × (first_fault (T.fault bound) 0 (take count places.old) ≡ Ok tt) }
    ensures { places.new ≡ filled (length places.old) T.UNUSED (map (T.tidied bound) (take count places.old)) count }
{
    let (used, unused) = places.split_at_mut(count as usize);
    tidy_each(bound, used);
    clear_each(unused);
}

// Tidies a sheet that the test lets pass, in its place, which spares copies of the whole of it.
pub(crate) fn tidy(sheet: &mut Sheet)
    requires { test_of sheet.old ≡ Ok tt }
    ensures { sheet.new ≡ tidied sheet.old }
{
    let count = sheet.cell_count;
    tidy_items(sheet.width, count, &mut sheet.cells);
    tidy_items(count, sheet.record_count, &mut sheet.records);
}
