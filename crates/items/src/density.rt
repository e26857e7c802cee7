// Density: from how many items start and how many end in each column.
ghost use Rattle.std.specs.Prelude.{◌≡◌, ◌-◌, map, length};
ghost use Rattle.lists.specs.Lists.{up_to, greatest};
ghost use Rattle.lists.specs.Counts.{tally};
ghost use Rattle.grid.specs.Numbers.{column_numbers};
ghost use Rattle.items.specs.Order.{by_number};
ghost use Rattle.items.specs.Density.{densest, holding_by, Countable, Sweepable, Spanned};

use grid::Column;

// Counts each item one more time in its column.
fn count_columns(items: &[u32], columns: &[Column], counts: &mut [u32])
    requires { Countable items.now (column_numbers columns.now) counts.old }
    ensures { counts.new
        ≡ tally (map (by_number (column_numbers columns.now)) items.now) counts.old }
{
    for &n in items {
        let c = columns[n as usize].0 as usize;
        counts[c] += 1;
    }
}

// The most items over a column, from the counts of those that start and of those that end in each.
fn sweep(starts: &[u32], ends: &[u32]) -> u32
    requires { Sweepable starts.now ends.now }
    ensures { result
        ≡ greatest
        (map (holding_by starts.now ends.now) (up_to (length starts.now - 1))) }
{
    let mut carried: u32 = 0;
    let mut most: u32 = 0;
    for c in 1..starts.len() {
        let here = carried + starts[c];
        carried = here - ends[c];
        most = most.max(here);
    }
    most
}

// The density of items from their first and last columns. `starts` and `ends` have a place for each column and one for
// 0, all of them 0, and are left with the counts.
// Two tables and none of pairs: docs/PROMISES.md names this function over tables lent so (`Spanned`).
pub fn greatest_density(
    items: &[u32],
    first: &[Column],
    last: &[Column],
    starts: &mut [u32],
    ends: &mut [u32],
) -> u32
    requires { Spanned items.now (column_numbers first.now) (column_numbers last.now) starts.old ends.old }
    ensures { (result
        ≡ densest (by_number (column_numbers first.now)) (by_number (column_numbers last.now)) items.now
        (length starts.old - 1))
        × (starts.new
        ≡ tally (map (by_number (column_numbers first.now)) items.now) starts.old)
        × (ends.new
        ≡ tally (map (by_number (column_numbers last.now)) items.now) ends.old) }
{
    count_columns(items, first, starts);
    count_columns(items, last, ends);
    sweep(starts, ends)
}
