// The fill's own copy of first and last columns, in 16-bit numbers (SCOPE, Req 06).
ghost use Rattle.std.specs.Prelude.{◌≡◌, ◌≤◌, get_or, set, replicate};
ghost use Rattle.grid.specs.Numbers.{column_numbers};
ghost use Rattle.channel.specs.Channel.{highest_net, widest};
ghost use Rattle.leftedge.specs.Columns.{ColumnsDue};

use channel::Columns;
use grid::{Column, NET_SLOTS, Net};

// Copies the columns of net n, of which none passes 512.
fn copy_net(
    first: &[Column; NET_SLOTS],
    last: &[Column; NET_SLOTS],
    begins: &mut [u16; NET_SLOTS],
    ends: &mut [u16; NET_SLOTS],
    n: Net,
)
    requires { (n.0 ≤ highest_net) × (get_or (column_numbers first.now) n.0 0 ≤ widest) × (get_or (column_numbers last.now) n.0 0 ≤ widest) }
    ensures { (begins.new ≡ set begins.old n.0 (get_or (column_numbers first.now) n.0 0))
        × (ends.new ≡ set ends.old n.0 (get_or (column_numbers last.now) n.0 0)) }
{
    let i = n.0 as usize;
    begins[i] = first[i].0 as u16;
    ends[i] = last[i].0 as u16;
}

// Copies the columns of every net, by its number, into tables that hold 0 everywhere. A net is copied at each of its
// pins: a small channel has fewer of these than there are numbers. So is 0, which stands where no pin is, and whose
// columns are 0. Two tables and none of pairs: `ColumnsDue`, which docs/requests/06.md names, is of two.
pub fn copy_columns(columns: &Columns, begins: &mut [u16; NET_SLOTS], ends: &mut [u16; NET_SLOTS])
    requires { (begins.old ≡ replicate 512 0) × (ends.old ≡ replicate 512 0) }
    ensures { ColumnsDue columns.now begins.new ends.new }
{
    let (top, bot, first, last) = (columns.top, columns.bot, columns.first, columns.last);
    for i in 0..top.len() {
        copy_net(first, last, begins, ends, Net(top[i]));
        copy_net(first, last, begins, ends, Net(bot[i]));
    }
}
