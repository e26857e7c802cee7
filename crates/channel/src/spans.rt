// The first and the last pin column of every net, in one pass over the columns.
ghost use Rattle.std.specs.Prelude.{◌≡◌, ◌≤◌, set, replicate};
ghost use Rattle.grid.specs.Pieces.{column};
ghost use Rattle.grid.specs.Numbers.{column_numbers};
ghost use Rattle.channel.specs.Channel.{Channel, highest_net, rows};
ghost use Rattle.channel.specs.Spans.{firsts, lasts, first_noted, ColumnsFound};

use crate::Nets;
use grid::{Column, NET_SLOTS, Net};
use std::marker::Model;

// Rows that show nets only, with the first and the last column of each net, by its number.
// Column 0 is none: `firsts` and `lasts`, named in docs/PROMISES.md, are tables of plain numbers.
#[derive(Drop)]
pub struct Columns<'a, 'b> {
    pub top: &'a [u32],
    pub bot: &'a [u32],
    // two tables and none of pairs: two of 2,048 bytes are cleared faster than one of 4,096, as measured
    pub first: &'b [Column; NET_SLOTS],
    pub last: &'b [Column; NET_SLOTS],
}

impl<'a, 'b> Model for Columns<'a, 'b> {
    ghost Value = { Channel };

    ghost view = { λ r. rows r.top.now r.bot.now };

    ghost invariant = { λ r. ColumnsFound (rows r.top.now r.bot.now) (column_numbers r.first.now) (column_numbers r.last.now) };
}

// Notes a pin of net n in column c, which is no earlier than the columns noted so far.
fn note(first: &mut [Column; NET_SLOTS], last: &mut [Column; NET_SLOTS], n: Net, c: Column)
    requires { n.0 ≤ highest_net }
    ensures { (column_numbers first.new ≡ first_noted (column_numbers first.old) n.0 c.0)
        × (column_numbers last.new ≡ set (column_numbers last.old) n.0 c.0) }
{
    let i = n.0 as usize;
    if first[i].0 == 0 {
        first[i] = c;
    }
    last[i] = c;
}

// The first and the last pin column of every net, by its number, in tables that hold 0 everywhere. What is noted of
// number 0, which is no net's, is cleared. Inlined where the tables lie, `note` would store in every column, and each
// store would wait for the one before, since most are to number 0.
// That the tables hold 0 stays a clause: docs/PROMISES.md names this function over tables lent so.
#[inline(never)]
pub fn find_columns(nets: &Nets, first: &mut [Column; NET_SLOTS], last: &mut [Column; NET_SLOTS])
    requires { (first.old ≡ replicate 512 (column 0)) × (last.old ≡ replicate 512 (column 0)) }
    ensures { (column_numbers first.new ≡ firsts nets.now) × (column_numbers last.new ≡ lasts nets.now) }
{
    let (top, bot) = (nets.top, nets.bot);
    for i in 0..top.len() {
        let c = Column(i as u32 + 1);
        note(first, last, Net(top[i]), c);
        note(first, last, Net(bot[i]), c);
    }
    first[0] = Column(0);
    last[0] = Column(0);
}

impl<'a> Nets<'a> {
    // The nets with their columns, in tables lent for it, which hold 0 everywhere.
    pub fn columns<'b>(
        &self,
        first: &'b mut [Column; NET_SLOTS],
        last: &'b mut [Column; NET_SLOTS],
    ) -> Columns<'a, 'b>
        requires { (first.old ≡ replicate 512 (column 0)) × (last.old ≡ replicate 512 (column 0)) }
        ensures { result ≡ self.now }
    {
        find_columns(self, first, last);
        Columns {
            top: self.top,
            bot: self.bot,
            first,
            last,
        }
    }
}
