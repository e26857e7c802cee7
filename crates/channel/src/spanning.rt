// The highest number of the rows, and the nets with spans as a list in rising number.
ghost use Rattle.std.specs.Prelude.{◌≡◌, max, length};
ghost use Rattle.lists.specs.Lists.{greatest, overlay};
ghost use Rattle.channel.specs.Channel.{spanning};

use crate::Columns;

// The greatest of `highest` and the numbers of a row.
pub fn highest_number(row: &[u32], mut highest: u32) -> u32
    ensures { result ≡ max highest (greatest row.now) }
{
    for &n in row {
        highest = highest.max(n);
    }
    highest
}

impl<'a, 'b> Columns<'a, 'b> {
    // Puts the nets with spans at the front of `items`, in rising number; answers how many there are. No number is
    // looked at that is above those of the rows.
    // The front of a lent slice and a count: docs/PROMISES.md names the function so, and there is no heap.
    pub fn list_spanning(&self, items: &mut [u32]) -> usize
        requires { length items.old ≡ 512 }
        ensures { (result ≡ length (spanning self.now)) × (items.new ≡ overlay (spanning self.now) items.old) }
    {
        let (top, bot, first, last) = (self.top, self.bot, self.first, self.last);
        let upper = highest_number(top, 0);
        let highest = highest_number(bot, upper) as usize;
        let mut count: usize = 0;
        for n in 1..highest + 1 {
            if first[n] < last[n] {
                items[count] = n as u32;
                count += 1;
            }
        }
        count
    }
}
