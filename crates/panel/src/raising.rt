// Numbers raised, and which of them would be too high.
ghost use Rattle.std.specs.Prelude.{◌≡◌, ◌++◌, map, ◌+◌, ◌≤◌, length};
ghost use Rattle.std.proofs.lemmas.List.Edits.{sets};
ghost use Rattle.lists.specs.Lists.{overlay};
ghost use Rattle.channel.specs.Channel.{rows, highest_net};
ghost use Rattle.panel.specs.Joined.{highest, raised};
ghost use Rattle.panel.specs.Code.{LowRow, lowest_over, lowest_of};

use grid::HIGHEST_NET;

// A number raised by so much; 0 means no pin and stays.
// A row that C lends has 0, and no None, where no pin is.
fn raise(n: u32, by: u32) -> u32
    requires { (n ≤ highest_net) × (by ≤ highest_net) }
    ensures { result ≡ raised by n }
{
    if n == 0 { 0 } else { by + n }
}

// Puts the numbers of a row, raised by so much, at place `at` of a lent row and behind it; the rest of it stays.
fn put_raised(row: &[u32], by: u32, to: &mut [u32], at: usize)
    requires { LowRow row.now × (by ≤ highest_net) × (at + length row.now ≤ length to.old) }
    ensures { to.new ≡ sets to.old at (map (raised by) row.now) }
{
    for (i, &n) in row.iter().enumerate() {
        to[at + i] = raise(n, by);
    }
}

// Puts a row of the first list, and behind it the row of the second, raised by so much, at the front of a lent row; the
// rest of it stays.
pub fn put_row(first: &[u32], second: &[u32], by: u32, to: &mut [u32])
    requires { LowRow first.now × LowRow second.now × (by ≤ highest_net)
        × (length first.now + length second.now ≤ length to.old) }
    ensures { to.new ≡ overlay (first.now ++ map (raised by) second.now) to.old }
{
    put_raised(first, 0, to, 0);
    put_raised(second, by, to, first.len());
}

// The highest number of a list, 0 if it has none.
// 0 and no None: the second list is raised by 0 then.
pub fn highest_of(top: &[u32], bot: &[u32]) -> u32
    ensures { result ≡ highest (rows top.now bot.now) }
{
    let upper = channel::highest_number(top, 0);
    channel::highest_number(bot, upper)
}

// The lowest of `lowest` and the numbers of a row that are over the limit.
fn lowest_over(row: &[u32], limit: u32, mut lowest: u32) -> u32
    ensures { result ≡ lowest_over limit row.now lowest }
{
    for &n in row {
        if limit < n && n < lowest {
            lowest = n;
        }
    }
    lowest
}

// The lowest number of a list that is over the limit, or 512.
// 512 and no None: by `chain`, `filter` and `min` over both rows joining example B takes a quarter longer, as measured.
pub fn lowest_of(top: &[u32], bot: &[u32], limit: u32) -> u32
    ensures { result ≡ lowest_of limit (rows top.now bot.now) }
{
    let tops = lowest_over(top, limit, HIGHEST_NET + 1);
    lowest_over(bot, limit, tops)
}
