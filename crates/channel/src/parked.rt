// The parked pins of a channel removed, so that what follows works on rows that show nets only.
ghost use Rattle.std.specs.Prelude.{◌≡◌, ℕ, ◌≤◌, ◌<◌, length, get_or, replicate, cond, Option, None, Some};
ghost use Rattle.lists.specs.Lists.{overlay, any_of};
ghost use Rattle.lists.specs.Counts.{tally};
ghost use Rattle.channel.specs.Channel.{Channel, rows, widest, without_parked};
ghost use Rattle.channel.specs.Rows.{first_high, once, nets_of_row};
ghost use Rattle.channel.specs.Parked.{has_parked, NetsOnly, ParkedRemoved};

use crate::Rows;
use grid::{NET_SLOTS, WIDEST};
use std::marker::Model;

// Rows that show nets only: every number but 0 names a net that is routed.
#[derive(Drop)]
pub struct Nets<'a> {
    pub top: &'a [u32],
    pub bot: &'a [u32],
}

impl<'a> Model for Nets<'a> {
    ghost Value = { Channel };

    ghost view = { λ r. rows r.top.now r.bot.now };

    ghost invariant = { λ r. NetsOnly (rows r.top.now r.bot.now) };
}

// Counts each number of a row one more time; the numbers are at most 511, and no count is near its limit.
// A row alone has no type: `Rows` holds this of both, and a type for one would serve three private functions.
fn count_pins(row: &[u32], counts: &mut [u32; NET_SLOTS])
    requires { (first_high row.now ≡ 0) × (length row.now ≤ widest)
        × ((n : ℕ) → n < 512 → get_or counts.old n 0 ≤ widest) }
    ensures { counts.new ≡ tally row.now counts.old }
{
    for &n in row {
        counts[n as usize] += 1;
    }
}

// Counts the pins of each number of a channel, in counts that begin at 0.
fn count_rows(rows: &Rows, counts: &mut [u32; NET_SLOTS])
    requires { counts.old ≡ replicate 512 0 }
    ensures { counts.new ≡ tally rows.now.bot (tally rows.now.top counts.old) }
{
    let (top, bot) = (rows.top, rows.bot);
    count_pins(top, counts);
    count_pins(bot, counts);
}

// Some number of a row is counted just once.
fn any_once(row: &[u32], counts: &[u32; NET_SLOTS]) -> bool
    requires { first_high row.now ≡ 0 }
    ensures { result ≡ any_of (once counts.now) row.now }
{
    for &n in row {
        if counts[n as usize] == 1 {
            return true;
        }
    }
    false
}

// Some pin of a channel is parked.
fn has_parked(rows: &Rows) -> bool
    ensures { result ≡ has_parked rows.now }
{
    let (top, bot) = (rows.top, rows.bot);
    let mut counts = [0u32; NET_SLOTS];
    count_rows(rows, &mut counts);
    // a place without a pin is not parked
    counts[0] = 0;
    any_once(top, &counts) || any_once(bot, &counts)
}

// Puts a row at the front of `kept`, with 0 for each number that is counted just once.
fn keep_nets(row: &[u32], counts: &[u32; NET_SLOTS], kept: &mut [u32; WIDEST])
    requires { (first_high row.now ≡ 0) × (length row.now ≤ widest) }
    ensures { kept.new
        ≡ overlay (nets_of_row counts.now row.now) kept.old }
{
    for (i, &n) in row.iter().enumerate() {
        kept[i] = if counts[n as usize] == 1 { 0 } else { n };
    }
}

// Puts the rows of a channel at the front of `upper` and `lower`, without its parked pins. Here and in `has_parked` alone
// parked numbers are told from nets.
pub fn remove_parked(rows: &Rows, upper: &mut [u32; WIDEST], lower: &mut [u32; WIDEST])
    ensures { ParkedRemoved rows.now upper.old lower.old upper.new lower.new }
{
    let (top, bot) = (rows.top, rows.bot);
    let mut counts = [0u32; NET_SLOTS];
    count_rows(rows, &mut counts);
    keep_nets(top, &counts, upper);
    keep_nets(bot, &counts, lower);
}

impl<'a> Rows<'a> {
    // The rows as they are, where no pin is parked.
    pub fn nets(&self) -> Option<Nets<'a>>
        ensures { result ≡ cond (has_parked self.now) None (Some self.now) }
    {
        let (top, bot) = (self.top, self.bot);
        if has_parked(self) {
            return None;
        }
        Some(Nets { top, bot })
    }

    // The rows without their parked pins, in rows that are lent for it.
    pub fn without_parked<'b>(
        &self,
        upper: &'b mut [u32; WIDEST],
        lower: &'b mut [u32; WIDEST],
    ) -> Nets<'b>
        ensures { result ≡ without_parked self.now }
    {
        let w = self.top.len();
        remove_parked(self, upper, lower);
        Nets {
            top: &upper[..w],
            bot: &lower[..w],
        }
    }
}
