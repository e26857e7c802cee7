// The walk that shows a ring where the fill is stuck.
ghost use Rattle.std.specs.Prelude.{◌≡◌, ◌*◌, ◌≤◌, ◌<◌, length};
ghost use Rattle.lists.specs.Lists.{least, overlay};
ghost use Rattle.refusal.specs.Trays.{ring_tray};
ghost use Rattle.grid.specs.Numbers.{track_numbers};
ghost use Rattle.channel.specs.Spans.{each512};
ghost use Rattle.leftedge.specs.Walk.{ring_numbers};
ghost use Rattle.leftedge.specs.Ring.{lowest_drop, net_below, met, steps_by, Confined, Closes};
ghost use Rattle.leftedge.specs.Code.{RingShown, WalkFrom};

use channel::Nets;
use grid::{NET_SLOTS, Net, Track};

// For each net number its lowest column that has a net without a track below it, 0 if there is none.
// 0 is no column: `store_pairs`, named in docs/PROMISES.md, is lent this table of numbers.
fn lowest_drops(nets: &Nets, tracks: &[Track; NET_SLOTS]) -> [u32; NET_SLOTS]
    ensures { result ≡ each512 (lowest_drop nets.now (track_numbers tracks.now)) }
{
    let (top, bot) = (nets.top, nets.bot);
    let mut columns = [0u32; NET_SLOTS];
    // no loop shared with `home_columns` of rings: a closure for the test would cost a law for five lines
    for i in (0..top.len()).rev() {
        let a = top[i];
        let b = bot[i];
        if (a != 0) & (b != 0) & (a != b) & (tracks[b as usize].0 == 0) {
            columns[a as usize] = i as u32 + 1;
        }
    }
    columns
}

// The lowest of the nets `left`, of which there are some.
fn lowest_net(left: &[u32]) -> Net
    requires { 0 < length left.now }
    ensures { result.0 ≡ least left.now }
{
    let mut least = left[0];
    for &n in &left[1..] {
        least = least.min(n);
    }
    Net(least)
}

// Where a walk closes: the net that is met again, and the number of steps between its two visits.
#[derive(Clone, Copy)]
struct Walked {
    again: Net,
    count: u32,
}

// Walks down from net `start` until a net is met again. `visits` has for each net 1 plus the steps to it, 0 if it is
// not visited.
fn walk_down(bot: &[u32], columns: &[u32; NET_SLOTS], start: Net) -> Walked
    requires { Confined bot.now columns.now start.0 }
    ensures { Closes (net_below bot.now columns.now) start.0 result.again.0 result.count }
{
    // 0 and no Option, since the marks begin at 1
    let mut visits = [0u32; NET_SLOTS];
    let mut n = start.0 as usize;
    let mut mark: u32 = 1;
    // a `while`: the next net is read from the rows, until one is met again
    while visits[n] == 0 {
        visits[n] = mark;
        mark += 1;
        n = bot[columns[n] as usize - 1] as usize;
    }
    Walked {
        again: Net(n as u32),
        count: mark - visits[n],
    }
}

// Walks `count` steps down from net `again` and stores them as pairs, net and column, at the front of `ring`.
// The ring is the flat buffer that C lends, with the pairs at its front.
pub fn store_pairs(
    bot: &[u32],
    columns: &[u32; NET_SLOTS],
    again: Net,
    count: u32,
    ring: &mut [u32],
)
    requires { Confined bot.now columns.now again.0 × (count ≤ 511)
        × (2 * count ≤ length ring.old) }
    ensures { ring.new
        ≡ overlay (ring_numbers (steps_by columns.now
        (met (net_below bot.now columns.now) again.0 count))) ring.old }
{
    let mut n = again.0;
    for i in 0..count {
        let at = 2 * i as usize;
        let c = columns[n as usize];
        ring[at] = n;
        ring[at + 1] = c;
        n = bot[c as usize - 1];
    }
}

// Shows the ring of the unplaced nets `left`; answers the number of pairs.
pub fn show_ring(nets: &Nets, tracks: &[Track; NET_SLOTS], left: &[u32], ring: &mut [u32]) -> u32
    requires { WalkFrom nets.now (track_numbers tracks.now) left.now × (ring_tray ≤ length ring.old) }
    ensures { RingShown nets.now left.now ring.old result ring.new }
{
    let bot = nets.bot;
    let columns = lowest_drops(nets, tracks);
    let walked = walk_down(bot, &columns, lowest_net(left));
    store_pairs(bot, &columns, walked.again, walked.count, ring);
    walked.count
}
