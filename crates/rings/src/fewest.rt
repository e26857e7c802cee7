// The ring with the fewest nets of a channel: a search for each net finds where it begins, and the pairs are gone down
// from there.
ghost use Rattle.std.specs.Prelude.{◌≡◌, ℕ, ◌≤◌, ◌<◌, length};
ghost use mathlib.Core.List.{List, Memᴰ};
ghost use Rattle.lists.specs.Lists.{overlay};
ghost use Rattle.refusal.specs.Trays.{ring_tray};
ghost use Rattle.channel.specs.Channel.{highest_net};
ghost use Rattle.channel.specs.Spans.{each512};
ghost use Rattle.items.specs.Steps.{Stepped};
ghost use Rattle.leftedge.specs.Walk.{ring_numbers};
ghost use Rattle.rings.specs.Answers.{pairs_answer};
ghost use Rattle.rings.specs.Fewest.{fewest, homeward, fewest_ring};
ghost use Rattle.rings.specs.Search.{numbers, StepsKnown, StepsBack, NearestOf, nearer, home_column, CanShow};

use crate::search::search;
use channel::{Nets, Rows};
use grid::{COLUMN_SLOTS, NET_SLOTS, Net, WIDEST};

// The fewest steps down from net n back to itself, if any lead back. `queue` is room for the nets found. Kept out of
// line: laid among the tables of its caller, `far` may lie a multiple of 4,096 bytes from `head`, and each look then
// waits for the store before, which makes the search of large rings half again as long.
#[inline(never)]
fn way_back(
    upper: &[u32],
    head: &[u16; NET_SLOTS],
    next: &[u16; COLUMN_SLOTS],
    n: usize,
    queue: &mut [u16; NET_SLOTS],
) -> Option<u32>
    requires { StepsKnown upper.now head.now next.now × Memᴰ n numbers }
    ensures { (below : ℕ → List ℕ) → Stepped below numbers upper.now head.now next.now
        → StepsBack below n result }
{
    let mut far = [0u16; NET_SLOTS];
    search(upper, head, next, n, &mut far, queue);
    let steps = far[n];
    if steps == 0 {
        None
    } else {
        Some(u32::from(steps))
    }
}

// Where the ring begins, and how many nets it has.
#[derive(Clone, Copy)]
struct Start {
    net: u32,
    nets: u32,
}

// The lowest of the nets up to `highest` from which the fewest steps lead back, and these steps.
fn nearest(
    upper: &[u32],
    head: &[u16; NET_SLOTS],
    next: &[u16; COLUMN_SLOTS],
    highest: u32,
) -> Option<Start>
    requires { StepsKnown upper.now head.now next.now × (highest ≤ highest_net) }
    ensures { (below : ℕ → List ℕ) → Stepped below numbers upper.now head.now next.now
        → NearestOf below highest result }
{
    // cleared once for all searches
    let mut queue = [0u16; NET_SLOTS];
    let mut found: Option<Start> = None;
    for n in 1..highest + 1 {
        if let Some(nets) = way_back(upper, head, next, n as usize, &mut queue) {
            match found {
                Some(start) if start.nets <= nets => {}
                _ => found = Some(Start { net: n, nets }),
            }
        }
    }
    found
}

// Net b, directly below net a, is one step nearer to net `home`.
fn nearer(far: &[u16; NET_SLOTS], home: u32, a: u32, b: u32) -> bool
    requires { (a ≤ highest_net) × (b ≤ highest_net) }
    ensures { result ≡ nearer far.now home a b }
{
    let steps = u32::from(far[a as usize]);
    if b == home {
        return steps == 1;
    }
    let left = u32::from(far[b as usize]);
    (left != 0) & (steps == left + 1)
}

// For each net number its lowest column over a net that is one step nearer to net `home`, 0 if there is none.
// 0 is no column: `leftedge::store_pairs`, named in docs/PROMISES.md, is lent this table of numbers.
fn home_columns(nets: &Nets, far: &[u16; NET_SLOTS], home: u32) -> [u32; NET_SLOTS]
    ensures { result ≡ each512 (home_column nets.now far.now home) }
{
    let (top, bot) = (nets.top, nets.bot);
    let mut columns = [0u32; NET_SLOTS];
    // no loop shared with `lowest_drops` of leftedge: a closure for the test would cost a law for five lines
    for i in (0..top.len()).rev() {
        let a = top[i];
        let b = bot[i];
        if (a != 0) & (b != 0) & (a != b) & nearer(far, home, a, b) {
            columns[a as usize] = i as u32 + 1;
        }
    }
    columns
}

// Puts the pairs of the ring of so many nets that begins at net `home` at the front of `ring`.
fn show_from(
    nets: &Nets,
    head: &[u16; NET_SLOTS],
    next: &[u16; COLUMN_SLOTS],
    home: u32,
    count: u32,
    ring: &mut [u32],
)
    requires { CanShow nets.now head.now next.now home count ring.old }
    ensures { ring.new ≡ overlay (ring_numbers (homeward nets.now count home home)) ring.old }
{
    let (top, bot) = (nets.top, nets.bot);
    let mut far = [0u16; NET_SLOTS];
    let mut queue = [0u16; NET_SLOTS];
    search(top, head, next, home as usize, &mut far, &mut queue);
    let columns = home_columns(nets, &far, home);
    leftedge::store_pairs(bot, &columns, Net(home), count, ring);
}

// The ring of a channel whose rows show nets only; answers the number of pairs.
fn fewest_of_nets(nets: &Nets, ring: &mut [u32]) -> Option<u32>
    requires { ring_tray ≤ length ring.old }
    ensures { (result ≡ pairs_answer (fewest nets.now))
        × (ring.new ≡ overlay (ring_numbers (fewest_ring nets.now)) ring.old) }
{
    let (top, bot) = (nets.top, nets.bot);
    let mut head = [0u16; NET_SLOTS];
    let mut next = [0u16; COLUMN_SLOTS];
    let mut under = [0u16; NET_SLOTS];
    items::link_steps(top, bot, &mut head, &mut next, &mut under);
    let highest = channel::highest_number(top, 0);
    let start = nearest(top, &head, &next, highest)?;
    show_from(nets, &head, &next, start.net, start.nets, ring);
    Some(start.nets)
}

// The same of a channel: a parked pin is on no ring.
// The ring is a slice with its room in a clause: C lends any length, and `FewestDone` speaks of the whole.
pub fn fewest_of(rows: &Rows, ring: &mut [u32]) -> Option<u32>
    requires { ring_tray ≤ length ring.old }
    ensures { (result ≡ pairs_answer (fewest rows.now))
        × (ring.new ≡ overlay (ring_numbers (fewest_ring rows.now)) ring.old) }
{
    let mut upper = [0u32; WIDEST];
    let mut lower = [0u32; WIDEST];
    fewest_of_nets(&rows.without_parked(&mut upper, &mut lower), ring)
}
