// The fill of a channel: its nets with spans as items.
ghost use Rattle.std.specs.Prelude.{◌≡◌, ◌≤◌, length, replicate};
ghost use Rattle.lists.specs.Lists.{overlay};
ghost use Rattle.refusal.specs.Trays.{ring_tray};
ghost use Rattle.grid.specs.Pieces.{column};
ghost use Rattle.grid.specs.Numbers.{column_numbers, track_numbers};
ghost use Rattle.channel.specs.Spans.{spans};
ghost use Rattle.leftedge.specs.Nets.{fill_order, net_items, fill, looks};
ghost use Rattle.leftedge.specs.Tables.{FillEnds};
ghost use Rattle.leftedge.specs.Code.{FillDone, NetsBegin};

use crate::columns::copy_columns;
use crate::ring::show_ring;
use crate::tracks::{FillEnd, ItemsFilled, Tables, fill_items};
use crate::{Filled, Outcome};
use channel::{Columns, Nets};
use grid::{COLUMN_SLOTS, Column, NET_SLOTS, Track};

// The nets with spans at the front of `order`, in the order of the scan; answers how many there are.
// The order is the front of a lent slice and a count: there is no heap.
fn net_order(
    columns: &Columns,
    next: &mut [u16; COLUMN_SLOTS],
    order: &mut [u32; NET_SLOTS],
) -> usize
    ensures { (result ≡ length (fill_order columns.now)) × (order.new ≡ overlay (fill_order columns.now) order.old) }
{
    let first = columns.first;
    let w = columns.top.len();
    let mut head = [0u16; COLUMN_SLOTS];
    let count = columns.list_spanning(order);
    items::sort_items(&mut order[..count], first, &mut head[..w + 1], next);
    count
}

// Fills tracks with the nets at the front of `left`, which are in the order of the scan. It is lent `Nets` and no
// `Columns`, so that the copy in 16 bits is all that it has of columns, as docs/PROMISES.md says under Req 06.
// The count stays beside, as in `scan_track`.
fn fill_nets(
    nets: &Nets,
    first: &[u16; NET_SLOTS],
    last: &[u16; NET_SLOTS],
    next: &mut [u16; COLUMN_SLOTS],
    left: &mut [u32],
    count: usize,
    tracks: &mut [Track],
) -> ItemsFilled
    requires { NetsBegin nets.now first.now last.now left.old count (track_numbers tracks.old) }
    ensures { FillEnds (net_items nets.now) (fill nets.now) result left.new (track_numbers tracks.new) }
{
    let (top, bot) = (nets.top, nets.bot);
    let mut head = [0u16; NET_SLOTS];
    let mut under = [0u16; NET_SLOTS];
    // Each item is a net of its own: an empty table and no closure, since the laws of the fill (`Tabled`) are of tables.
    let parts = [0u32; 0];
    items::link_steps(top, bot, &mut head, next, &mut under);
    let tables = Tables {
        first,
        last,
        nets: &parts,
        upper: top,
        head: &head,
        next,
    };
    fill_items(tables, &mut under, left, count, tracks)
}

// Fills tracks with the nets with spans. `left` and `tracks` then have what `fill_nets` leaves.
// Three functions end in `FillEnds`, since each hands on what the one below answers. The count stays beside, as in
// `scan_track`.
fn fill_found(
    columns: &Columns,
    left: &mut [u32; NET_SLOTS],
    tracks: &mut [Track; NET_SLOTS],
) -> ItemsFilled
    requires { track_numbers tracks.old ≡ replicate 512 0 }
    ensures { FillEnds (net_items columns.now) (fill columns.now) result left.new (track_numbers tracks.new) }
{
    let nets = Nets {
        top: columns.top,
        bot: columns.bot,
    };
    // links of the nets by first column, then of the steps by lower net
    let mut next = [0u16; COLUMN_SLOTS];
    let mut begins = [0u16; NET_SLOTS];
    let mut ends = [0u16; NET_SLOTS];
    let count = net_order(columns, &mut next, left);
    copy_columns(columns, &mut begins, &mut ends);
    fill_nets(&nets, &begins, &ends, &mut next, left, count, tracks)
}

// `fill_tracks` in tables that hold 0 everywhere.
#[inline(never)]
fn fill_cleared(
    nets: &Nets,
    first: &mut [Column; NET_SLOTS],
    last: &mut [Column; NET_SLOTS],
    tracks: &mut [Track; NET_SLOTS],
    ring: &mut [u32],
) -> Filled
    requires { (first.old ≡ replicate 512 (column 0)) × (last.old ≡ replicate 512 (column 0))
        × (track_numbers tracks.old ≡ replicate 512 0) × (ring_tray ≤ length ring.old) }
    ensures { FillDone nets.now ring.old result (spans (column_numbers first.new) (column_numbers last.new))
        (track_numbers tracks.new) ring.new }
{
    channel::find_columns(nets, first, last);
    // the tables are the caller's, who reads the columns afterwards
    let columns = Columns {
        top: nets.top,
        bot: nets.bot,
        first,
        last,
    };
    let mut left = [0u32; NET_SLOTS];
    let filled = fill_found(&columns, &mut left, tracks);
    let outcome = match filled.end {
        FillEnd::Placed(t) => Outcome::Placed(t),
        FillEnd::Stuck(n) => {
            let pairs = show_ring(nets, tracks, &left[..n], ring);
            *tracks = [Track(0); NET_SLOTS];
            Outcome::Stuck(pairs)
        }
    };
    Filled {
        outcome,
        looks: filled.looks,
    }
}

// Fills the tracks of a channel: stores the columns and the track of each net by its number, 0 everywhere else. Where
// the fill is stuck, the ring's pairs fill the front of `ring`, and no net has a track. Short, so that it is inlined where
// the tables are made, which are then cleared once.
// The ring is a slice with its room in a clause, and track 0 is none: docs/PROMISES.md names `FillDone` so.
pub fn fill_tracks(
    nets: &Nets,
    first: &mut [Column; NET_SLOTS],
    last: &mut [Column; NET_SLOTS],
    tracks: &mut [Track; NET_SLOTS],
    ring: &mut [u32],
) -> Filled
    requires { ring_tray ≤ length ring.old }
    ensures { FillDone nets.now ring.old result (spans (column_numbers first.new) (column_numbers last.new))
        (track_numbers tracks.new) ring.new }
{
    *first = [Column(0); NET_SLOTS];
    *last = [Column(0); NET_SLOTS];
    *tracks = [Track(0); NET_SLOTS];
    fill_cleared(nets, first, last, tracks, ring)
}

// How many looks the fill of a channel takes, filled or stuck.
pub fn count_looks(nets: &Nets) -> usize
    ensures { result ≡ looks nets.now }
{
    let mut first = [Column(0); NET_SLOTS];
    let mut last = [Column(0); NET_SLOTS];
    let columns = nets.columns(&mut first, &mut last);
    let mut left = [0u32; NET_SLOTS];
    let mut tracks = [Track(0); NET_SLOTS];
    let filled = fill_found(&columns, &mut left, &mut tracks);
    filled.looks
}
