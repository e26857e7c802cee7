// The fill of items, track by track, over tables by item number; `under` counts the steps below each item that lead to
// unplaced ones. Each look at an unplaced item is counted.
ghost use Rattle.std.specs.Prelude.{◌≡◌, ◌<◌, List, length, take, get_or};
ghost use Rattle.std.proofs.Math.Option.{none};
ghost use Rattle.grid.specs.Numbers.{track_numbers};
ghost use Rattle.leftedge.specs.Items.{Items, Place};
ghost use Rattle.leftedge.specs.Fill.{scan, fill_items};
ghost use Rattle.leftedge.specs.Tables.{net_at, may_follow};
ghost use Rattle.leftedge.specs.Tables.{ScanBegins, ScanFrom, ScanDone, FillBegins, FillFrom, FillEnds};

use grid::Track;

// What a fill of items only reads, by item number.
#[derive(Clone, Copy)]
pub struct Tables<'a> {
    // the columns of each item, in 16 bits
    pub first: &'a [u16],
    pub last: &'a [u16],
    // the net that it is a part of
    pub nets: &'a [u32],
    // the places of `upper` in which it stands below, linked by `head` and `next`
    pub upper: &'a [u32],
    pub head: &'a [u16],
    pub next: &'a [u16],
}

// How the fill of items ends.
// Not `Outcome`: stuck, this tells the items left, and that the pairs of the ring shown.
#[derive(Clone, Copy, Debug, PartialEq, Eq)]
pub enum FillEnd {
    // every item is placed, on so many tracks
    Placed(u32),
    // a track stays empty, and so many items are left
    Stuck(usize),
}

// A fill of items: how it ends, and how many unplaced items it looked at, once per track scan.
#[derive(Clone, Copy)]
pub struct ItemsFilled {
    pub end: FillEnd,
    pub looks: usize,
}

// A scan for one track: how many items are left, and how many it looked at.
#[derive(Clone, Copy)]
struct Scanned {
    rest: usize,
    looks: usize,
}

impl Tables<'_> {
    // The net that item n is a part of; an item past the end of `nets` is a net of its own.
    fn net_of(self, n: u32) -> u32
        ensures { result ≡ net_at self.entry.nets.now n }
    {
        self.nets.get(n as usize).copied().unwrap_or(n)
    }

    // Item n may follow on a track one of net `net` that ends in column `end`.
    fn may_follow(self, n: u32, end: u16, net: u32) -> bool
        requires { n < length self.first.now }
        ensures { result ≡ may_follow end net (get_or self.entry.first.now n 0) (net_at self.entry.nets.now n) }
    {
        let start = self.first[n as usize];
        if start < end {
            return false;
        }
        end != start || net == self.net_of(n)
    }
}

// One scan of the first `count` items of `left` for track k: those placed get the track, the others move to the front
// in their order.
// The count stays beside, no plainer cut to it: the items left move to the front of one lent slice from scan to scan, and
// after each scan the part would have to be shown to be the front of the whole again.
fn scan_track(
    tables: Tables<'_>,
    under: &mut [u16],
    left: &mut [u32],
    count: usize,
    tracks: &mut [Track],
    k: Track,
) -> Scanned
    requires { ScanFrom tables.first.now tables.last.now tables.nets.now tables.upper.now
        tables.head.now tables.next.now under.old left.old
        count (track_numbers tracks.old) }
    ensures { (it : Items) (ps : List Place)
        → ScanBegins it ps tables.entry.first.now tables.entry.last.now tables.entry.nets.now tables.entry.upper.now
        tables.entry.head.now tables.entry.next.now under.old left.old count (track_numbers tracks.old)
        → ScanDone it (take count left.old)
        (scan it k.0 none ps (take count left.old)) result under.new
        left.new (track_numbers tracks.new) }
{
    // the last column and the net of the item placed before on this track, 0 if there is none
    // 0 and no Option: each column is past 0, so that one test serves the first item too
    let mut end: u16 = 0;
    let mut net: u32 = 0;
    let mut rest: usize = 0;
    let mut looks: usize = 0;
    for i in 0..count {
        let item = left[i];
        let n = item as usize;
        if under[n] == 0 && tables.may_follow(item, end, net) {
            tracks[n] = k;
            end = tables.last[n];
            net = tables.net_of(item);
            items::lower_above(tables.upper, tables.next, tables.head[n], under);
            looks += 1;
        } else {
            left[rest] = item;
            rest += 1;
            looks += 1; // an item that is left was looked at too
        }
    }
    Scanned { rest, looks }
}

// Fills tracks with the first `count` items of `left`. Where the fill is stuck, the items left stand at the front.
// The count stays beside, as in `scan_track`.
pub fn fill_items(
    tables: Tables<'_>,
    under: &mut [u16],
    left: &mut [u32],
    count: usize,
    tracks: &mut [Track],
) -> ItemsFilled
    requires { FillFrom tables.first.now tables.last.now tables.nets.now tables.upper.now
        tables.head.now tables.next.now under.old left.old
        count (track_numbers tracks.old) }
    ensures { (it : Items)
        → FillBegins it tables.entry.first.now tables.entry.last.now tables.entry.nets.now tables.entry.upper.now
        tables.entry.head.now tables.entry.next.now under.old left.old count (track_numbers tracks.old)
        → FillEnds it (fill_items it) result left.new (track_numbers tracks.new) }
{
    let mut rest = count;
    let mut looks: usize = 0;
    let mut done: u32 = 0;
    // a loop left by `break` with the outcome, the form that docs/SCOPE.md names
    loop {
        if rest == 0 {
            break ItemsFilled {
                end: FillEnd::Placed(done),
                looks,
            };
        }
        let scanned = scan_track(tables, under, left, rest, tracks, Track(done + 1));
        let looked = looks + scanned.looks;
        if scanned.rest == rest {
            break ItemsFilled {
                end: FillEnd::Stuck(rest),
                looks: looked,
            };
        }
        rest = scanned.rest;
        looks = looked;
        done += 1;
    }
}
