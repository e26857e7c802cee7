// The router of a channel handed over as rows.
#![tactic(auto)]

mod progress;

ghost use Rattle.std.specs.Prelude.{◌≡◌, ◌≤◌, length};
ghost use Rattle.lists.specs.Lists.{overlay};
ghost use Rattle.refusal.specs.Trays.{ring_tray, board_tray};
ghost use Rattle.grid.specs.Numbers.{column_numbers, track_numbers};
ghost use Rattle.channel.specs.Channel.{rows};
ghost use Rattle.channel.specs.Spans.{spans};
ghost use Rattle.router.specs.Route.{route_trays_with_records};
ghost use Rattle.router.specs.Code.{RouteDone, RowsDone};
ghost use Rattle.router.specs.Held.{HeldBy, Held, RefusedWith};
ghost use Rattle.router.specs.Tables.{records_by, no_records, Listed};
ghost use Rattle.leftedge.specs.Code.{FillDone};

use channel::Rows;
use grid::{Column, NET_SLOTS, Net, Track, WIDEST};
use leftedge::{Filled, NetRecord, Outcome};
pub use progress::{ceiling, looks};
use refusal::{BOARD_TRAY, RECORD_TRAY, RING_TRAY, Refusal};

// A board that was drawn.
#[derive(Clone, Copy, Debug, PartialEq, Eq)]
pub struct Drawn {
    pub tracks: u32,
    pub pieces: u32,
}

// The router's answer, with the net records at the front of a table: as many as `count` says, none under a refusal; the
// remainder is nobody's. `looks` is how many unplaced nets the fill looked at, filled or tangled, once per track scan;
// 0 where the fill was not begun.
// The count stands beside the answer: `RowsDone`, named in docs/PROMISES.md, says it of a refusal too.
#[derive(Clone, Copy)]
pub struct Routing {
    pub answer: Result<Drawn, Refusal>,
    pub records: [NetRecord; RECORD_TRAY],
    pub count: usize,
    pub looks: usize,
}

// Records of nobody, for a table that is yet to be filled.
#[tactic(auto, unfolding(crate::specs::Tables::no_records))]
fn blank_records() -> [NetRecord; RECORD_TRAY]
    ensures { result ≡ no_records }
{
    let nobody = NetRecord {
        number: Net(0),
        first: Column(0),
        last: Column(0),
        track: Track(0),
    };
    [nobody; RECORD_TRAY]
}

// Stores the record of each number that has a first column, in rising number, at the front of a table of nobody's;
// answers how many there are.
// Three tables: the tracks come from the fill, the columns from the channel.
fn make_records(
    first: &[Column; NET_SLOTS],
    last: &[Column; NET_SLOTS],
    tracks: &[Track; NET_SLOTS],
    records: &mut [NetRecord; RECORD_TRAY],
) -> usize
    requires { records.old ≡ no_records }
    ensures { Listed (records_by (spans (column_numbers first.now) (column_numbers last.now)) (track_numbers tracks.now)) records.new result }
{
    let mut count: usize = 0;
    for n in 1..NET_SLOTS {
        let begin = first[n];
        // column 0 is none, as in `channel::Columns`
        if begin.0 != 0 {
            records[count] = NetRecord {
                number: Net(n as u32),
                first: begin,
                last: last[n],
                track: tracks[n],
            };
            count += 1;
        }
    }
    count
}

// The answer of a refusal after so many looks.
fn refused(refusal: Refusal, looks: usize) -> Routing
    ensures { RefusedWith refusal looks result }
{
    Routing {
        answer: Err(refusal),
        records: blank_records(),
        count: 0,
        looks,
    }
}

// Fills the tracks of a channel, from its rows without the parked pins, into the tables lent. Rows without parked pins
// are taken as they are.
fn fill_nets(
    rows: &Rows,
    first: &mut [Column; NET_SLOTS],
    last: &mut [Column; NET_SLOTS],
    tracks: &mut [Track; NET_SLOTS],
    ring: &mut [u32],
) -> Filled
    requires { ring_tray ≤ length ring.old }
    ensures { FillDone rows.now ring.old result (spans (column_numbers first.new) (column_numbers last.new))
        (track_numbers tracks.new) ring.new }
{
    if let Some(nets) = rows.nets() {
        return leftedge::fill_tracks(&nets, first, last, tracks, ring);
    }
    let mut upper = [0u32; WIDEST];
    let mut lower = [0u32; WIDEST];
    leftedge::fill_tracks(
        &rows.without_parked(&mut upper, &mut lower),
        first,
        last,
        tracks,
        ring,
    )
}

// Routes a channel, with the buffers that it needs. A parked number has no columns, so that it gets no record and no
// copper.
// Ring and board are slices with room in a clause: C lends any lengths, and `Held` speaks of the whole.
fn route_checked(rows: &Rows, ring: &mut [u32], board: &mut [u8]) -> Routing
    requires { (ring_tray ≤ length ring.old) × (board_tray ≤ length board.old) }
    ensures { Held rows.now ring.old board.old result ring.new board.new }
{
    // opened for the proof, which needs that the rows escape the refusals
    let _ = &rows.top;
    let mut first = [Column(0); NET_SLOTS];
    let mut last = [Column(0); NET_SLOTS];
    let mut tracks = [Track(0); NET_SLOTS];
    let filled = fill_nets(rows, &mut first, &mut last, &mut tracks, ring);
    match filled.outcome {
        Outcome::Stuck(pairs) => refused(Refusal::Tangled(pairs as usize), filled.looks),
        Outcome::Placed(t) => {
            let pieces = drawing::draw_board(rows, &first, &last, &tracks, t, board);
            let mut records = blank_records();
            let count = make_records(&first, &last, &tracks, &mut records);
            Routing {
                answer: Ok(Drawn { tracks: t, pieces }),
                records,
                count,
                looks: filled.looks,
            }
        }
    }
}

// Routes rows of any lengths and numbers, with the records by value: refusals 1, of the buffers lent, 3 to 5 and 7.
fn route_by_value(top: &[u32], bot: &[u32], ring: &mut [u32], board: &mut [u8]) -> Routing
    ensures { Held (rows top.now bot.now) ring.old board.old result
        ring.new board.new }
{
    if ring.len() < RING_TRAY {
        return refused(Refusal::ShortTray(RING_TRAY), 0);
    }
    if board.len() < BOARD_TRAY {
        return refused(Refusal::ShortTray(BOARD_TRAY), 0);
    }
    // no `?`: a `Routing` is no Result, since it tells looks beside a refusal
    match Rows::accept(top, bot) {
        Err(refusal) => refused(refusal, 0),
        Ok(rows) => route_checked(&rows, ring, board),
    }
}

// The same where the caller lends a table of `room` records: one that is too short is refused first.
fn route_with_room(
    top: &[u32],
    bot: &[u32],
    room: usize,
    ring: &mut [u32],
    board: &mut [u8],
) -> Routing
    ensures { HeldBy (route_trays_with_records room (length ring.old) (length board.old))
        (rows top.now bot.now) ring.old board.old result
        ring.new board.new }
{
    if room < RECORD_TRAY {
        return refused(Refusal::ShortTray(RECORD_TRAY), 0);
    }
    route_by_value(top, bot, ring, board)
}

// Stores the records made at the front of the caller's table.
#[tactic(auto, using(lists::specs::Copies::front_is_overlay))]
fn store_records(records: &mut [NetRecord], made: &[NetRecord])
    requires { length made.now ≤ length records.old }
    ensures { records.new ≡ overlay made.now records.old }
{
    records[..made.len()].copy_from_slice(made);
}

// What the router answers beside what it stores: the count is that of the records at the front of the caller's table;
// `looks` as in `Routing`.
// A lent slice of records, filled by a thin function, is the form that docs/SCOPE.md names.
#[derive(Clone, Copy)]
pub struct Routed {
    pub answer: Result<Drawn, Refusal>,
    pub count: usize,
    pub looks: usize,
}

// Routes rows of any lengths and numbers: refusals 1, 3 to 5 and 7, in rising number. On success the front of
// `records` is the net records, as many as the answer counts, and the front of `board` the board file; under 7 the
// front of `ring` is the ring's pairs; everything else that is lent stays as it was. How many looks the fill took is
// answered with a board and under 7.
pub fn route(
    top: &[u32],
    bot: &[u32],
    records: &mut [NetRecord],
    ring: &mut [u32],
    board: &mut [u8],
) -> Routed
    ensures { RouteDone (rows top.now bot.now)
        records.old ring.old board.old result
        records.new ring.new board.new }
{
    let routing = route_with_room(top, bot, records.len(), ring, board);
    store_records(records, &routing.records[..routing.count]);
    Routed {
        answer: routing.answer,
        count: routing.count,
        looks: routing.looks,
    }
}

// Routes with a table of its own, for callers that want the records by value: `route` over a table that it lends.
pub fn route_rows(top: &[u32], bot: &[u32], ring: &mut [u32], board: &mut [u8]) -> Routing
    ensures { RowsDone (rows top.now bot.now) ring.old board.old result
        ring.new board.new }
{
    let mut records = blank_records();
    let routed = route(top, bot, &mut records, ring, board);
    Routing {
        answer: routed.answer,
        records,
        count: routed.count,
        looks: routed.looks,
    }
}
