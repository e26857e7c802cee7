// The lines that the programs write, put into a lent buffer.
#![tactic(auto, unfolding(lists::specs::Bytes::bytes, crate::specs::Lines::refused_line, crate::specs::Lines::none_line, crate::specs::Lines::board_line, crate::specs::Lines::bound_line, crate::specs::Lines::net_line, crate::specs::Lines::end_line))]

ghost use Rattle.std.specs.Prelude.{◌≡◌, [], ◌∷◌, ◌+◌, ◌*◌, ◌≤◌, length, take};
ghost use Rattle.lists.specs.Lists.{each};
ghost use Rattle.refusal.specs.Trays.{record_tray};
ghost use Rattle.text.specs.Lines.{line, line_of, Put};
ghost use Rattle.refusal.specs.Refusals.{told_at};
ghost use Rattle.report.specs.Lines.{refused_line, none_line, board_line, bound_line, net_line, end_line};
ghost use Rattle.report.specs.Code.{ring_text, listing_text};

use leftedge::NetRecord;

// The line of a refusal or fault, at the front of `out`; answers its length.
// Numbers, for refusals and faults alike: docs/PROMISES.md names the function so.
pub fn put_refused(out: &mut [u8], number: u64, place: u64) -> usize
    requires { 64 ≤ length out.old }
    ensures put { Put out.old 0 (refused_line (told_at number place)) out.new result }
    ensures upper_bound { result ≤ 64 }
{
    text::put_line(out, 0, b"REFUSED", &[number, place])
}

// The line of a good board, at the front of `out`; answers its length.
pub fn put_good(out: &mut [u8], tracks: u64) -> usize
    requires { 64 ≤ length out.old }
    ensures put { Put out.old 0 (line "GOOD" (tracks ∷ [])) out.new result }
    ensures upper_bound { result ≤ 64 }
{
    text::put_line(out, 0, b"GOOD", &[tracks])
}

// One line of a ring, at byte `at`; answers the place behind it.
fn put_pair(out: &mut [u8], at: usize, net: u32, column: u32) -> usize
    requires { at + 64 ≤ length out.old }
    ensures put { Put out.old at (line "RING" (net ∷ column ∷ [])) out.new result }
    ensures upper_bound { result ≤ at + 64 }
{
    text::put_line(out, at, b"RING", &[net, column])
}

// The lines of a ring, whose pairs of net and column stand at the front of `ring`, from byte `at` on; answers the place
// behind them.
// The ring and its pairs are two parameters: docs/PROMISES.md names the function so.
pub fn put_ring(out: &mut [u8], at: usize, ring: &[u32], pairs: usize) -> usize
    requires { (pairs ≤ record_tray) × (2 * pairs ≤ length ring.now) × (at + 64 * pairs ≤ length out.old) }
    ensures put { Put out.old at (ring_text ring.now pairs) out.new result }
    ensures upper_bound { result ≤ at + 64 * pairs }
{
    let mut next = at;
    let (steps, _) = ring.as_chunks::<2>();
    for &[net, column] in &steps[..pairs] {
        next = put_pair(out, next, net, column);
    }
    next
}

// The line of a channel that has no ring, at the front of `out`; answers its length.
pub fn put_none(out: &mut [u8]) -> usize
    requires { 64 ≤ length out.old }
    ensures put { Put out.old 0 none_line out.new result }
    ensures upper_bound { result ≤ 64 }
{
    text::put_line(out, 0, b"NONE", &[0u32; 0])
}

// A row of a pin list as a line, its word and its numbers, at byte `at`; answers the place behind it.
pub fn put_row(out: &mut [u8], at: usize, word: &[u8], row: &[u32]) -> usize
    requires { at + (length word.now + (21 * length row.now + 1)) ≤ length out.old }
    ensures put { Put out.old at (line_of word.now row.now) out.new result }
    ensures upper_bound { result ≤ at + (length word.now + (21 * length row.now + 1)) }
{
    text::put_line(out, at, word, row)
}

// The figures of a listing.
// Plain numbers: the report knows neither the router nor its answer.
#[derive(Clone, Copy, Debug, PartialEq, Eq)]
pub struct Figures {
    pub width: u32,
    pub tracks: u32,
    pub blank: u32,
    pub density: u32,
    pub chain: u32,
    pub pieces: u32,
}

// The first line of a listing, at the front of `out`; answers its length.
fn put_board(out: &mut [u8], f: Figures) -> usize
    requires { 100 ≤ length out.old }
    ensures put { Put out.old 0 (board_line f.width f.tracks f.blank) out.new result }
    ensures upper_bound { result ≤ 100 }
{
    text::put_line(out, 0, b"BOARD", &[f.width, f.tracks, f.blank])
}

// The second line of a listing, at byte `at`; answers the place behind it.
fn put_bounds(out: &mut [u8], at: usize, f: Figures) -> usize
    requires { at + 100 ≤ length out.old }
    ensures put { Put out.old at (bound_line f.density f.chain) out.new result }
    ensures upper_bound { result ≤ at + 100 }
{
    text::put_line(out, at, b"BOUND", &[f.density, f.chain])
}

// The line of one net, at byte `at`; answers the place behind it.
fn put_net(out: &mut [u8], at: usize, r: NetRecord) -> usize
    requires { at + 100 ≤ length out.old }
    ensures put { Put out.old at (net_line r) out.new result }
    ensures upper_bound { result ≤ at + 100 }
{
    text::put_line(
        out,
        at,
        b"NET",
        &[r.number.0, r.first.0, r.last.0, r.track.0],
    )
}

// The lines of nets, from byte `at` on; answers the place behind them.
fn put_nets(out: &mut [u8], at: usize, records: &[NetRecord]) -> usize
    requires { at + 100 * length records.now ≤ length out.old }
    ensures put { Put out.old at (each net_line records.now) out.new result }
    ensures upper_bound { result ≤ at + 100 * length records.now }
{
    let mut next = at;
    for &record in records {
        next = put_net(out, next, record);
    }
    next
}

// The last line of a listing, at byte `at`; answers the place behind it.
fn put_end(out: &mut [u8], at: usize, pieces: u32) -> usize
    requires { at + 100 ≤ length out.old }
    ensures put { Put out.old at (end_line pieces) out.new result }
    ensures upper_bound { result ≤ at + 100 }
{
    text::put_line(out, at, b"END", &[pieces])
}

// The listing of a board, at the front of `out`; answers its length.
pub fn put_listing(out: &mut [u8], f: Figures, records: &[NetRecord]) -> usize
    requires { (length records.now ≤ record_tray) × (65536 ≤ length out.old) }
    ensures put { Put out.old 0 (listing_text f records.now) out.new result }
    ensures upper_bound { result ≤ 65536 }
{
    let board = put_board(out, f);
    let bounds = put_bounds(out, board, f);
    let nets = put_nets(out, bounds, records);
    put_end(out, nets, f.pieces)
}
