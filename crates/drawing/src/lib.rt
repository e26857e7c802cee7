// The pieces of a filled channel, straight into a board file.
#![tactic(auto)]

ghost use Rattle.std.specs.Prelude.{◌≡◌, ◌+◌, ◌*◌, ◌≤◌, ◌<◌, [], ◌∷◌, cond, length, eqb};
ghost use Rattle.grid.specs.Pieces.{row};
ghost use Rattle.grid.specs.Numbers.{column_numbers, track_numbers};
ghost use Rattle.channel.specs.Channel.{width, stands};
ghost use Rattle.channel.specs.Spans.{SpansFound, spans};
ghost use Rattle.drawing.specs.Draw.{draw_column, draw_span, draw_net};
ghost use Rattle.drawing.specs.Putting.{Room, Put};
ghost use Rattle.drawing.specs.Code.{StandsIn, drawn_by, Drawable, BoardDrawn};

use channel::Rows;
use grid::{Column, NET_SLOTS, Net, Piece, Row, Track};
use leftedge::NetRecord;

// A lent board, and how many pieces are drawn on it.
#[derive(Drop)]
struct Pen<'a> {
    board: &'a mut [u8],
    count: u32,
}

// Column c has a pin of number n.
// The rows hold plain numbers, as C lends them, so the number of the net is compared.
fn has_pin(rows: &Rows, n: Net, c: Column) -> bool
    requires { (1 ≤ c.0) × (c.0 ≤ width rows.now) }
    ensures { result ≡ stands rows.now n.0 c.0 }
{
    let (top, bot) = (rows.top, rows.bot);
    let i = c.0 as usize - 1;
    (top[i] == n.0) | (bot[i] == n.0)
}

// The row where a branch of net n ends on a pin's side: the pin's row if the pin is of net n, else the track.
// A pin is a plain number of the rows, so the number of the net is compared.
fn end_row(pin: u32, n: Net, edge: u32, k: Track) -> Row
    ensures { result ≡ row (cond (eqb pin n.0) edge k.0) }
{
    if pin == n.0 { Row(edge) } else { Row(k.0) }
}

impl<'a> Pen<'a> {
    // Puts a piece behind those drawn.
    fn put(&mut self, piece: Piece)
        requires { Room self.old.board.now self.old.count (piece ∷ []) }
        ensures same_board { self.new.board.ghost_name ≡ self.old.board.ghost_name }
        ensures drawn { Put self.old.board.now self.new.board.now self.old.count self.new.count (piece ∷ []) }
    {
        boardfile::put_piece(self.board, 4 + 4 * self.count as usize, piece);
        self.count += 1;
    }

    // The branch and the contact of a net in its pin column c, where its trunk lies on its track of t. Inlined, it would
    // take the registers of the loop over columns, most of which have no pin of the net.
    #[inline(never)]
    fn draw_column(&mut self, rows: &Rows, net: NetRecord, t: u32, c: Column)
        requires { (t ≤ 511)
            × (1 ≤ c.0)
            × (c.0 ≤ width rows.now)
            × Room self.old.board.now self.old.count (draw_column rows.now t net.track.0 net.number.0 c.0) }
        ensures same_board { self.new.board.ghost_name ≡ self.old.board.ghost_name }
        ensures drawn { Put self.old.board.now self.new.board.now self.old.count self.new.count
            (draw_column rows.now t net.track.0 net.number.0 c.0) }
    {
        let (top, bot) = (rows.top, rows.bot);
        let i = c.0 as usize - 1;
        let low = end_row(bot[i], net.number, 0, net.track);
        let high = end_row(top[i], net.number, t + 1, net.track);
        self.put(Piece::Branch {
            column: c,
            low,
            high,
        });
        self.put(Piece::Contact {
            column: c,
            track: net.track,
        });
    }

    // The trunk of a net from its first to its last column, then its branches and contacts, left to right.
    fn draw_span(&mut self, rows: &Rows, net: NetRecord, t: u32)
        requires { (t ≤ 511)
            × StandsIn rows.now net.number.0 net.first.0 net.last.0
            × Room self.old.board.now self.old.count (draw_span rows.now t net.track.0 net.number.0) }
        ensures same_board { self.new.board.ghost_name ≡ self.old.board.ghost_name }
        ensures drawn { Put self.old.board.now self.new.board.now self.old.count self.new.count
            (draw_span rows.now t net.track.0 net.number.0) }
    {
        self.put(Piece::Trunk {
            track: net.track,
            first: net.first,
            last: net.last,
        });
        for c in net.first.0..net.last.0 + 1 {
            if has_pin(rows, net.number, Column(c)) {
                self.draw_column(rows, net, t, Column(c));
            }
        }
    }

    // The pieces of a net: a straight net is one branch over all rows.
    fn draw_net(&mut self, rows: &Rows, net: NetRecord, t: u32)
        requires { (t ≤ 511)
            × StandsIn rows.now net.number.0 net.first.0 net.last.0
            × Room self.old.board.now self.old.count (draw_net rows.now t net.track.0 net.number.0) }
        ensures same_board { self.new.board.ghost_name ≡ self.old.board.ghost_name }
        ensures drawn { Put self.old.board.now self.new.board.now self.old.count self.new.count
            (draw_net rows.now t net.track.0 net.number.0) }
    {
        if net.first < net.last {
            self.draw_span(rows, net, t);
        } else {
            self.put(Piece::Branch {
                column: net.first,
                low: Row(0),
                high: Row(t + 1),
            });
        }
    }
}

// Draws a filled channel into a lent board that has room for it, header first, nets in rising number; the remainder
// stays. Answers the number of pieces. t is the number of tracks. No number is looked at that is above those of the
// rows.
// Tables beside the rows: the rows have the parked pins too, and the tables are of the nets alone.
pub fn draw_board(
    rows: &Rows,
    first: &[Column; NET_SLOTS],
    last: &[Column; NET_SLOTS],
    tracks: &[Track; NET_SLOTS],
    t: u32,
    board: &mut [u8],
) -> u32
    requires { Drawable rows.now (track_numbers tracks.now) t board.old
        × SpansFound rows.now (spans (column_numbers first.now) (column_numbers last.now)) }
    ensures { BoardDrawn rows.now
        (drawn_by rows.now (track_numbers tracks.now) t)
        board.old result board.new }
{
    let (top, bot) = (rows.top, rows.bot);
    // two calls and no method: `Rows`, `Columns` and plain rows ask it, and a type each would need one
    let upper = channel::highest_number(top, 0);
    let highest = channel::highest_number(bot, upper);
    let mut pen = Pen { board, count: 0 };
    for n in 1..highest + 1 {
        let i = n as usize;
        let begin = first[i];
        // column 0 is none, as in `channel::Columns`
        if begin.0 != 0 {
            let net = NetRecord {
                number: Net(n),
                first: begin,
                last: last[i],
                track: tracks[i],
            };
            pen.draw_net(rows, net, t);
        }
    }
    let count = pen.count;
    boardfile::put_header(pen.board, top.len() as u32, t, count);
    count
}
