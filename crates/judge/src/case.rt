// A board that is judged against rows.
ghost use Rattle.std.specs.Prelude.{◌≡◌, ◌+◌, ◌*◌, ◌≤◌, ◌<◌, get_or};
ghost use Rattle.refusal.specs.Trays.{scratch_tray};
ghost use Rattle.boardfile.specs.Open.{file_count, word_at};
ghost use Rattle.channel.specs.Channel.{rows, width, positions};
ghost use Rattle.judge.specs.Code.{box_of};
ghost use Rattle.judge.specs.LineSteps.{Case, Judgeable, elements};

use crate::boxes::{Cover, cover_of};
use std::marker::Model;

// The rows escape the refusals, and the file opens, and has the rows' width, so many tracks and so many pieces.
#[derive(Drop)]
pub struct Case<'a> {
    pub top: &'a [u32],
    pub bot: &'a [u32],
    pub board: &'a [u8],
    pub tracks: u32,
    pub count: usize,
}

impl<'a> Model for Case<'a> {
    ghost Value = { Case };

    ghost view = { λ k. record { channel = rows k.top.now k.bot.now; board = k.board.now; tracks = k.tracks } };

    ghost invariant = { λ k. Judgeable (rows k.top.now k.bot.now) k.board.now k.tracks
        × (k.count ≡ file_count k.board.now) };
}

impl<'a> Case<'a> {
    // How many columns it has.
    pub fn width(&self) -> usize
        ensures value { result ≡ width self.now.channel }
        ensures known { Judgeable self.now.channel self.now.board self.now.tracks }
    {
        self.top.len()
    }

    // How many elements it has, pin places and pieces.
    pub fn elements(&self) -> usize
        ensures value { result ≡ elements self.now }
        ensures few { result ≤ scratch_tray }
    {
        let width = self.top.len();
        width + width + self.count
    }

    // The net of a pin place, by its position from 0: TOP, then BOT.
    // 0 is no pin, as in the rows that C lends.
    pub fn net_at(&self, i: usize) -> u32
        requires { i < width self.now.channel + width self.now.channel }
        ensures { result ≡ get_or (positions self.now.channel) i 0 }
    {
        let (top, bot) = (self.top, self.bot);
        if i < top.len() {
            return top[i];
        }
        bot[i - top.len()]
    }

    // The box that a piece covers, by its place from 0.
    pub fn cover_at(&self, piece: usize) -> Cover
        requires { piece < file_count self.now.board }
        ensures { result ≡ box_of (word_at self.now.board (4 + 4 * piece)) }
    {
        cover_of(boardfile::word_at(self.board, 4 + 4 * piece))
    }
}
