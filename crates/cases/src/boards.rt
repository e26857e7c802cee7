// Board files, pieces and blanks.
ghost use Rattle.std.specs.Prelude.{length, leb, eqb};
ghost use Rattle.cases.specs.Questions.{Tells};

use crate::output;
use crate::question::Unanswered;
use crate::rows::{self, Rows};
use boardfile::Board;
use grid::Piece;
use std::io;

// Any bytes make a question.
pub fn answer_open(rt: &impl Print, board: &[u8]) -> io::Result<()> {
    match board_reader::open(board) {
        Ok(
            Board {
                width,
                tracks,
                count,
            },
        ) => println!(rt; "OPEN 0 {width} {tracks} {count}"),
        Err(refusal) => output::put_refusal(rt, "OPEN", refusal),
    }
}

fn put_piece(rt: &impl Print, piece: Piece) -> io::Result<()> {
    match piece {
        Piece::Trunk { track, first, last } => {
            println!(rt; "PIECE 0 0 {} {} {}", track.0, first.0, last.0)
        }
        Piece::Branch { column, low, high } => {
            println!(rt; "PIECE 0 1 {} {} {}", column.0, low.0, high.0)
        }
        Piece::Contact { column, track } => {
            println!(rt; "PIECE 0 2 {} {} {}", column.0, track.0, track.0)
        }
    }
}

// The piece number in two bytes, and a board.
pub fn answer_piece(rt: &impl Print, bytes: &[u8]) -> Result<(), Unanswered>
    ensures { Tells result (leb 2 (length bytes.now)) }
{
    let (number, board) = rows::front(bytes)?;
    match board_reader::read_piece(board, number as usize) {
        Ok(piece) => put_piece(rt, piece)?,
        Err(refusal) => output::put_refusal(rt, "PIECE", refusal)?,
    }
    Ok(())
}

// A number of tracks in two bytes.
pub fn answer_blank(rt: &impl Print, bytes: &[u8]) -> Result<(), Unanswered>
    ensures { Tells result (eqb (length bytes.now) 2) }
{
    if bytes.len() != 2 {
        return Err(Unanswered::Cut);
    }
    output::put_answer(rt, "BLANK", blanks::blank(rows::number_at(bytes, 0) as u32))?;
    Ok(())
}

// TOP is a customer's own table, asked for each of the tracks in BOT.
pub fn put_own(rt: &impl Print, rows: &Rows) -> io::Result<()> {
    for &tracks in rows.bot.numbers() {
        output::put_answer(rt, "OWN", blanks::own_blank(rows.top.numbers(), tracks))?;
    }
    Ok(())
}
