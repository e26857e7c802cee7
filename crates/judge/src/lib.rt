// The judge of a board file against the rows of a channel.
#![tactic(auto)]

ghost use Rattle.std.specs.Prelude.{◌≡◌, ◌≤◌, length};
ghost use Rattle.refusal.specs.Trays.{scratch_tray};
ghost use Rattle.boardfile.specs.Open.{file_layout};
ghost use Rattle.judge.specs.Finding.{finding};
ghost use Rattle.judge.specs.Answers.{judged, fault_number, fault_place};
ghost use Rattle.judge.specs.Code.{Judged, board_answer};
ghost use Rattle.channel.specs.Channel.{rows};
ghost use Rattle.judge.specs.LineSteps.{elements};

mod boxes;
mod case;
mod faults;
mod lines;
mod ranges;

use boardfile::Board;
use case::Case;
use grid::COLUMN_SLOTS;
use refusal::{Refusal, SCRATCH_TRAY};

// What is wrong with a board, each with its place.
#[derive(Clone, Copy, Debug, PartialEq, Eq)]
pub enum Fault {
    // 11: the lowest pin position joined to an earlier pin of another net
    Short(usize),
    // 12: the lowest pin position not joined to its net's first pin
    Open(usize),
    // 13: the lowest piece joined to no pin
    Floating(usize),
}

// What the judge answers.
// An enum with the fault enum in a case: docs/SCOPE.md names the form.
#[derive(Clone, Copy, Debug, PartialEq, Eq)]
pub enum JudgeAnswer {
    // the board is good; its tracks
    Good(u32),
    Faulty(Fault),
    Refused(Refusal),
}

// The number of a fault in the table of the scope.
// No From: docs/PROMISES.md names this function and `fault_place`.
#[tactic(auto, unfolding(crate::specs::Answers::fault_number))]
pub fn fault_number(fault: Fault) -> u32
    ensures { result ≡ fault_number fault }
{
    match fault {
        Fault::Short(_) => 11,
        Fault::Open(_) => 12,
        Fault::Floating(_) => 13,
    }
}

// The place of a fault: a pin position, or of floating copper the piece.
#[tactic(auto, unfolding(crate::specs::Answers::fault_place))]
pub fn fault_place(fault: Fault) -> usize
    ensures { result ≡ fault_place fault }
{
    match fault {
        Fault::Short(place) | Fault::Open(place) | Fault::Floating(place) => place,
    }
}

// Judges the elements of a board, its pin places and pieces, with a number of scratch for each. The table, by place of
// a line and then by net, is blank at each use.
// The scratch stays a slice of its own: C lends it.
fn judge_elements(case: &Case, scratch: &mut [u32]) -> JudgeAnswer
    requires { length scratch.old ≡ elements case.now }
    ensures { result ≡ judged case.now.tracks (finding case.now.channel (file_layout case.now.board)) }
{
    let width = case.width();
    let tracks = case.tracks;
    let rows = tracks as usize + 2;
    let mut table = [0u32; COLUMN_SLOTS];
    classes::alone(scratch);
    lines::join_on::<ranges::Columns>(case, width + 1, rows, &mut table, scratch);
    lines::join_on::<ranges::Tracks>(case, rows - 1, width + 1, &mut table, scratch);
    classes::flatten(scratch);
    match faults::find_fault(case, scratch, &mut table) {
        None => JudgeAnswer::Good(tracks),
        Some(fault) => JudgeAnswer::Faulty(fault),
    }
}

// Judges a board in the front of scratch, which has a number for each element.
fn judge_case(case: &Case, scratch: &mut [u32]) -> JudgeAnswer
    requires { scratch_tray ≤ length scratch.old }
    ensures { result ≡ judged case.now.tracks (finding case.now.channel (file_layout case.now.board)) }
{
    judge_elements(case, &mut scratch[..case.elements()])
}

// Opens a board file for rows of any lengths and numbers; or refusals 3 to 5 of the rows, 8 and 9 of the file, and 10.
fn open_for(top: &[u32], bot: &[u32], board: &[u8]) -> Result<Board, Refusal>
    ensures { result ≡ board_answer (rows top.now bot.now) board.now }
{
    channel::check(top, bot)?;
    let opened = board_reader::open(board)?;
    if opened.width as usize != top.len() {
        return Err(Refusal::WrongBoard(opened.width as usize));
    }
    Ok(opened)
}

// Judges a board file of any bytes against rows of any lengths and numbers, tangled channels included. Scratch, of at
// least 5,119 numbers, may hold anything afterwards, at its old length. The cost grows with the pieces and with the
// points of the grid, and not with the pairs of pieces.
pub fn judge(top: &[u32], bot: &[u32], board: &[u8], scratch: &mut [u32]) -> JudgeAnswer
    ensures { Judged (rows top.now bot.now) board.now scratch.old result
        scratch.new }
{
    if scratch.len() < SCRATCH_TRAY {
        return JudgeAnswer::Refused(Refusal::ShortTray(SCRATCH_TRAY));
    }
    match open_for(top, bot, board) {
        Err(refusal) => JudgeAnswer::Refused(refusal),
        Ok(opened) => {
            let case = Case {
                top,
                bot,
                board,
                tracks: opened.tracks,
                count: opened.count as usize,
            };
            judge_case(&case, scratch)
        }
    }
}
