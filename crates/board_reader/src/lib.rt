// The board reader: opened over the lent bytes of a board file, it answers the piece of a given number.
#![tactic(auto)]

ghost use Rattle.std.specs.Prelude.{◌≡◌};
ghost use Rattle.boardfile.specs.Open.{open_answer};
ghost use Rattle.board_reader.specs.Reader.{reader_count, reader_piece, read_answer};

use boardfile::Board;
use grid::Piece;
use refusal::Refusal;

// A reader: the board's bytes, and how many pieces it answers.
#[derive(Clone, Copy)]
pub struct BoardReader<'a> {
    pub board: &'a [u8],
    pub count: usize,
}

// Opens a reader over bytes of any kind. A file that is refused has a reader too, which tells the refusal and answers
// no piece.
#[tactic(auto, unfolding(crate::specs::Reader::reader_count, crate::specs::Reader::count_in))]
pub fn over<'a>(board: &'a [u8]) -> BoardReader<'a>
    ensures { (result.board ≡ board.entry) × (result.count ≡ reader_count board.now) }
{
    let count = boardfile::open(board).map_or(0, |opened| opened.count as usize);
    BoardReader { board, count }
}

impl<'a> BoardReader<'a> {
    // What opening answers: width, tracks and count, or 8 or 9.
    pub fn opening(self) -> Result<Board, Refusal>
        ensures { result ≡ open_answer self.entry.board.now }
    {
        boardfile::open(self.board)
    }

    // The piece of a number, from 1; another number gives 9 with that number as place.
    #[tactic(auto, unfolding(crate::specs::Reader::reader_piece))]
    pub fn piece(self, number: usize) -> Result<Piece, Refusal>
        ensures { result ≡ reader_piece self.entry.board.now self.entry.count number }
    {
        if number < 1 || self.count < number {
            return Err(Refusal::BadField(number));
        }
        boardfile::piece_at(self.board, number)
    }
}

// Opens a board file: the reader's opening, for callers that hold no reader.
pub fn open(board: &[u8]) -> Result<Board, Refusal>
    ensures { result ≡ open_answer board.now }
{
    over(board).opening()
}

// The piece of a number of a board file: of a reader opened over it, for callers that hold no reader.
pub fn read_piece(board: &[u8], number: usize) -> Result<Piece, Refusal>
    ensures { result ≡ read_answer board.now number }
{
    over(board).piece(number)
}

#[cfg(test)]
mod tests {
    use super::*;

    // The board of TOP 0 1 2 3 and BOT 1 2 0 3, of 11 pieces.
    const BOARD: [u8; 48] = [
        1, 0, 64, 22, 0, 32, 4, 2, 64, 16, 0, 2, 128, 16, 8, 2, 64, 32, 8, 3, 128, 32, 8, 2, 0, 16,
        8, 3, 64, 32, 0, 1, 128, 32, 4, 1, 64, 48, 4, 3, 128, 48, 4, 1, 64, 64, 0, 3,
    ];

    // One reader is asked again and again: it is copied, not used up.
    #[test]
    fn a_reader_answers_more_than_once(rt: HostRuntime) {
        let reader = over(&BOARD);
        assert!(rt; matches!(reader.piece(1), Ok(_)));
        assert!(rt; matches!(reader.piece(11), Ok(_)));
        assert!(rt; matches!(reader.piece(12), Err(_)));
        assert!(rt; matches!(reader.opening(), Ok(Board { count: 11, .. })));
    }
}
