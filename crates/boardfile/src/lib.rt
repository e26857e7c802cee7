// The board file: the words that a writer puts, and what the reader of a file of any bytes answers.
#![tactic(auto)]

ghost use Rattle.std.specs.Prelude.{◌≡◌, ◌+◌, ◌*◌, ◌≤◌, ◌<◌, length, find, cond, None, Some};
ghost use Rattle.std.proofs.lemmas.List.Edits.{sets};
ghost use Rattle.boardfile.specs.Encode.{word, header, piece_word};
ghost use Rattle.boardfile.specs.Open.{word_at, header_of, fields_of, word_right, piece_of};
ghost use Rattle.boardfile.specs.Open.{open_answer, piece_answer};
ghost use Rattle.boardfile.specs.Code.{SmallWords, wrong_piece};
ghost use Rattle.lists.specs.Lists.{up_to};

use grid::{BRANCH, CONTACT, Column, Piece, Row, TRUNK, Track, WIDEST};
use refusal::Refusal;

// What the header of a board file that opens tells.
#[derive(Clone, Copy, Debug, PartialEq, Eq)]
pub struct Board {
    pub width: u32,
    pub tracks: u32,
    // how many pieces the file holds
    pub count: u32,
}

// The fields of the header's word.
// Not `Board`: it has the spare bit too, which is 0 of each board that opens.
#[derive(Clone, Copy)]
pub struct Header {
    pub width: u32,
    pub tracks: u32,
    pub count: u32,
    pub spare: u32,
}

// The fields of a piece's word.
// The kind is a number: the word of a file of any bytes may hold one that is no kind.
#[derive(Clone, Copy)]
pub struct Fields {
    pub kind: u32,
    pub line: u32,
    pub from: u32,
    pub to: u32,
}

// The 32 bits that begin at byte `at`, most significant first.
// Bytes and a place, no `[u8; 4]`: docs/PROMISES.md names this function, `put_word` and `put_piece` so.
#[tactic(auto, unfolding(crate::specs::Open::word_at))]
pub fn word_at(board: &[u8], at: usize) -> u32
    requires { at + 4 ≤ length board.now }
    ensures { result ≡ word_at board.now at }
{
    u32::from_be_bytes([board[at], board[at + 1], board[at + 2], board[at + 3]])
}

// The header of its word. No From: docs/PROMISES.md names the function and `fields_of`.
#[tactic(auto, unfolding(crate::specs::Open::header_of))]
pub fn header_of(head: u32) -> Header
    ensures { result ≡ header_of head }
{
    Header {
        width: head / 4194304,
        tracks: head / 8192 % 512,
        count: head / 2 % 4096,
        spare: head % 2,
    }
}

// The fields of the word of a piece.
#[tactic(auto, unfolding(crate::specs::Open::fields_of))]
pub fn fields_of(word: u32) -> Fields
    ensures { result ≡ fields_of word }
{
    Fields {
        kind: word / 1073741824,
        line: word / 1048576 % 1024,
        from: word / 1024 % 1024,
        to: word % 1024,
    }
}

// Four bytes of a word, most significant first, at byte `at`; the other bytes stay.
#[tactic(auto, using(lists::specs::Copies::part_is_sets), unfolding(crate::specs::Encode::word))]
pub fn put_word(board: &mut [u8], at: usize, v: u32)
    requires { at + 4 ≤ length board.old }
    ensures { board.new ≡ sets board.old at (word v) }
{
    board[at..at + 4].copy_from_slice(&v.to_be_bytes());
}

// The header of a board of `width` columns, `tracks` tracks and `count` pieces, at the front.
// Plain numbers with a clause, and no From of a Header: docs/PROMISES.md names the function so.
#[tactic(auto, unfolding(crate::specs::Encode::header))]
pub fn put_header(board: &mut [u8], width: u32, tracks: u32, count: u32)
    requires { (4 ≤ length board.old) × (width < 1024) × (tracks < 512) × (count < 4096) }
    ensures { board.new ≡ sets board.old 0 (word (header width tracks count)) }
{
    put_word(board, 0, width * 4194304 + tracks * 8192 + count * 2);
}

// The word of a piece in the file.
// No From: this asks that the numbers of the piece are small (`SmallWords`), and a From asks nothing.
#[tactic(auto, unfolding(crate::specs::Encode::piece_word, crate::specs::Encode::fields, grid::specs::Pieces::kind_of, grid::specs::Words::line_of, grid::specs::Words::from_of, grid::specs::Words::to_of))]
fn word_of(piece: Piece) -> u32
    requires { SmallWords piece }
    ensures { result ≡ piece_word piece }
{
    match piece {
        Piece::Trunk { track, first, last } => track.0 * 1048576 + first.0 * 1024 + last.0,
        Piece::Branch { column, low, high } => {
            1073741824 + column.0 * 1048576 + low.0 * 1024 + high.0
        }
        Piece::Contact { column, track } => {
            2147483648 + column.0 * 1048576 + track.0 * 1024 + track.0
        }
    }
}

// One piece's word at byte `at`; the other bytes stay.
pub fn put_piece(board: &mut [u8], at: usize, piece: Piece)
    requires { (at + 4 ≤ length board.old) × SmallWords piece }
    ensures { board.new ≡ sets board.old at (word (piece_word piece)) }
{
    put_word(board, at, word_of(piece));
}

// The piece of a word, if its fields are in their ranges on a grid of `width` columns and `tracks` tracks.
#[tactic(auto, unfolding(crate::specs::Open::word_right, crate::specs::Open::piece_of, grid::specs::Words::fields_right, grid::specs::Words::make_piece))]
fn piece_in(width: u32, tracks: u32, v: u32) -> Option<Piece>
    requires { tracks < 512 }
    ensures { result ≡ cond (word_right width tracks v) (Some (piece_of v)) None }
{
    let Fields {
        kind,
        line,
        from,
        to,
    } = fields_of(v);
    match kind {
        TRUNK if (1 <= line) & (line <= tracks) & ((1 <= from) & ((from < to) & (to <= width))) => {
            Some(Piece::Trunk {
                track: Track(line),
                first: Column(from),
                last: Column(to),
            })
        }
        BRANCH if (1 <= line) & (line <= width) & ((from < to) & (to <= tracks + 1)) => {
            Some(Piece::Branch {
                column: Column(line),
                low: Row(from),
                high: Row(to),
            })
        }
        CONTACT
            if (1 <= line) & (line <= width) & ((1 <= from) & (from <= tracks) & (from == to)) => {
            Some(Piece::Contact {
                column: Column(line),
                track: Track(from),
            })
        }
        _ => None,
    }
}

// The number of the first of `count` pieces whose word breaks a range or kind. A `for`: of `(1..=count).find(..)` the
// result was not proved, since the library tells a range by its steps, and not as the list that the clause is over.
fn first_bad(board: &[u8], width: u32, tracks: u32, count: u32) -> Option<u32>
    requires { (length board.now ≡ 4 + 4 * count) × (tracks < 512) × (count < 4096) }
    ensures { result ≡ find (wrong_piece board.now width tracks) (up_to count) }
{
    for i in 1..=count {
        if piece_in(width, tracks, word_at(board, 4 * i as usize)).is_none() {
            return Some(i);
        }
    }
    None
}

// Opens a board file of any bytes. Time is linear in the file.
#[tactic(auto, unfolding(crate::specs::Open::header_of))]
pub fn open(board: &[u8]) -> Result<Board, Refusal>
    ensures { result ≡ open_answer board.now }
{
    if board.len() < 4 {
        return Err(Refusal::Torn(4));
    }
    let Header {
        width,
        tracks,
        count,
        spare,
    } = header_of(word_at(board, 0));
    let due = 4 + 4 * count as usize;
    if board.len() != due {
        return Err(Refusal::Torn(due));
    }
    if width < 1 || WIDEST < width as usize || spare == 1 {
        return Err(Refusal::BadField(0));
    }
    if let Some(number) = first_bad(board, width, tracks, count) {
        return Err(Refusal::BadField(number as usize));
    }
    Ok(Board {
        width,
        tracks,
        count,
    })
}

// The piece of a given number, from 1; another number is refused with that number as place. It takes bytes that were
// never opened too.
#[tactic(auto, unfolding(crate::specs::Open::piece_answer, crate::specs::Open::file_count, crate::specs::Open::file_width, crate::specs::Open::file_tracks, crate::specs::Open::header_of))]
pub fn piece_at(board: &[u8], number: usize) -> Result<Piece, Refusal>
    ensures { result ≡ piece_answer board.now number }
{
    if board.len() < 4 {
        return Err(Refusal::BadField(number));
    }
    let Header {
        width,
        tracks,
        count,
        spare: _,
    } = header_of(word_at(board, 0));
    let pieces = count as usize;
    if number < 1 || pieces < number {
        return Err(Refusal::BadField(number));
    }
    if board.len() < 4 * number + 4 {
        return Err(Refusal::BadField(number));
    }
    piece_in(width, tracks, word_at(board, 4 * number)).ok_or(Refusal::BadField(number))
}
