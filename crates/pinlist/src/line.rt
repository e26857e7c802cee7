// A line of a pin list: its word, then spaces and a number one or more times, then a line end.
ghost use Rattle.std.specs.Prelude.{◌≡◌, ◌+◌, ◌≤◌, [], length, drop, set};
ghost use Rattle.refusal.specs.declared.Refusal.TheVariants.{Garbled};
ghost use Rattle.pinlist.specs.Code.{shared, feed_read, LineDone};

use crate::number::{Number, read_number};
use grid::WIDEST;
use refusal::Refusal;

// A line that was read: how many numbers it has, and the place behind it.
#[derive(Clone, Copy, Debug, PartialEq, Eq)]
pub struct Line {
    pub count: usize,
    pub next: usize,
}

// A text is no pin list: the place of the byte that does not belong.
#[derive(Clone, Copy, Debug, PartialEq, Eq)]
pub struct Stuck(pub usize);

impl From<Stuck> for Refusal {
    ghost from_gives = { λ stuck refusal. refusal ≡ Garbled stuck.0 };

    fn from(stuck: Stuck) -> Refusal {
        Refusal::Garbled(stuck.0)
    }
}

// How many bytes of `word` stand at `at`, from the first on.
fn shared_word(text: &[u8], at: usize, word: &[u8; 4]) -> usize
    requires { at ≤ length text.now }
    ensures { result ≡ shared word.now (drop at text.now) }
{
    for i in 0..4 {
        if text.len() - at <= i || text[at + i] != word[i] {
            return i;
        }
    }
    4
}

// Keeps a number in its place of the row, if the row has that place.
// Room and a count, no ArrayVec: numbers past the room are counted too, for refusal 3.
fn keep_number(row: &mut [u32; WIDEST], place: usize, value: u32)
    ensures { row.new ≡ set row.old place value }
{
    if place < WIDEST {
        row[place] = value;
    }
}

// Ends a line of so many numbers behind a carriage return: a line feed is due at `at`.
fn end_line(text: &[u8], at: usize, count: usize) -> Result<Line, Stuck>
    ensures { result ≡ feed_read count at (drop at text.now) }
{
    if text.len() <= at || text[at] != b'\n' {
        return Err(Stuck(at));
    }
    Ok(Line {
        count,
        next: at + 1,
    })
}

// Reads the numbers of a line into a row, from the place behind the first space.
fn read_numbers(text: &[u8], from: usize, row: &mut [u32; WIDEST]) -> Result<Line, Stuck>
    requires { from ≤ length text.now }
    ensures { LineDone [] text.now from row.old result row.new }
{
    let mut at = from;
    let mut count: usize = 0;
    // a loop: where the next number begins is known only behind this one
    loop {
        let found = read_number(text, at);
        // a local of its own: of `found.number` in place, the parts lose the names by which the proof cites them
        let number = found.number;
        // the number reader by `let .. else`, the form that docs/SCOPE.md names
        let Some(Number { value, next }) = number else {
            return Err(Stuck(found.from));
        };
        keep_number(row, count, value);
        count += 1;
        let Some(&b) = text.get(next) else {
            return Err(Stuck(next));
        };
        match b {
            b'\n' => {
                return Ok(Line {
                    count,
                    next: next + 1,
                });
            }
            b'\r' => return end_line(text, next + 1, count),
            b' ' => at = next + 1,
            _ => return Err(Stuck(next)),
        }
    }
}

// Reads one line that begins at byte `at` with a word and a space.
pub fn read_line(
    text: &[u8],
    at: usize,
    word: &[u8; 4],
    row: &mut [u32; WIDEST],
) -> Result<Line, Stuck>
    requires { at ≤ length text.now }
    ensures { LineDone word.now text.now at row.old result row.new }
{
    let same = shared_word(text, at, word);
    if same < 4 {
        return Err(Stuck(at + same));
    }
    read_numbers(text, at + 4, row)
}
