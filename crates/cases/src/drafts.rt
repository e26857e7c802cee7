// A draft, lent as so many of the words of a buffer that hold the mark everywhere before, and calls on it one after the
// other.
ghost use Rattle.std.specs.Prelude.{◌+◌, ◌*◌, ◌≤◌, length};
ghost use Rattle.cases.specs.Cases.{calls_whole, draft_whole};
ghost use Rattle.cases.specs.Questions.{Tells, Calls};

use crate::output;
use crate::question::Unanswered;
use crate::rows::{self, number_at};
use grid::{Column, Net};
use refusal::DRAFT_TRAY;
use std::io;

// The words of the buffer, and the bytes of a call: its kind and three numbers, two bytes each.
const ROOM: usize = DRAFT_TRAY + 8;

const CALL_BYTES: usize = 8;

const MARK: u64 = output::MARK as u64;

// A call on a draft.
#[derive(Clone, Copy)]
enum Call {
    Clear,
    Arrive(Net, Column, Column),
    Leave(Net),
    Count(Column),
    Greatest,
}

// By its kind and the three numbers behind it.
impl TryFrom<[u16; 4]> for Call {
    type Error = Unanswered;

    ghost try_from_gives = { Calls };

    fn try_from(numbers: [u16; 4]) -> Result<Call, Unanswered> {
        let [kind, n, first, last] = numbers;
        match kind {
            0 => Ok(Call::Clear),
            1 => Ok(Call::Arrive(Net(n as u32), Column(first as u32), Column(last as u32))),
            2 => Ok(Call::Leave(Net(n as u32))),
            3 => Ok(Call::Count(Column(n as u32))),
            4 => Ok(Call::Greatest),
            _ => Err(Unanswered::Cut),
        }
    }
}

// Makes a call and writes its line.
fn make_call(rt: &impl Print, words: &mut [u64], call: Call) -> io::Result<()> {
    match call {
        Call::Clear => output::put_done(rt, "CLEAR", draft::clear(words)),
        Call::Arrive(net, first, last) => {
            output::put_done(rt, "ARRIVE", draft::arrive(words, net, first, last))
        }
        Call::Leave(net) => output::put_done(rt, "LEAVE", draft::leave(words, net)),
        Call::Count(column) => output::put_answer(rt, "COUNT", draft::count(words, column)),
        Call::Greatest => output::put_answer(rt, "GREATEST", draft::greatest(words)),
    }
}

// Makes all calls that stand from byte 2 on, up to one that is none.
fn make_calls(
    rt: &impl Print,
    words: &mut [u64],
    bytes: &[u8],
    count: usize,
) -> Result<(), Unanswered>
    requires { 2 + 8 * count ≤ length bytes.now }
    ensures { Tells result (calls_whole bytes.now count) }
{
    for i in 0..count {
        let at = 2 + CALL_BYTES * i;
        let call = Call::try_from([
            number_at(bytes, at),
            number_at(bytes, at + 2),
            number_at(bytes, at + 4),
            number_at(bytes, at + 6),
        ])?;
        make_call(rt, words, call)?;
    }
    Ok(())
}

// Those of the words of a draft that are not 0, each behind its place.
fn put_words(rt: &impl Print, words: &[u64]) -> io::Result<()> {
    print!(rt; "WORDS")?;
    for (place, &word) in words.iter().enumerate() {
        if word != 0 {
            print!(rt; " {place} {word}")?;
        }
    }
    rt.write_all(b"\n")
}

// A number of words, and calls: the line of each; then the words of the draft, and whether the others were kept. Where
// too few words for a draft were lent, all have to be kept.
pub fn answer_draft(rt: &impl Print, bytes: &[u8]) -> Result<(), Unanswered>
    ensures { Tells result (draft_whole bytes.now) }
{
    let (number, calls) = rows::front(bytes)?;
    let size = number as usize;
    if ROOM < size {
        return Err(Unanswered::Cut);
    }
    let mut words = [MARK; ROOM];
    make_calls(rt, &mut words[..size], bytes, calls.len() / CALL_BYTES)?;
    let used = if size < DRAFT_TRAY { 0 } else { DRAFT_TRAY };
    put_words(rt, &words[..used])?;
    output::put_kept(rt, output::is_kept(&words, used, MARK))?;
    Ok(())
}
