// Answers cases that stand one after the other on standard input, so that the lines can be compared with those of a
// program in another language. A case is a byte for the kind of question, two bytes, most significant first, for a
// length, and so many bytes. A case that lacks bytes, or is of no kind, is cut, and ends the answers. A read or write
// that fails ends the program with an error.
#![tactic(auto)]

ghost use Rattle.cases.specs.Questions.{Tells, is_whole};

mod boards;
mod channels;
mod drafts;
mod output;
mod panels;
mod question;
mod row;
mod rows;
mod texts;

use question::{Question, Unanswered};
use std::io::{self, Read};

// The most bytes of a case.
const CASE_ROOM: usize = 65536;

// Asks a question and writes the lines of its answer.
fn answer(rt: &impl Print, question: Question, bytes: &[u8]) -> Result<(), Unanswered>
    ensures { Tells result (is_whole question bytes.now) }
{
    match question {
        Question::Open => {
            boards::answer_open(rt, bytes)?;
            Ok(())
        }
        Question::Piece => boards::answer_piece(rt, bytes),
        Question::Blank => boards::answer_blank(rt, bytes),
        Question::Read => {
            texts::answer_read(rt, bytes)?;
            Ok(())
        }
        Question::Check => rows::ask(bytes, |rows| channels::put_check(rt, rows)),
        Question::Bounds => rows::ask(bytes, |rows| channels::put_bounds(rt, rows)),
        Question::Fill => rows::ask(bytes, |rows| channels::put_fill(rt, rows)),
        Question::Judge => rows::ask_beside(
            bytes,
            |rows, board| channels::put_judged(rt, rows, board),
        ),
        Question::Looks => rows::ask(bytes, |rows| channels::put_looks(rt, rows)),
        Question::Own => rows::ask(bytes, |rows| boards::put_own(rt, rows)),
        Question::Fewest => rows::ask(bytes, |rows| channels::put_fewest(rt, rows)),
        Question::Join => rows::ask_beside(
            bytes,
            |rows, second| panels::put_joined(rt, rows, second),
        ),
        Question::Draft => drafts::answer_draft(rt, bytes),
    }
}

// The kind and the bytes of the next case, or none at the end of the input.
fn next_case<'a>(
    input: &mut impl Read,
    room: &'a mut [u8; CASE_ROOM],
) -> Result<Option<(u8, &'a [u8])>, Unanswered> {
    let mut head = [0u8; 3];
    let got = files::read_full(input, &mut head)?;
    if got == 0 {
        return Ok(None);
    }
    let [kind, high, low] = head;
    let bytes = &mut room[..u16::from_be_bytes([high, low]) as usize];
    if got < 3 || files::read_full(input, bytes)? < bytes.len() {
        return Err(Unanswered::Cut);
    }
    Ok(Some((kind, bytes)))
}

// Answers one case after the other. A proved loop has to end, so this one counts its turns, up to a number that no run
// reaches.
fn answer_all(rt: &impl Print, input: &mut impl Read) -> Result<(), Unanswered> {
    let mut room = [0u8; CASE_ROOM];
    for _ in 0..u64::MAX {
        let Some((kind, bytes)) = next_case(input, &mut room)? else {
            break;
        };
        answer(rt, Question::try_from(kind)?, bytes)?;
    }
    Ok(())
}

fn main(rt: HostRuntime) -> io::Result<()> {
    match answer_all(&rt, &mut rt.stdin()) {
        Ok(()) => Ok(()),
        Err(Unanswered::Cut) => println!(rt; "CUT"),
        Err(Unanswered::Failed(error)) => Err(error),
    }
}
