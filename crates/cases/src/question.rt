// The kinds of question, and why a case has no answer.
ghost use Rattle.std.specs.Prelude.{◌≡◌, Bool};
ghost use Rattle.cases.specs.declared.question.Unanswered.TheVariants.{Failed};
ghost use Rattle.cases.specs.Questions.{Asks, CutUnless};

use std::io;

// A kind of question.
#[derive(Clone, Copy, Debug, PartialEq, Eq)]
pub enum Question {
    Open,
    Piece,
    Blank,
    Read,
    Check,
    Bounds,
    Fill,
    Judge,
    Looks,
    Own,
    Fewest,
    Join,
    Draft,
}

// Why a case has no answer: it is cut, that is it lacks bytes or is of no kind; or a read or write failed.
#[derive(Debug, Drop)]
pub enum Unanswered {
    Cut,
    Failed(io::Error),
}

impl From<io::Error> for Unanswered {
    ghost from_gives = { λ error r. r ≡ Failed error };

    fn from(error: io::Error) -> Unanswered {
        Unanswered::Failed(error)
    }
}

// By the byte that stands in front of a case.
impl TryFrom<u8> for Question {
    type Error = Unanswered;

    ghost try_from_gives = { Asks };

    fn try_from(kind: u8) -> Result<Question, Unanswered> {
        match kind {
            0 => Ok(Question::Open),
            1 => Ok(Question::Piece),
            2 => Ok(Question::Blank),
            3 => Ok(Question::Read),
            4 => Ok(Question::Check),
            5 => Ok(Question::Bounds),
            6 => Ok(Question::Fill),
            7 => Ok(Question::Judge),
            8 => Ok(Question::Looks),
            9 => Ok(Question::Own),
            10 => Ok(Question::Fewest),
            11 => Ok(Question::Join),
            12 => Ok(Question::Draft),
            _ => Err(Unanswered::Cut),
        }
    }
}
