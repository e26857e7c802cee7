// The lines that are written.
ghost use Rattle.std.specs.Prelude.{◌≡◌, drop};
ghost use Rattle.std.specs.List.{list_all};

use refusal::Refusal;
use std::fmt::Display;
use std::io;

// The word of a line, and the number of a refusal and its place.
pub fn put_refusal(rt: &impl Print, word: &str, refusal: Refusal) -> io::Result<()> {
    println!(rt;
        "{word} {} {}",
        refusal::number_of(refusal),
        refusal::place_of(refusal)
    )
}

// The word, and 0 and the value, or the refusal.
pub fn put_answer<T: Display + Drop>(
    rt: &impl Print,
    word: &str,
    answer: Result<T, Refusal>,
) -> io::Result<()> {
    match answer {
        Ok(value) => println!(rt; "{word} 0 {value}"),
        Err(refusal) => put_refusal(rt, word, refusal),
    }
}

// The word, and 0 or the refusal.
pub fn put_done(rt: &impl Print, word: &str, answer: Result<(), Refusal>) -> io::Result<()> {
    match answer {
        Ok(()) => println!(rt; "{word} 0"),
        Err(refusal) => put_refusal(rt, word, refusal),
    }
}

// The word, and the first `count` numbers of a row.
// A count beside the row, cut by `take` or `skip`: one past the row is no failure then.
pub fn put_row(rt: &impl Print, word: &str, row: &[u32], count: usize) -> io::Result<()> {
    print!(rt; "{word}")?;
    for number in row.iter().take(count) {
        print!(rt; " {number}")?;
    }
    rt.write_all(b"\n")
}

// What buffers hold everywhere before a question.
pub const MARK: u32 = 7777;

// Whether every number from place `from` on is the mark.
pub fn is_kept<T: Copy + PartialEq>(row: &[T], from: usize, mark: T) -> bool
    ensures { result ≡ list_all (λ n. T.PartialEq.eq n mark) (drop from row.now) }
{
    row.iter().skip(from).all(|&n| n == mark)
}

pub fn put_kept(rt: &impl Print, kept: bool) -> io::Result<()> {
    println!(rt; "{}", if kept { "KEPT" } else { "LOST" })
}
