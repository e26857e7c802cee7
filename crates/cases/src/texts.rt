// Pin lists, read into rows that hold the mark everywhere before.
use crate::output;
use refusal::{ROW_TRAY, Refusal};
use std::io;

// Writes the width and the rows' fronts, or the refusal; the rest of both rows must still hold the mark.
// The rows are whole: their fronts are written, and the rest is looked at.
pub fn put_rows(
    rt: &impl Print,
    word: &str,
    answer: Result<usize, Refusal>,
    top: &[u32; ROW_TRAY],
    bot: &[u32; ROW_TRAY],
) -> io::Result<()> {
    output::put_answer(rt, word, answer)?;
    if let Ok(width) = answer {
        output::put_row(rt, "TOP", top, width)?;
        output::put_row(rt, "BOT", bot, width)?;
    }
    let used = answer.unwrap_or(0);
    let kept = output::is_kept(top, used, output::MARK) && output::is_kept(bot, used, output::MARK);
    output::put_kept(rt, kept)
}

// Any text makes a question.
pub fn answer_read(rt: &impl Print, text: &[u8]) -> io::Result<()> {
    let mut top = [output::MARK; ROW_TRAY];
    let mut bot = [output::MARK; ROW_TRAY];
    let answer = pinlist::read(text, &mut top, &mut bot);
    put_rows(rt, "READ", answer, &top, &bot)
}
