// Two lists on one panel, joined into rows that hold the mark everywhere before.
use crate::rows::{self, Rows};
use crate::{output, texts};
use refusal::ROW_TRAY;
use std::io;

// Joins a list of two rows and the list in `bytes`, which has the form of a case's rows.
pub fn put_joined(rt: &impl Print, first: &Rows, bytes: &[u8]) -> io::Result<()> {
    let second = rows::read_fitting(bytes);
    let mut top = [output::MARK; ROW_TRAY];
    let mut bot = [output::MARK; ROW_TRAY];
    let answer = panel::join(
        first.top.numbers(),
        first.bot.numbers(),
        second.top.numbers(),
        second.bot.numbers(),
        &mut top,
        &mut bot,
    );
    texts::put_rows(rt, "JOIN", answer, &top, &bot)
}
