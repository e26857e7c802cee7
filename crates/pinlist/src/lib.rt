// A pin list as a text, read into two lent rows.
#![tactic(auto)]

mod line;
mod number;

ghost use Rattle.std.specs.Prelude.{◌≡◌, ◌≤◌, length};
ghost use Rattle.lists.specs.Lists.{overlay};
ghost use Rattle.pinlist.specs.Code.{Parsed, ReadDone};

use crate::line::Stuck;
use grid::WIDEST;
use refusal::{ROW_TRAY, Refusal};

// Reads a whole text, keeping the first 512 numbers of each row, and answers the lengths of its rows; a number over 511
// is kept as 512.
fn parse(
    text: &[u8],
    top: &mut [u32; WIDEST],
    bot: &mut [u32; WIDEST],
) -> Result<(usize, usize), Stuck>
    ensures { Parsed text.now top.old bot.old result top.new bot.new }
{
    let tops = line::read_line(text, 0, b"TOP ", top)?;
    let bots = line::read_line(text, tops.next, b"BOT ", bot)?;
    if bots.next < text.len() {
        return Err(Stuck(bots.next));
    }
    Ok((tops.count, bots.count))
}

// Copies a row to the front of a lent one; the rest of it stays.
#[tactic(auto, using(lists::specs::Copies::front_is_overlay))]
fn copy_row(from: &[u32], to: &mut [u32])
    requires { length from.now ≤ length to.old }
    ensures { to.new ≡ overlay from.now to.old }
{
    to[..from.len()].copy_from_slice(from);
}

// Reads a pin list into two lent rows, each of at least 512 numbers, and answers their width. The text is checked whole
// before a row is written: under a refusal both rows are as they were. Time is linear in the text.
pub fn read(text: &[u8], top: &mut [u32], bot: &mut [u32]) -> Result<usize, Refusal>
    ensures { ReadDone text.now top.old bot.old result top.new bot.new }
{
    if top.len() < ROW_TRAY || bot.len() < ROW_TRAY {
        return Err(Refusal::ShortTray(ROW_TRAY));
    }
    let mut tops = [0u32; WIDEST];
    let mut bots = [0u32; WIDEST];
    let (a, b) = parse(text, &mut tops, &mut bots)?;
    if WIDEST < a || WIDEST < b {
        return Err(Refusal::TooWide(WIDEST + 1));
    }
    channel::check(&tops[..a], &bots[..b])?;
    copy_row(&tops[..a], top);
    copy_row(&bots[..b], bot);
    Ok(a)
}
