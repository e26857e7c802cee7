// Two lists on one panel (SCOPE, Req 09): the second list's columns follow the first's, and its net numbers are raised
// by the first's highest.
#![tactic(auto)]

mod raising;

ghost use Rattle.std.specs.Prelude.{◌≡◌, ◌≤◌, length};
ghost use Rattle.refusal.specs.Trays.{row_tray};
ghost use Rattle.channel.specs.Channel.{rows};
ghost use Rattle.panel.specs.Code.{CheckedJoined, JoinDone};

use channel::Rows;
use grid::{HIGHEST_NET, WIDEST};
use refusal::{ROW_TRAY, Refusal};

// Joins two lists into rows that are long enough, or refuses them together.
fn join_checked(
    first: &Rows,
    second: &Rows,
    top: &mut [u32],
    bot: &mut [u32],
) -> Result<usize, Refusal>
    requires { (row_tray ≤ length top.old) × (row_tray ≤ length bot.old) }
    ensures { CheckedJoined first.now second.now top.old bot.old result top.new bot.new }
{
    let (top1, bot1) = (first.top, first.bot);
    let (top2, bot2) = (second.top, second.bot);
    let width = top1.len() + top2.len();
    if WIDEST < width {
        return Err(Refusal::TooWide(WIDEST + 1));
    }
    let highest = raising::highest_of(top1, bot1);
    // a number over what is left to 511 is over 511 when it is raised
    let lowest = raising::lowest_of(top2, bot2, HIGHEST_NET - highest);
    if lowest <= HIGHEST_NET {
        return Err(Refusal::PanelFull((highest + lowest) as usize));
    }
    raising::put_row(top1, top2, highest, top);
    raising::put_row(bot1, bot2, highest, bot);
    Ok(width)
}

// Joins two lists of rows of any lengths and numbers, which are only read, into two lent rows: the joined width, or
// refusals 1, 3 to 5 of list one, then of list two, 3 of both, and 18; under a refusal both lent rows are as they were.
// Time is linear in the rows.
pub fn join(
    top1: &[u32],
    bot1: &[u32],
    top2: &[u32],
    bot2: &[u32],
    top: &mut [u32],
    bot: &mut [u32],
) -> Result<usize, Refusal>
    ensures { JoinDone (rows top1.now bot1.now) (rows top2.now bot2.now)
        top.old bot.old result top.new bot.new }
{
    if top.len() < ROW_TRAY || bot.len() < ROW_TRAY {
        return Err(Refusal::ShortTray(ROW_TRAY));
    }
    // each list is checked alone, one then two
    let first = Rows::accept(top1, bot1)?;
    let second = Rows::accept(top2, bot2)?;
    join_checked(&first, &second, top, bot)
}
