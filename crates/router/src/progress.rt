// How many looks the fill of a channel takes, and the most that it can take, for a progress bar.
ghost use Rattle.std.specs.Prelude.{◌≡◌, length};
ghost use Rattle.channel.specs.Channel.{rows, spanning};
ghost use Rattle.router.specs.Progress.{looks_answer, ceiling_answer};

use channel::Rows;
use grid::{Column, NET_SLOTS, WIDEST};
use refusal::Refusal;

// The looks of rows of any lengths and numbers, tangled or not, or the first of refusals 3 to 5 that applies.
pub fn looks(top: &[u32], bot: &[u32]) -> Result<usize, Refusal>
    ensures { result ≡ looks_answer (rows top.now bot.now) }
{
    let rows = Rows::accept(top, bot)?;
    let mut upper = [0u32; WIDEST];
    let mut lower = [0u32; WIDEST];
    let nets = rows.without_parked(&mut upper, &mut lower);
    Ok(leftedge::count_looks(&nets))
}

// How many nets with spans a channel has.
// The list is made for its count alone: a function that only counts would be one more.
fn count_spanning(rows: &Rows) -> usize
    ensures { result ≡ length (spanning rows.now) }
{
    let mut upper = [0u32; WIDEST];
    let mut lower = [0u32; WIDEST];
    let nets = rows.without_parked(&mut upper, &mut lower);
    let mut first = [Column(0); NET_SLOTS];
    let mut last = [Column(0); NET_SLOTS];
    let mut items = [0u32; NET_SLOTS];
    nets.columns(&mut first, &mut last)
        .list_spanning(&mut items)
}

// The most looks that a fill of so many nets with spans can take, of rows of any lengths and numbers, or the first of
// refusals 3 to 5 that applies.
pub fn ceiling(top: &[u32], bot: &[u32]) -> Result<usize, Refusal>
    ensures { result ≡ ceiling_answer (rows top.now bot.now) }
{
    let rows = Rows::accept(top, bot)?;
    let n = count_spanning(&rows);
    Ok(n * (n + 1) / 2)
}
