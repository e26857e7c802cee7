// The bounds of a channel: its density and its chain, of its nets with spans as items.
ghost use Rattle.std.specs.Prelude.{◌≡◌};
ghost use Rattle.channel.specs.Channel.{rows, spanning};
ghost use Rattle.channel.specs.Density.{density};
ghost use Rattle.channel.specs.Constraints.{chain};
ghost use Rattle.channel.specs.Answers.{bounds_of, bounds_answer};

use crate::{Columns, LowerBounds, Nets, Rows};
use grid::{COLUMN_SLOTS, Column, NET_SLOTS, WIDEST};
use refusal::Refusal;

// The density of a channel, from the list of its nets with spans.
fn density_of(columns: &Columns, items: &[u32]) -> u32
    requires { items.now ≡ spanning columns.now }
    ensures { result ≡ density columns.now }
{
    let (top, first, last) = (columns.top, columns.first, columns.last);
    let w = top.len();
    let mut starts = [0u32; COLUMN_SLOTS];
    let mut ends = [0u32; COLUMN_SLOTS];
    items::greatest_density(items, first, last, &mut starts[..w + 1], &mut ends[..w + 1])
}

// Its chain, 0 where it is tangled. `queue` is room for the nets that are peeled.
fn chain_of(nets: &Nets, items: &[u32], queue: &mut [u32; NET_SLOTS]) -> u32
    requires { items.now ≡ spanning nets.now }
    ensures { result ≡ chain nets.now }
{
    let (top, bot) = (nets.top, nets.bot);
    let mut head = [0u16; NET_SLOTS];
    let mut next = [0u16; COLUMN_SLOTS];
    let mut under = [0u16; NET_SLOTS];
    items::link_steps(top, bot, &mut head, &mut next, &mut under);
    items::longest_chain(items, top, &head, &next, &mut under, queue)
}

// The density and the chain of rows that show nets only.
fn bounds_of_nets(nets: &Nets) -> LowerBounds
    ensures { result ≡ bounds_of nets.now }
{
    let mut first = [Column(0); NET_SLOTS];
    let mut last = [Column(0); NET_SLOTS];
    let columns = nets.columns(&mut first, &mut last);
    let mut items = [0u32; NET_SLOTS];
    let count = columns.list_spanning(&mut items);
    let listed = &items[..count];
    let density = density_of(&columns, listed);
    let mut queue = [0u32; NET_SLOTS];
    let chain = chain_of(nets, listed, &mut queue);
    LowerBounds { density, chain }
}

// The density and the chain of a channel. Rows without parked pins are taken as they are.
fn bounds_of(rows: &Rows) -> LowerBounds
    ensures { result ≡ bounds_of rows.now }
{
    if let Some(nets) = rows.nets() {
        return bounds_of_nets(&nets);
    }
    let mut upper = [0u32; WIDEST];
    let mut lower = [0u32; WIDEST];
    bounds_of_nets(&rows.without_parked(&mut upper, &mut lower))
}

// The density and the chain of rows of any lengths and numbers, or the first of refusals 3 to 5 that applies.
pub fn bounds(top: &[u32], bot: &[u32]) -> Result<LowerBounds, Refusal>
    ensures { result ≡ bounds_answer (rows top.now bot.now) }
{
    let rows = Rows::accept(top, bot)?;
    Ok(bounds_of(&rows))
}
