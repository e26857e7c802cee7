// The check of two rows of any lengths and any numbers: refusals 3 to 5, in rising number.
ghost use Rattle.std.specs.Prelude.{◌≡◌, ◌↔◌, length, find, IsOk};
ghost use Rattle.lists.specs.Lists.{up_to};
ghost use Rattle.channel.specs.Channel.{Channel, rows};
ghost use Rattle.channel.specs.Answers.{Escapes, rows_answer, accepted};
ghost use Rattle.channel.specs.Rows.{high};

use grid::{HIGHEST_NET, WIDEST};
use refusal::Refusal;
use std::marker::Model;

// Two rows that escape refusals 3 to 5.
#[derive(Drop)]
pub struct Rows<'a> {
    pub top: &'a [u32],
    pub bot: &'a [u32],
}

impl<'a> Model for Rows<'a> {
    ghost Value = { Channel };

    ghost view = { λ r. rows r.top.now r.bot.now };

    ghost invariant = { λ r. Escapes (rows r.top.now r.bot.now) };
}

// The place, from 1, of the first number over 511 in a row.
fn first_high(row: &[u32]) -> Option<usize>
    ensures { result ≡ find (high row.now) (up_to (length row.now)) }
{
    for (i, &n) in row.iter().enumerate() {
        if HIGHEST_NET < n {
            return Some(i + 1);
        }
    }
    None
}

impl<'a> Rows<'a> {
    // Takes two rows of any lengths and any numbers as they are, or refuses them with the first of refusals 3 to 5 that
    // applies. Time is linear in the rows.
    pub fn accept(top: &'a [u32], bot: &'a [u32]) -> Result<Rows<'a>, Refusal>
        ensures { result ≡ accepted (rows top.now bot.now) }
    {
        let a = top.len();
        let b = bot.len();
        if WIDEST < a || WIDEST < b {
            return Err(Refusal::TooWide(WIDEST + 1));
        }
        if a != b {
            return Err(Refusal::Uneven(a.min(b) + 1));
        }
        if a == 0 {
            return Err(Refusal::Uneven(1));
        }
        if let Some(place) = first_high(top) {
            return Err(Refusal::HighNet(place));
        }
        if let Some(place) = first_high(bot) {
            return Err(Refusal::HighNet(a + place));
        }
        Ok(Rows { top, bot })
    }
}

// Accepts two rows, or refuses them with the first of refusals 3 to 5 that applies. Time is linear in the rows.
pub fn check(top: &[u32], bot: &[u32]) -> Result<(), Refusal>
    ensures answer { result ≡ rows_answer (rows top.now bot.now) }
    ensures accepted { IsOk result ↔ Escapes (rows top.now bot.now) }
{
    Rows::accept(top, bot)?;
    Ok(())
}
