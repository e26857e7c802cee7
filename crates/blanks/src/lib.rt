// The blanks that boards are made on: the stock's, and those of a customer's own laminate.
#![tactic(auto)]

mod laminate;
mod search;

ghost use Rattle.std.specs.Prelude.{◌≡◌};
ghost use Rattle.blanks.specs.Stock.{blank_answer};

pub use laminate::own_blank;
use refusal::Refusal;
use search::first_that_holds;

// The tracks that each stock blank holds, rising.
const STOCK: [u32; 12] = [8, 12, 16, 24, 32, 48, 64, 96, 128, 192, 256, 512];

// The smallest stock blank that holds a number of tracks. It is not `own_blank` of the stock, as docs/DECISIONS.md tells:
// what `own_blank` checks at each call is shown of the stock once.
pub fn blank(tracks: u32) -> Result<u32, Refusal>
    ensures { result ≡ blank_answer tracks }
{
    first_that_holds(&STOCK, tracks).ok_or(Refusal::NoBlank(tracks as usize))
}
