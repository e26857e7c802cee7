// The ring with the fewest nets (SCOPE, Req 05): the fewest wires to move in a tangled channel.
#![tactic(auto)]

mod fewest;
mod search;

ghost use Rattle.channel.specs.Channel.{rows};
ghost use Rattle.rings.specs.Code.{FewestDone};

use channel::Rows;
use refusal::{RING_TRAY, Refusal};

// The ring with the fewest nets of rows of any lengths and numbers, its pairs at the front of `ring`, net and column, and
// how many they are; of several the lowest list, each begun at its lowest net. Or that there is no ring, or refusals 1,
// 3 to 5: then `ring` stays as it was.
pub fn fewest_ring(top: &[u32], bot: &[u32], ring: &mut [u32]) -> Result<Option<u32>, Refusal>
    ensures { FewestDone (rows top.now bot.now) ring.old result ring.new }
{
    if ring.len() < RING_TRAY {
        return Err(Refusal::ShortTray(RING_TRAY));
    }
    let rows = Rows::accept(top, bot)?;
    Ok(fewest::fewest_of(&rows, ring))
}
