// A customer's own laminate: a table of blanks that is checked at each choice.
ghost use Rattle.std.specs.Prelude.{◌≡◌, length, find};
ghost use Rattle.lists.specs.Lists.{up_to};
ghost use Rattle.blanks.specs.Laminate.{bad_entry};
ghost use Rattle.blanks.specs.Code.{OwnDone};

use crate::search::first_that_holds;
use refusal::Refusal;

// The most entries that a table may have, and the most tracks that an entry may hold.
const MOST_ENTRIES: usize = 64;

const MOST_TRACKS: u32 = 512;

// The place, from 1, of the first entry that is not 1 to 512 or not above the entry before it. A `for`, since pairs of
// neighbours would be no plainer: the first entry has none before it.
fn first_bad(table: &[u32]) -> Option<usize>
    ensures { result ≡ find (bad_entry table.now) (up_to (length table.now)) }
{
    let mut before: u32 = 0;
    for (i, &entry) in table.iter().enumerate() {
        if entry <= before || MOST_TRACKS < entry {
            return Some(i + 1);
        }
        before = entry;
    }
    None
}

// The smallest entry of a table that holds a number of tracks; or refusals 14, 15 and 16, in that order.
pub fn own_blank(table: &[u32], tracks: u32) -> Result<u32, Refusal>
    ensures { OwnDone table.now tracks result }
{
    if MOST_TRACKS < tracks {
        return Err(Refusal::NoBlank(tracks as usize));
    }
    if table.is_empty() || MOST_ENTRIES < table.len() {
        return Err(Refusal::BadTable(0));
    }
    if let Some(place) = first_bad(table) {
        return Err(Refusal::BadTable(place));
    }
    first_that_holds(table, tracks).ok_or(Refusal::NoStock(tracks as usize))
}
