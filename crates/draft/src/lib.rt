// A draft: the density of a list while nets come and go (SCOPE, Req 14). It is lent memory of 4,096 words of 64 bits,
// in which each column keeps one mark for each net over it.
#![tactic(auto)]

mod column;
mod columns;
mod mark;
mod span;

ghost use Rattle.draft.specs.Code.{ArriveDone, LeaveDone, CountDone, GreatestDone, ClearDone};

use crate::span::{Span, is_number};
use grid::{Column, Net, WIDEST};
use refusal::{DRAFT_TRAY, Refusal};

// A net arrives: its mark is put in each column from the first to the last; or refusals 1, 21 and 22, which change
// nothing. One word of each column of the draft is looked at, and one of each column of the span is written.
pub fn arrive(words: &mut [u64], net: Net, first: Column, last: Column) -> Result<(), Refusal>
    ensures { ArriveDone words.old net.0 first.0 last.0 result words.new }
{
    // taken out in each of the five functions: no clause of the kit says what a lent slice becomes behind a `Result`
    let words = words
        .first_chunk_mut::<DRAFT_TRAY>()
        .ok_or(Refusal::ShortTray(DRAFT_TRAY))?;
    let span = Span::new(net, first, last).ok_or(Refusal::BadSpan(net.0 as usize))?;
    if columns::is_here(words, net) {
        return Err(Refusal::AlreadyHere(net.0 as usize));
    }
    columns::mark_span(words, span);
    Ok(())
}

// A net leaves: its mark is taken off every column; or refusals 1, 21 and 23, which change nothing. One word of each
// column is looked at and written, in one pass. Where its mark is in no column, taking it out changes nothing.
pub fn leave(words: &mut [u64], net: Net) -> Result<(), Refusal>
    ensures { LeaveDone words.old net.0 result words.new }
{
    let words = words
        .first_chunk_mut::<DRAFT_TRAY>()
        .ok_or(Refusal::ShortTray(DRAFT_TRAY))?;
    if !is_number(net) {
        return Err(Refusal::BadSpan(net.0 as usize));
    }
    if !columns::take_out(words, net) {
        return Err(Refusal::NotHere(net.0 as usize));
    }
    Ok(())
}

// The count of a column, 0 outside 1 to 512; or refusal 1.
pub fn count(words: &[u64], c: Column) -> Result<u32, Refusal>
    ensures { CountDone words.now c.0 result }
{
    let words = words
        .first_chunk::<DRAFT_TRAY>()
        .ok_or(Refusal::ShortTray(DRAFT_TRAY))?;
    // two comparisons: `contains` of a range says no more
    if (1 <= c.0) & (c.0 as usize <= WIDEST) {
        Ok(column::marks_of(words, c))
    } else {
        Ok(0)
    }
}

// The greatest count of a column, in one pass; or refusal 1.
pub fn greatest(words: &[u64]) -> Result<u32, Refusal>
    ensures { GreatestDone words.now result }
{
    let words = words
        .first_chunk::<DRAFT_TRAY>()
        .ok_or(Refusal::ShortTray(DRAFT_TRAY))?;
    Ok(columns::greatest_of(words))
}

// Takes all nets off the draft; or refusal 1.
pub fn clear(words: &mut [u64]) -> Result<(), Refusal>
    ensures { ClearDone words.old result words.new }
{
    let words = words
        .first_chunk_mut::<DRAFT_TRAY>()
        .ok_or(Refusal::ShortTray(DRAFT_TRAY))?;
    words.fill(0);
    Ok(())
}
