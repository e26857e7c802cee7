// The entries that a C program calls. Each answers one number: 0 in the upper 32 bits and the value in the lower, or
// the number of a refusal or fault in the upper and its place in the lower; a place over 4,294,967,295 is shown as
// that. screen/channel.h documents them for C.
#![tactic(auto)]

ghost use Rattle.std.specs.Prelude.{◌≡◌, ◌≤◌};
ghost use Rattle.refusal.specs.Refusals.{told_at, told_refusal};
ghost use Rattle.channel.specs.Channel.{rows};
ghost use Rattle.draft.specs.History.{arrive, leave, count, whole};
ghost use Rattle.judge.specs.Answers.{fault_number, fault_place};
ghost use Rattle.screen_api.specs.Numbers.{entry_number};
ghost use Rattle.screen_api.specs.Code.{ReadEntry, BoundsEntry, RouteEntry, LooksEntry, CeilingEntry};
ghost use Rattle.screen_api.specs.Code.{FewestEntry, JoinEntry, JudgeEntry, BlankEntry, OwnBlankEntry};
ghost use Rattle.screen_api.specs.Drafts.{ChangeEntry, ClearEntry, AskEntry};

use channel::LowerBounds;
use grid::{Column, Net};
use judge::{Fault, JudgeAnswer};
use refusal::Refusal;
use router::Drawn;

// A number of the table and its place, in one number: refusals and faults both have them, and C gets both in one.
fn numbered_at(number: u32, place: usize) -> u64
    requires { number ≤ 23 }
    ensures { result ≡ entry_number (told_at number place) }
{
    number as u64 * 4294967296 + place.min(u32::MAX as usize) as u64
}

// The number of a refusal and its place.
fn refused(refusal: Refusal) -> u64
    ensures { result ≡ entry_number (told_refusal refusal) }
{
    numbered_at(refusal::number_of(refusal), refusal::place_of(refusal))
}

// Reads a pin list into two rows of at least 512 numbers each: the width, or refusals 1 to 5.
#[unsafe(no_mangle)]
pub extern "C" fn cabjirt_read(text: &[u8], top: &mut [u32], bot: &mut [u32]) -> u64
    ensures { ReadEntry text.now top.old bot.old result top.new bot.new }
{
    pinlist::read(text, top, bot).map_or_else(refused, |w| w as u64)
}

// The bounds of rows: density times 65,536 plus chain, or refusals 3 to 5.
#[unsafe(no_mangle)]
pub extern "C" fn cabjirt_bounds(top: &[u32], bot: &[u32]) -> u64
    ensures { BoundsEntry (rows top.now bot.now) result }
{
    channel::bounds(top, bot).map_or_else(
        refused,
        |LowerBounds { density, chain }| density as u64 * 65536 + chain as u64,
    )
}

// Routes rows: pieces times 65,536 plus tracks, with the board file at the front of the board; or refusals 1, 3 to 5
// and 7, under 7 with the ring's pairs at the front of the ring.
#[unsafe(no_mangle)]
pub extern "C" fn cabjirt_route(top: &[u32], bot: &[u32], ring: &mut [u32], board: &mut [u8]) -> u64
    ensures { RouteEntry (rows top.now bot.now) ring.old board.old result
        ring.new board.new }
{
    router::route_rows(top, bot, ring, board).answer.map_or_else(
        refused,
        |Drawn { tracks, pieces }| pieces as u64 * 65536 + tracks as u64,
    )
}

// The ring with the fewest nets of rows: the number of its pairs, which fill the front of the ring, or 0 if there is
// none; or refusals 1 and 3 to 5.
#[unsafe(no_mangle)]
pub extern "C" fn cabjirt_fewest_ring(top: &[u32], bot: &[u32], ring: &mut [u32]) -> u64
    ensures { FewestEntry (rows top.now bot.now) ring.old result ring.new }
{
    rings::fewest_ring(top, bot, ring).map_or_else(refused, |pairs| pairs.unwrap_or(0) as u64)
}

// Joins two lists of rows into two rows of at least 512 numbers each: the joined width, or refusals 1, 3 to 5 of list
// one, then of list two, 3 of both, and 18.
#[unsafe(no_mangle)]
pub extern "C" fn cabjirt_join(
    top1: &[u32],
    bot1: &[u32],
    top2: &[u32],
    bot2: &[u32],
    top: &mut [u32],
    bot: &mut [u32],
) -> u64
    ensures { JoinEntry (rows top1.now bot1.now) (rows top2.now bot2.now)
        top.old bot.old result top.new bot.new }
{
    panel::join(top1, bot1, top2, bot2, top, bot).map_or_else(refused, |w| w as u64)
}

// How many looks the fill of rows takes, tangled or not: each net unplaced as a track's scan begins, the last empty
// scan included; or refusals 3 to 5.
#[unsafe(no_mangle)]
pub extern "C" fn cabjirt_looks(top: &[u32], bot: &[u32]) -> u64
    ensures { LooksEntry (rows top.now bot.now) result }
{
    router::looks(top, bot).map_or_else(refused, |n| n as u64)
}

// The most looks that a fill of the nets with spans in rows can take, or refusals 3 to 5.
#[unsafe(no_mangle)]
pub extern "C" fn cabjirt_ceiling(top: &[u32], bot: &[u32]) -> u64
    ensures { CeilingEntry (rows top.now bot.now) result }
{
    router::ceiling(top, bot).map_or_else(refused, |n| n as u64)
}

// Judges a board file against rows: its tracks if it is good; or refusals 1, 3 to 5, 8 to 10, or faults 11 to 13.
#[unsafe(no_mangle)]
pub extern "C" fn cabjirt_judge(top: &[u32], bot: &[u32], board: &[u8], scratch: &mut [u32]) -> u64
    ensures { JudgeEntry (rows top.now bot.now) board.now scratch.old result
        scratch.new }
{
    match judge::judge(top, bot, board, scratch) {
        JudgeAnswer::Good(tracks) => tracks as u64,
        JudgeAnswer::Faulty(fault) => faulty(fault),
        JudgeAnswer::Refused(refusal) => refused(refusal),
    }
}

// The number of a fault and its place. No trait of what has both: two functions of one line would become a trait and
// two impls.
fn faulty(fault: Fault) -> u64
    ensures { result ≡ entry_number (told_at (fault_number fault) (fault_place fault)) }
{
    numbered_at(judge::fault_number(fault), judge::fault_place(fault))
}

// The smallest stock blank for a number of tracks, or refusal 14.
#[unsafe(no_mangle)]
pub extern "C" fn cabjirt_blank(tracks: u32) -> u64
    ensures { BlankEntry tracks result }
{
    blanks::blank(tracks).map_or_else(refused, |held| held as u64)
}

// The smallest entry of a customer's own table that holds a number of tracks; or refusals 14 to 16.
#[unsafe(no_mangle)]
pub extern "C" fn cabjirt_own_blank(table: &[u32], tracks: u32) -> u64
    ensures { OwnBlankEntry table.now tracks result }
{
    blanks::own_blank(table, tracks).map_or_else(refused, |held| held as u64)
}

// Takes all nets off a draft of at least 4,096 words: 0, or refusal 1.
#[unsafe(no_mangle)]
pub extern "C" fn cabjirt_draft_clear(words: &mut [u64]) -> u64
    ensures { ClearEntry words.old result words.new }
{
    draft::clear(words).map_or_else(refused, |()| 0)
}

// A net arrives on a draft: 0, or refusals 1, 21 and 22.
#[unsafe(no_mangle)]
pub extern "C" fn cabjirt_draft_arrive(words: &mut [u64], number: u32, first: u32, last: u32) -> u64
    ensures { ChangeEntry words.old (arrive number first last) result words.new }
{
    draft::arrive(words, Net(number), Column(first), Column(last)).map_or_else(refused, |()| 0)
}

// A net leaves a draft: 0, or refusals 1, 21 and 23.
#[unsafe(no_mangle)]
pub extern "C" fn cabjirt_draft_leave(words: &mut [u64], number: u32) -> u64
    ensures { ChangeEntry words.old (leave number) result words.new }
{
    draft::leave(words, Net(number)).map_or_else(refused, |()| 0)
}

// How many nets a draft has over a column, 0 outside 1 to 512; or refusal 1.
#[unsafe(no_mangle)]
pub extern "C" fn cabjirt_draft_count(words: &[u64], column: u32) -> u64
    ensures { AskEntry words.now (count column) result }
{
    draft::count(words, Column(column)).map_or_else(refused, |count| count as u64)
}

// The greatest count of a draft's columns; or refusal 1.
#[unsafe(no_mangle)]
pub extern "C" fn cabjirt_draft_greatest(words: &[u64]) -> u64
    ensures { AskEntry words.now whole result }
{
    draft::greatest(words).map_or_else(refused, |count| count as u64)
}
