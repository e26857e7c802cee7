// Two rows in bytes: the length of TOP in two bytes, then all numbers, two bytes each.
ghost use Rattle.std.specs.Prelude.{◌≡◌, ◌+◌, ◌-◌, ◌*◌, ◌/◌, ◌≤◌, ◌<◌, MatchResult, length, drop};
ghost use Rattle.cases.specs.Cases.{number_at, rows_whole, beside_whole, top_fitting, bot_fitting};
ghost use Rattle.cases.specs.Questions.{Tells, ReadsRows, HasRows};
ghost use Rattle.cases.specs.declared.question.Unanswered.TheVariants.{Cut};

use crate::question::Unanswered;
use crate::row::{ROW_ROOM, Row};
use std::io;

// The number in the two bytes at byte `at`, most significant first; 0 where they are not there.
// 0 and no None: bytes that may lack it are read too, and so the definition `number_at`.
pub fn number_at(bytes: &[u8], at: usize) -> u16
    ensures { result ≡ number_at bytes.now at }
{
    if bytes.len() < 2 || bytes.len() - 2 < at {
        return 0;
    }
    u16::from_be_bytes([bytes[at], bytes[at + 1]])
}

// The number in the first two bytes, and the bytes behind it; bytes that lack it are cut.
pub fn front(bytes: &[u8]) -> Result<(u16, &[u8]), Unanswered>
    ensures { MatchResult result
        (λ p. (2 ≤ length bytes.now) × (p.0 ≡ number_at bytes.now 0) × (p.1.now ≡ drop 2 bytes.now))
        (λ e. (e ≡ Cut) × (length bytes.now < 2)) }
{
    let Some((&number, behind)) = bytes.split_first_chunk::<2>() else {
        return Err(Unanswered::Cut);
    };
    Ok((u16::from_be_bytes(number), behind))
}

// TOP and BOT of a channel.
#[derive(Drop)]
pub struct Rows {
    pub top: Row,
    pub bot: Row,
}

// The rows in `bytes`, of which TOP has a numbers and BOT b.
fn rows_of(bytes: &[u8], a: usize, b: usize) -> Rows
    requires { (a ≤ 1024) × (b ≤ 1024) }
    ensures { HasRows bytes.now a b result }
{
    Rows {
        top: Row::read(bytes, 2, a),
        bot: Row::read(bytes, 2 + 2 * a, b),
    }
}

// Reads two rows of at most 1,024 numbers each; those that lack bytes or are longer are cut.
pub fn read_rows(bytes: &[u8]) -> Result<Rows, Unanswered>
    ensures { ReadsRows bytes.now result }
{
    let (first, numbers) = front(bytes)?;
    let a = first as usize;
    let all = numbers.len() / 2;
    if all < a || ROW_ROOM < a || ROW_ROOM < all - a {
        return Err(Unanswered::Cut);
    }
    Ok(rows_of(bytes, a, all - a))
}

// Reads two rows as `read_rows` does, but of rows that lack bytes, or are longer than there is room for, just the
// numbers that are there and have room.
pub fn read_fitting(bytes: &[u8]) -> Rows
    ensures { HasRows bytes.now (top_fitting bytes.now) (bot_fitting bytes.now) result }
{
    let all = (bytes.len() / 2).saturating_sub(1);
    let a = (number_at(bytes, 0) as usize).min(all).min(ROW_ROOM);
    rows_of(bytes, a, (all - a).min(ROW_ROOM))
}

// Asks a question about the rows in `bytes`.
pub fn ask<F: FnOnce(&Rows) -> io::Result<()>>(bytes: &[u8], put: F) -> Result<(), Unanswered>
    requires { F.IsAlwaysCallable put }
    ensures { Tells result (rows_whole bytes.now) }
{
    let rows = read_rows(bytes)?;
    put(&rows)?;
    Ok(())
}

// Asks a question about rows and what goes with them: the length of the rows' bytes stands in front in two bytes, and
// behind the rows stands the other.
pub fn ask_beside<F: FnOnce(&Rows, &[u8]) -> io::Result<()>>(
    bytes: &[u8],
    put: F,
) -> Result<(), Unanswered>
    requires { F.IsAlwaysCallable put }
    ensures { Tells result (beside_whole bytes.now) }
{
    let (size, behind) = front(bytes)?;
    let Some((rows, beside)) = behind.split_at_checked(size as usize) else {
        return Err(Unanswered::Cut);
    };
    ask(rows, |rows| put(rows, beside))
}

#[cfg(test)]
mod tests {
    use super::*;

    #[test]
    fn rows_are_read(rt: HostRuntime) -> Result<(), Unanswered> {
        let rows = read_rows(b"\0\x01\0\x05\0\x06\0\x07")?;
        assert_eq!(rt; rows.top.numbers(), [5].as_slice());
        assert_eq!(rt; rows.bot.numbers(), [6, 7].as_slice());
        Ok(())
    }

    #[test]
    fn fitting_rows_are_read(rt: HostRuntime) {
        let rows = read_fitting(b"\0\x02\0\x05");
        assert_eq!(rt; rows.top.numbers(), [5].as_slice());
        assert_eq!(rt; rows.bot.numbers(), [].as_slice());
    }
}
