// Channels handed over as rows, and boards judged against them.
ghost use Rattle.std.specs.Prelude.{◌≡◌, ◌*◌, min};
ghost use Rattle.refusal.specs.Trays.{record_tray};

use crate::output::{self, MARK};
use crate::rows::Rows;
use channel::LowerBounds;
use judge::JudgeAnswer;
use refusal::{BOARD_TRAY, RECORD_TRAY, RING_TRAY, Refusal, SCRATCH_TRAY};
use router::Routing;
use std::io;

pub fn put_check(rt: &impl Print, rows: &Rows) -> io::Result<()> {
    output::put_done(
        rt,
        "CHECK",
        channel::check(rows.top.numbers(), rows.bot.numbers()),
    )
}

pub fn put_bounds(rt: &impl Print, rows: &Rows) -> io::Result<()> {
    match channel::bounds(rows.top.numbers(), rows.bot.numbers()) {
        Ok(LowerBounds { density, chain }) => println!(rt; "BOUNDS 0 {density} {chain}"),
        Err(refusal) => output::put_refusal(rt, "BOUNDS", refusal),
    }
}

// Twice a number of pairs, of which a ring has at most as many as the table has records.
fn doubled(pairs: usize) -> usize
    ensures { result ≡ 2 * min pairs record_tray }
{
    2 * pairs.min(RECORD_TRAY)
}

// The pairs at the front of a ring, and whether the remainder was kept.
fn put_ring(rt: &impl Print, ring: &[u32; RING_TRAY], pairs: usize) -> io::Result<()> {
    let used = doubled(pairs);
    output::put_row(rt, "RING", ring, used)?;
    output::put_kept(rt, output::is_kept(ring, used, MARK))
}

// The track of each net, by rising number.
fn put_tracks(rt: &impl Print, routing: &Routing) -> io::Result<()> {
    print!(rt; "TRACKS")?;
    for record in routing.records.iter().take(routing.count) {
        print!(rt; " {}", record.track.0)?;
    }
    rt.write_all(b"\n")
}

// Routes rows; the ring buffer holds 7777 everywhere before, and a refusal that is no 7 leaves it so.
pub fn put_fill(rt: &impl Print, rows: &Rows) -> io::Result<()> {
    let mut ring = [MARK; RING_TRAY];
    let mut board = [0u8; BOARD_TRAY];
    let routing = router::route_rows(
        rows.top.numbers(),
        rows.bot.numbers(),
        &mut ring,
        &mut board,
    );
    output::put_answer(rt, "FILL", routing.answer.map(|drawn| drawn.tracks))?;
    match routing.answer {
        Ok(_) => {
            put_tracks(rt, &routing)?;
            output::put_kept(rt, output::is_kept(&ring, 0, MARK))?;
        }
        Err(Refusal::Tangled(pairs)) => put_ring(rt, &ring, pairs)?,
        Err(_) => output::put_kept(rt, output::is_kept(&ring, 0, MARK))?,
    }
    println!(rt; "LOOKS {}", routing.looks)
}

pub fn put_looks(rt: &impl Print, rows: &Rows) -> io::Result<()> {
    output::put_answer(
        rt,
        "LOOKS",
        router::looks(rows.top.numbers(), rows.bot.numbers()),
    )?;
    output::put_answer(
        rt,
        "CEILING",
        router::ceiling(rows.top.numbers(), rows.bot.numbers()),
    )
}

// The pairs of the ring with the fewest nets; the ring buffer holds 7777 everywhere before.
pub fn put_fewest(rt: &impl Print, rows: &Rows) -> io::Result<()> {
    let mut ring = [MARK; RING_TRAY];
    match rings::fewest_ring(rows.top.numbers(), rows.bot.numbers(), &mut ring) {
        Ok(Some(pairs)) => {
            println!(rt; "FEWEST 0 {pairs}")?;
            return put_ring(rt, &ring, pairs as usize);
        }
        Ok(None) => println!(rt; "FEWEST 0 NONE")?,
        Err(refusal) => output::put_refusal(rt, "FEWEST", refusal)?,
    }
    output::put_kept(rt, output::is_kept(&ring, 0, MARK))
}

pub fn put_judged(rt: &impl Print, rows: &Rows, board: &[u8]) -> io::Result<()> {
    let mut scratch = [0u32; SCRATCH_TRAY];
    match judge::judge(rows.top.numbers(), rows.bot.numbers(), board, &mut scratch) {
        JudgeAnswer::Good(tracks) => println!(rt; "JUDGE 0 {tracks}"),
        JudgeAnswer::Faulty(fault) => {
            println!(rt;
                "JUDGE {} {}",
                judge::fault_number(fault),
                judge::fault_place(fault)
            )
        }
        JudgeAnswer::Refused(refusal) => output::put_refusal(rt, "JUDGE", refusal),
    }
}
