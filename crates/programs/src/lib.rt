// What the programs write, of the bytes that they read. A program itself only reads and writes.
#![tactic(auto)]

ghost use Rattle.std.specs.Prelude.{◌≡◌, ◌≤◌, Ok, length, take};
ghost use Rattle.io.specs.Counts.{IsPrefixLen};
ghost use Rattle.refusal.specs.Refusals.{place_of};
ghost use Rattle.refusal.specs.Trays.{row_tray, record_tray, ring_tray};
ghost use Rattle.channel.specs.Channel.{rows};
ghost use Rattle.text.specs.Lines.{Put};
ghost use Rattle.report.specs.Lines.{refusal_line};
ghost use Rattle.report.specs.Code.{listing_text};
ghost use Rattle.programs.specs.declared.Unread.TheVariants.{Refused};
ghost use Rattle.programs.specs.Programs.{of_filled, listing, board_bytes, judge_lines, judged_against};
ghost use Rattle.programs.specs.Programs.{fewest_lines, listing_output, board_output, judge_output, ring_output};
ghost use Rattle.programs.specs.Programs.{of_pin_list, pin_list, panel_lines, panel_output};
ghost use Rattle.programs.specs.Code.{unread_line, channel_of, unrouted_text, figures_of, pins_pass};

mod pins;

use channel::LowerBounds;
use judge::JudgeAnswer;
use pins::Pins;
use refusal::{BOARD_TRAY, RING_TRAY, ROW_TRAY, Refusal, SCRATCH_TRAY};
use report::Figures;
use router::{Drawn, Routing};

// The most bytes of an input that is handed to the library.
const INPUT_LIMIT: usize = 65536;

// The room that a program reads an input into: one byte over the limit tells an input that is over it.
pub const INPUT_ROOM: usize = INPUT_LIMIT + 1;

// The room that a program has what it writes put into.
pub const OUTPUT_ROOM: usize = 65536;

// Why a pin list was not read: it is over the limit, or it is refused.
#[derive(Clone, Copy, Debug, PartialEq, Eq)]
enum Unread {
    OverLimit,
    Refused(Refusal),
}

impl From<Refusal> for Unread {
    ghost from_gives = { λ refusal r. r ≡ Refused refusal };

    fn from(refusal: Refusal) -> Unread {
        Unread::Refused(refusal)
    }
}

// Whether a pin list is within the limit and not refused.
pub fn pins_pass(pins: &[u8]) -> bool
    ensures { result ≡ pins_pass pins.now }
{
    Pins::read(pins).is_ok()
}

// The line of a refusal; answers its length.
fn put_refusal(out: &mut [u8], refusal: Refusal) -> usize
    requires { 64 ≤ length out.old }
    ensures put { Put out.old 0 (refusal_line refusal) out.new result }
    ensures upper_bound { result ≤ 64 }
{
    report::put_refused(
        out,
        refusal::number_of(refusal) as u64,
        refusal::place_of(refusal) as u64,
    )
}

// The line of an input that was not read; answers its length.
fn put_unread(out: &mut [u8], unread: Unread) -> usize
    requires { 64 ≤ length out.old }
    ensures put { Put out.old 0 (unread_line unread) out.new result }
    ensures upper_bound { result ≤ 64 }
{
    match unread {
        Unread::OverLimit => report::put_refused(out, 0, INPUT_LIMIT as u64),
        Unread::Refused(refusal) => put_refusal(out, refusal),
    }
}

// The lines of a refusal of the router: with the ring's lines under 7.
fn put_unrouted(out: &mut [u8], refusal: Refusal, ring: &[u32]) -> usize
    requires { (place_of refusal ≤ record_tray) × (ring_tray ≤ length ring.now) × (65536 ≤ length out.old) }
    ensures put { Put out.old 0 (unrouted_text refusal ring.now) out.new result }
    ensures upper_bound { result ≤ 65536 }
{
    let size = put_refusal(out, refusal);
    match refusal {
        Refusal::Tangled(pairs) => report::put_ring(out, size, ring, pairs),
        _ => size,
    }
}

// The figures of a channel that is routed.
fn figures(pins: &Pins, drawn: Drawn) -> Result<Figures, Refusal>
    requires { drawn.tracks ≤ record_tray }
    ensures { result ≡ Ok (figures_of (channel_of pins.now) drawn.tracks drawn.pieces) }
{
    let LowerBounds { density, chain } = channel::bounds(pins.top(), pins.bot())?;
    let blank = blanks::blank(drawn.tracks)?;
    Ok(Figures {
        width: pins.top().len() as u32,
        tracks: drawn.tracks,
        blank,
        density,
        chain,
        pieces: drawn.pieces,
    })
}

// The listing of a channel that is routed.
fn put_routed(out: &mut [u8], pins: &Pins, routing: &Routing, drawn: Drawn) -> usize
    requires { (drawn.tracks ≤ record_tray) × (routing.now.count ≤ record_tray) × (65536 ≤ length out.old) }
    ensures put { Put out.old 0
        (listing_text (figures_of (channel_of pins.now) drawn.tracks drawn.pieces)
        (take routing.now.count routing.now.records))
        out.new result }
    ensures upper_bound { result ≤ 65536 }
{
    match figures(pins, drawn) {
        Ok(figures) => report::put_listing(out, figures, &routing.records[..routing.count]),
        Err(refusal) => put_refusal(out, refusal),
    }
}

// The listing of a channel that is accepted, or refusal 7.
fn list_channel(pins: &Pins, out: &mut [u8]) -> usize
    requires { 65536 ≤ length out.old }
    ensures put { Put out.old 0 (of_filled listing (channel_of pins.now)) out.new result }
    ensures upper_bound { result ≤ 65536 }
{
    let mut ring = [0u32; RING_TRAY];
    let mut board = [0u8; BOARD_TRAY];
    let routing = router::route_rows(pins.top(), pins.bot(), &mut ring, &mut board);
    match routing.answer {
        Ok(drawn) => put_routed(out, pins, &routing, drawn),
        Err(refusal) => put_unrouted(out, refusal, &ring),
    }
}

// What the listing program writes of the text that it reads, at the front of `out`; answers how many bytes that is.
// Here and below a match of two arms: the clauses on a closure for the step would be longer.
pub fn listing_output(text: &[u8], out: &mut [u8]) -> usize
    requires { 65536 ≤ length out.old }
    ensures put { Put out.old 0 (listing_output text.now) out.new result }
    ensures prefix_len { IsPrefixLen result out.new }
{
    match Pins::read(text) {
        Ok(pins) => list_channel(&pins, out),
        Err(unread) => put_unread(out, unread),
    }
}

// The board file of a channel that is accepted, or refusal 7.
fn board_channel(pins: &Pins, out: &mut [u8]) -> usize
    requires { 65536 ≤ length out.old }
    ensures put { Put out.old 0 (of_filled board_bytes (channel_of pins.now)) out.new result }
    ensures upper_bound { result ≤ 65536 }
{
    let mut ring = [0u32; RING_TRAY];
    let routing = router::route_rows(pins.top(), pins.bot(), &mut ring, out);
    match routing.answer {
        Ok(drawn) => 4 + 4 * drawn.pieces as usize,
        Err(refusal) => put_unrouted(out, refusal, &ring),
    }
}

// What the program that writes board files writes of the text that it reads.
pub fn board_output(text: &[u8], out: &mut [u8]) -> usize
    requires { 65536 ≤ length out.old }
    ensures put { Put out.old 0 (board_output text.now) out.new result }
    ensures prefix_len { IsPrefixLen result out.new }
{
    match Pins::read(text) {
        Ok(pins) => board_channel(&pins, out),
        Err(unread) => put_unread(out, unread),
    }
}

// The lines of the ring with the fewest nets of a channel that is accepted.
fn ring_channel(pins: &Pins, out: &mut [u8]) -> usize
    requires { 65536 ≤ length out.old }
    ensures put { Put out.old 0 (fewest_lines (channel_of pins.now)) out.new result }
    ensures upper_bound { result ≤ 65536 }
{
    let mut ring = [0u32; RING_TRAY];
    match rings::fewest_ring(pins.top(), pins.bot(), &mut ring) {
        Ok(Some(pairs)) => report::put_ring(out, 0, &ring, pairs as usize),
        Ok(None) => report::put_none(out),
        Err(refusal) => put_refusal(out, refusal),
    }
}

// What the program that finds rings writes of the text that it reads.
pub fn ring_output(text: &[u8], out: &mut [u8]) -> usize
    requires { 65536 ≤ length out.old }
    ensures put { Put out.old 0 (ring_output text.now) out.new result }
    ensures prefix_len { IsPrefixLen result out.new }
{
    match Pins::read(text) {
        Ok(pins) => ring_channel(&pins, out),
        Err(unread) => put_unread(out, unread),
    }
}

// The line of a judged board; answers its length.
fn put_judged(out: &mut [u8], answer: JudgeAnswer) -> usize
    requires { 64 ≤ length out.old }
    ensures put { Put out.old 0 (judge_lines answer) out.new result }
    ensures upper_bound { result ≤ 64 }
{
    match answer {
        JudgeAnswer::Good(tracks) => report::put_good(out, tracks as u64),
        JudgeAnswer::Faulty(fault) => {
            report::put_refused(
                out,
                judge::fault_number(fault) as u64,
                judge::fault_place(fault) as u64,
            )
        }
        JudgeAnswer::Refused(refusal) => put_refusal(out, refusal),
    }
}

// The line of a board judged against a channel that is accepted.
fn judge_channel(pins: &Pins, board: &[u8], out: &mut [u8]) -> usize
    requires { 64 ≤ length out.old }
    ensures put { Put out.old 0 (judged_against board.now (channel_of pins.now)) out.new result }
    ensures upper_bound { result ≤ 64 }
{
    if INPUT_LIMIT < board.len() {
        return put_unread(out, Unread::OverLimit);
    }
    let mut scratch = [0u32; SCRATCH_TRAY];
    put_judged(
        out,
        judge::judge(pins.top(), pins.bot(), board, &mut scratch),
    )
}

// What the program that judges writes of the two files that it reads.
pub fn judge_output(pins: &[u8], board: &[u8], out: &mut [u8]) -> usize
    requires { 65536 ≤ length out.old }
    ensures put { Put out.old 0 (judge_output pins.now board.now) out.new result }
    ensures prefix_len { IsPrefixLen result out.new }
{
    match Pins::read(pins) {
        Ok(pins) => judge_channel(&pins, board, out),
        Err(unread) => put_unread(out, unread),
    }
}

// The pin list of two rows.
fn put_pin_list(out: &mut [u8], top: &[u32], bot: &[u32]) -> usize
    requires { (length top.now ≤ row_tray) × (length bot.now ≤ row_tray) × (65536 ≤ length out.old) }
    ensures put { Put out.old 0 (pin_list (rows top.now bot.now)) out.new result }
    ensures upper_bound { result ≤ 65536 }
{
    let next = report::put_row(out, 0, b"TOP", top);
    report::put_row(out, next, b"BOT", bot)
}

// The pin list of two lists that are joined, each of which is accepted alone, or the line of their refusal.
fn join_channels(first: &Pins, second: &Pins, out: &mut [u8]) -> usize
    requires { 65536 ≤ length out.old }
    ensures put { Put out.old 0 (panel_lines (channel_of first.now) (channel_of second.now)) out.new result }
    ensures upper_bound { result ≤ 65536 }
{
    let mut top = [0u32; ROW_TRAY];
    let mut bot = [0u32; ROW_TRAY];
    match panel::join(
        first.top(),
        first.bot(),
        second.top(),
        second.bot(),
        &mut top,
        &mut bot,
    ) {
        Ok(w) => put_pin_list(out, &top[..w], &bot[..w]),
        Err(refusal) => put_refusal(out, refusal),
    }
}

// The second list joined to one that is accepted.
fn join_second(first: &Pins, second: &[u8], out: &mut [u8]) -> usize
    requires { 65536 ≤ length out.old }
    ensures put { Put out.old 0
        (of_pin_list (panel_lines (channel_of first.now)) second.now)
        out.new result }
    ensures upper_bound { result ≤ 65536 }
{
    match Pins::read(second) {
        Ok(second) => join_channels(first, &second, out),
        Err(unread) => put_unread(out, unread),
    }
}

// What the program that joins writes of the two files that it reads.
pub fn panel_output(first: &[u8], second: &[u8], out: &mut [u8]) -> usize
    requires { 65536 ≤ length out.old }
    ensures put { Put out.old 0 (panel_output first.now second.now) out.new result }
    ensures prefix_len { IsPrefixLen result out.new }
{
    match Pins::read(first) {
        Ok(first) => join_second(&first, second, out),
        Err(unread) => put_unread(out, unread),
    }
}
