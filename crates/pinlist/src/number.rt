// A number of a pin list, behind the spaces that stand before it.
ghost use Rattle.std.specs.Prelude.{◌≡◌, suc, ◌+◌, ◌-◌, ◌*◌, ◌≤◌, drop};
ghost use Rattle.channel.specs.Channel.{highest_net};
ghost use Rattle.pinlist.specs.Code.{kept, spaces_end, number_read, NumberFound};

use grid::HIGHEST_NET;

// A number that was read, 512 where it is over 511, and the place behind it.
#[derive(Clone, Copy, Debug, PartialEq, Eq)]
pub struct Number {
    pub value: u32,
    pub next: usize,
}

// What the number reader answers: the end of a run of spaces, and the number that stands there, if one does.
// The place is told where no number stands too, so it is a field: docs/PROMISES.md names `NumberFound` so.
#[derive(Clone, Copy, Debug, PartialEq, Eq)]
pub struct NumberAt {
    pub from: usize,
    pub number: Option<Number>,
}

// Reads the number behind the run of spaces, of none or more, that begins at byte `at`.
// The whole text and a place: `NumberFound`, named in docs/PROMISES.md, tells places of the whole text.
pub fn read_number(text: &[u8], at: usize) -> NumberAt
    ensures { NumberFound text.now at result }
{
    let from = spaces_end(text, at);
    let number = number_at(text, from);
    NumberAt { from, number }
}

// The place behind the run of spaces that begins at byte `at`.
fn spaces_end(text: &[u8], at: usize) -> usize
    ensures { result ≡ spaces_end at (drop at text.now) }
{
    for end in at..text.len() {
        if text[end] != b' ' {
            return end;
        }
    }
    at.max(text.len())
}

// Reads the number that begins at byte `at`: 0, or digits with no leading zero, as many as there are.
fn number_at(text: &[u8], at: usize) -> Option<Number>
    ensures { result ≡ number_read text.now at }
{
    let Some(&first) = text.get(at) else {
        return None;
    };
    if !first.is_ascii_digit() {
        return None;
    }
    if first == b'0' {
        return Some(Number {
            value: 0,
            next: at + 1,
        });
    }
    let mut value = (first - b'0') as u32;
    for next in at + 1..text.len() {
        let b = text[next];
        if !b.is_ascii_digit() {
            return Some(Number { value, next });
        }
        value = with_digit(value, b);
    }
    Some(Number {
        value,
        next: text.len(),
    })
}

// The value with one more digit behind it, 512 where it is over 511.
// 512 and no enum: the row holds it until the row check refuses it (`kept`).
fn with_digit(value: u32, digit: u8) -> u32
    requires { (value ≤ suc highest_net) × (48 ≤ digit) × (digit ≤ 57) }
    ensures { result ≡ kept (value * 10 + (digit - 48)) }
{
    (value * 10 + (digit - b'0') as u32).min(HIGHEST_NET + 1)
}
