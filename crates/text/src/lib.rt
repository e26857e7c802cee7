// Words and numbers put as lines into a lent buffer. The buffer and a place in it stay two parameters, and the place
// behind is the answer: the contracts of `put_line` and of report's six public functions name all three (`Put`).
#![tactic(auto)]

ghost use Rattle.std.specs.Prelude.{ℕ, ◌≡◌, ◌+◌, ◌*◌, ◌≤◌, length, map};
ghost use Rattle.lists.specs.Lists.{each};
ghost use Rattle.text.specs.Lines.{field, line_of, Put};

// A number of a line.
pub trait Number: Copy {
    ghost value: { Self → ℕ };

    fn wide(self) -> u64
        ensures { result ≡ value self };
}

impl Number for u32 {
    ghost value = { λ n. n };

    fn wide(self) -> u64 {
        self as u64
    }
}

impl Number for u64 {
    ghost value = { λ n. n };

    fn wide(self) -> u64 {
        self
    }
}

// Puts a text at byte `at`; answers the place behind it.
// No `write!`: the memory is lent and no write fails, while `write!` answers an error.
#[tactic(auto, using(lists::specs::Copies::part_is_sets))]
fn put_text(out: &mut [u8], at: usize, text: &[u8]) -> usize
    requires { at + length text.now ≤ length out.old }
    ensures { Put out.old at text.now out.new result }
{
    let end = at + text.len();
    out[at..end].copy_from_slice(text);
    end
}

// Puts a space and a number in base ten, at most 21 bytes, at byte `at`; answers the place behind them.
fn put_number(out: &mut [u8], at: usize, n: u64) -> usize
    requires { at + 21 ≤ length out.old }
    ensures put { Put out.old at (field n) out.new result }
    ensures upper_bound { result ≤ at + 21 }
{
    let mut digits = [0u8; 20];
    let k = io::decimal(n, &mut digits);
    let next = put_text(out, at, b" ");
    put_text(out, next, &digits[..k])
}

// Puts numbers, each behind its space, from byte `at` on; answers the place behind them.
fn put_numbers<N: Number>(out: &mut [u8], at: usize, numbers: &[N]) -> usize
    requires { at + 21 * length numbers.now ≤ length out.old }
    ensures put { Put out.old at (each (λ n. field (N.value n)) numbers.now) out.new result }
    ensures upper_bound { result ≤ at + 21 * length numbers.now }
{
    let mut next = at;
    for &n in numbers {
        next = put_number(out, next, n.wide());
    }
    next
}

// Puts a word, numbers and a line feed at byte `at`; answers the place behind them.
pub fn put_line<N: Number>(out: &mut [u8], at: usize, word: &[u8], numbers: &[N]) -> usize
    requires { at + (length word.now + (21 * length numbers.now + 1)) ≤ length out.old }
    ensures put { Put out.old at (line_of word.now (map N.value numbers.now)) out.new result }
    ensures upper_bound { result ≤ at + (length word.now + (21 * length numbers.now + 1)) }
{
    let first = put_text(out, at, word);
    let last = put_numbers(out, first, numbers);
    put_text(out, last, b"\n")
}
