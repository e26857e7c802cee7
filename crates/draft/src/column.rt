// The marks of one column of the draft, counted in its eight words.
ghost use Rattle.std.specs.Prelude.{◌≡◌, ◌+◌, ◌<◌, ◌≤◌, get_or, take, drop};
ghost use Rattle.std.specs.Int.Count.{ones};
ghost use Rattle.refusal.specs.Trays.{draft_tray};
ghost use Rattle.draft.specs.Marks.{IsColumn, marks_of, column_words};

use crate::mark::{COLUMN_WORDS, Words};
use grid::Column;

// How many marks the word at place i has: the language's count of ones.
fn ones_at(words: &Words, i: usize) -> u32
    requires { i < draft_tray }
    ensures { (result ≡ ones (get_or words.now i 0)) × (result ≤ 64) }
{
    u64::count_ones(words[i])
}

// How many marks the four words from place i on have.
fn four_words(words: &Words, i: usize) -> u32
    requires { i + 4 ≤ draft_tray }
    ensures { (result ≡ marks_of (take 4 (drop i words.now))) × (result ≤ 256) }
{
    (ones_at(words, i) + ones_at(words, i + 1)) + (ones_at(words, i + 2) + ones_at(words, i + 3))
}

// How many marks column c has, in its eight words.
pub fn marks_of(words: &Words, c: Column) -> u32
    requires { IsColumn c.0 }
    ensures { (result ≡ marks_of (column_words words.now c.0)) × (result ≤ 512) }
{
    let i = (c.0 as usize - 1) * COLUMN_WORDS;
    four_words(words, i) + four_words(words, i + 4)
}
