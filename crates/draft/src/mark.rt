// A net's mark in one column of the draft: the word that has it, and the digit of that word that it is.
ghost use Rattle.std.specs.Prelude.{◌≡◌, ◌%◌, ◌^◌, ◌<◌, get_or, set};
ghost use Rattle.refusal.specs.Trays.{draft_tray};
ghost use Rattle.draft.specs.Marks.{InDraft, word_of, is_set, with_mark, without_mark};

use grid::{Column, Net};
use refusal::DRAFT_TRAY;

// The words of 512 columns, eight to a column.
pub type Words = [u64; DRAFT_TRAY];

// How many marks a word has, and how many words a column.
const WORD_MARKS: u32 = 64;

pub const COLUMN_WORDS: usize = 8;

#[derive(Clone, Copy)]
pub struct Mark {
    word: usize,
    digit: u32,
    ghost inside: { (word < draft_tray) × (digit < 64) },
}

impl Mark {
    // A net's mark in column c.
    pub fn of(net: Net, c: Column) -> Mark
        requires { InDraft net.0 c.0 }
        ensures { (result.word ≡ word_of c.0 net.0) × (result.digit ≡ net.0 % 64) }
    {
        Mark {
            word: (c.0 as usize - 1) * COLUMN_WORDS + (net.0 / WORD_MARKS) as usize,
            digit: net.0 % WORD_MARKS,
        }
    }

    // The word that has this mark alone.
    fn alone(self) -> u64
        ensures { result ≡ 2 ^ self.digit }
    {
        1 << self.digit
    }

    #[tactic(auto, unfolding(crate::specs::Marks::is_set))]
    pub fn is_set(self, words: &Words) -> bool
        ensures { result ≡ is_set (get_or words.now self.word 0) self.digit }
    {
        (words[self.word] >> self.digit) % 2 == 1
    }

    #[tactic(auto, unfolding(crate::specs::Marks::with_mark))]
    pub fn put(self, words: &mut Words)
        ensures { words.new
            ≡ set words.old self.word (with_mark self.digit (get_or words.old self.word 0)) }
    {
        words[self.word] |= self.alone();
    }

    // Takes the mark off; whether it was set.
    #[tactic(auto, unfolding(crate::specs::Marks::without_mark))]
    pub fn take_off(self, words: &mut Words) -> bool
        ensures { (result ≡ is_set (get_or words.old self.word 0) self.digit)
            × (words.new
            ≡ set words.old self.word (without_mark self.digit (get_or words.old self.word 0))) }
    {
        let was = self.is_set(words);
        words[self.word] ^= words[self.word] & self.alone();
        was
    }
}
