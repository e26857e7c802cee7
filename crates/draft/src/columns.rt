// All columns of the draft: each of these is one pass, over a net's span or over the 512 columns.
ghost use Rattle.std.specs.Prelude.{◌≡◌, ◌≤◌};
ghost use Rattle.channel.specs.Channel.{highest_net};
ghost use Rattle.draft.specs.Marks.{is_here, greatest_of, arrived_in, left_from};

use crate::column;
use crate::mark::{Mark, Words};
use crate::span::Span;
use grid::{Column, Net, WIDEST};

// Whether a net is marked in some column.
pub fn is_here(words: &Words, net: Net) -> bool
    requires { net.0 ≤ highest_net }
    ensures { result ≡ is_here words.now net.0 }
{
    // from 0, since a loop from 1 that may end early is not unrolled: a sixth to a fifth more instructions
    for before in 0..WIDEST as u32 {
        if Mark::of(net, Column(before + 1)).is_set(words) {
            return true;
        }
    }
    false
}

// Marks a net in each column of its span.
pub fn mark_span(words: &mut Words, span: Span)
    ensures { words.new ≡ arrived_in span.net.0 span.first.0 span.last.0 words.old }
{
    for c in span.first.0..span.last.0 + 1 {
        Mark::of(span.net, Column(c)).put(words);
    }
}

// Takes a net's mark off every column; whether it was in any.
pub fn take_out(words: &mut Words, net: Net) -> bool
    requires { net.0 ≤ highest_net }
    ensures { (result ≡ is_here words.old net.0)
        × (words.new ≡ left_from net.0 words.old) }
{
    let mut found = false;
    for c in 1..WIDEST as u32 + 1 {
        found |= Mark::of(net, Column(c)).take_off(words);
    }
    found
}

// The greatest number of marks in a column.
pub fn greatest_of(words: &Words) -> u32
    ensures { (result ≡ greatest_of words.now) × (result ≤ 512) }
{
    let mut greatest: u32 = 0;
    for c in 1..WIDEST as u32 + 1 {
        greatest = greatest.max(column::marks_of(words, Column(c)));
    }
    greatest
}
