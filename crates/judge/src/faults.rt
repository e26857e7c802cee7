// What is wrong, read off the classes: shorts, then opens, then floating copper, each at its lowest place. An element's
// low half is its class, a root; and the high half of a root is the net of the class's pins, 0 until one is met.
ghost use Rattle.std.specs.Prelude.{◌≡◌, ℕ, ◌+◌, ◌≤◌, ◌<◌, length, get_or};
ghost use Rattle.classes.specs.Halves.{half};
ghost use Rattle.channel.specs.Channel.{widest, width};
ghost use Rattle.judge.specs.Finding.{opens};
ghost use Rattle.lists.specs.Tables.{Blank};
ghost use Rattle.judge.specs.FaultSteps.{Claimed, ClassClaimed, FaultReady, ShortFound, FirstFloating};
ghost use Rattle.judge.specs.FaultSteps.{Finds, first_of, marks_in, owners_in};

use crate::Fault;
use crate::case::Case;

// A pin claims a place of a table for its value: it may if the place is free, which is 0, or has that value.
// 0 and no Option: the table is the one of numbers that `join_on` leaves blank.
fn claim(table: &mut [u32], at: usize, value: u32) -> bool
    requires { at < length table.old }
    ensures { Claimed table.old at value result table.new }
{
    if table[at] == 0 {
        table[at] = value;
        return true;
    }
    table[at] == value
}

// The pin at place i claims its class for its net, as it claims a place of a table.
// 0 and no Option: the owner is half of a number of the scratch that C lends.
fn claim_class(scratch: &mut [u32], i: usize, net: u32) -> bool
    requires { (i < length scratch.old)
        × (get_or (marks_in scratch.old) i 0 ≤ length scratch.old)
        × (length scratch.old ≤ half)
        × (net < half) }
    ensures { ClassClaimed scratch.old i net result scratch.new }
{
    let root = classes::low(scratch[i]) as usize;
    let number = scratch[root];
    let owner = classes::high(number);
    if owner == 0 {
        scratch[root] = classes::number(classes::low(number), net);
        return true;
    }
    owner == net
}

// The lowest position, from 1, of a pin joined to an earlier pin of another net. Each class gets the net of its pins.
// `FaultReady` stays a clause: the scratch is lent by C, and a struct over a `&mut` slice is no plainer.
fn first_short(case: &Case, scratch: &mut [u32]) -> Option<usize>
    requires { FaultReady case.now.channel scratch.old × ((m : ℕ) → get_or (owners_in scratch.old) m 0 ≡ 0) }
    ensures { ShortFound case.now.channel scratch.old result scratch.new }
{
    let width = case.width();
    for i in 0..width + width {
        let net = case.net_at(i);
        if net != 0 && !claim_class(scratch, i, net) {
            return Some(i + 1);
        }
    }
    None
}

// The lowest position, from 1, of a pin not joined to its net's first pin. `firsts` gets for each net the class of its
// first pin, counted from 1. A search shared with `first_short` would be no plainer: its invariant would have to name
// the state of a closure, which here is a table by net and there the scratch itself.
fn first_open(case: &Case, scratch: &[u32], firsts: &mut [u32]) -> Option<usize>
    requires { FaultReady case.now.channel scratch.now × Blank (widest + 1) firsts.old }
    ensures { result ≡ first_of (opens case.now.channel (marks_in scratch.now)) }
{
    let width = case.width();
    for i in 0..width + width {
        let net = case.net_at(i);
        if net != 0 && !claim(firsts, net as usize, classes::low(scratch[i]) + 1) {
            return Some(i + 1);
        }
    }
    None
}

// The number of the lowest piece joined to no pin; the pieces stand from place `base` on. A `for`, since `position` would
// be no plainer: the test asks the same slice at another place.
fn first_floating(scratch: &[u32], base: usize) -> Option<usize>
    requires { (base ≤ length scratch.now)
        × ((i : ℕ) → i < length scratch.now → get_or (marks_in scratch.now) i 0 ≤ length scratch.now) }
    ensures { FirstFloating (marks_in scratch.now) base (owners_in scratch.now) result }
{
    for i in base..scratch.len() {
        let root = classes::low(scratch[i]) as usize;
        if classes::high(scratch[root]) == 0 {
            return Some(i - base + 1);
        }
    }
    None
}

// The first fault, in rising number, of the pin places and the pieces whose classes stand in `scratch`. `firsts` is a
// blank table by net.
pub fn find_fault(case: &Case, scratch: &mut [u32], firsts: &mut [u32]) -> Option<Fault>
    requires { FaultReady case.now.channel scratch.old
        × ((m : ℕ) → get_or (owners_in scratch.old) m 0 ≡ 0)
        × Blank (widest + 1) firsts.old }
    ensures { Finds case.now.channel scratch.old result }
{
    if let Some(place) = first_short(case, scratch) {
        return Some(Fault::Short(place));
    }
    if let Some(place) = first_open(case, scratch, firsts) {
        return Some(Fault::Open(place));
    }
    let width = case.width();
    first_floating(scratch, width + width).map(Fault::Floating)
}
