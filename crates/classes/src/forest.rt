// A union-find in the low halves of the numbers that are lent: element i's parent is never above i, and a root is its
// own parent. The high halves stay as they are.
ghost use Rattle.std.specs.Prelude.{◌≡◌, ◌≤◌, ◌<◌, map, length};
ghost use Rattle.lists.specs.Lists.{from};
ghost use Rattle.classes.specs.Halves.{half};
ghost use Rattle.classes.specs.Forest.{parent_of, root_of, hung, Forest, Kept, Joins};

use crate::halves::{high, low, number};

// Each element is a class of its own.
pub fn alone(forest: &mut [u32])
    requires { length forest.old ≤ half }
    ensures { forest.new ≡ from 0 (length forest.old) }
{
    for i in 0..forest.len() {
        forest[i] = i as u32;
    }
}

// Hangs an element under another.
#[tactic(auto, unfolding(crate::specs::Forest::hung, crate::specs::Halves::high_half))]
fn hang(forest: &mut [u32], child: usize, parent: usize)
    requires { (child < length forest.old) × (parent < half) }
    ensures { forest.new ≡ hung forest.old child parent }
{
    forest[child] = number(parent as u32, high(forest[child]));
}

// The parent of an element.
#[tactic(auto, unfolding(crate::specs::Forest::parent_of))]
fn parent(forest: &[u32], i: usize) -> usize
    requires { i < length forest.now }
    ensures { result ≡ parent_of forest.now i }
{
    low(forest[i]) as usize
}

// The root of an element's class. Each element on the way that has a grandparent is hung under it. A `while`, since the
// next place is read from the forest.
fn find(forest: &mut [u32], i: usize) -> usize
    requires { Forest forest.old × (i < length forest.old) }
    ensures { (result ≡ root_of forest.old i) × Kept forest.old forest.new }
{
    let mut at = i;
    let mut up = parent(forest, i);
    while up != at {
        let higher = parent(forest, up);
        hang(forest, at, higher);
        at = higher;
        up = parent(forest, at);
    }
    at
}

// Joins the classes of two elements: the lower root is the root of both.
pub fn join(forest: &mut [u32], a: usize, b: usize)
    requires { Forest forest.old × (a < length forest.old) × (b < length forest.old) }
    ensures { Joins forest.old a b forest.new }
{
    let x = find(forest, a);
    let y = find(forest, b);
    if x < y {
        hang(forest, y, x);
    } else {
        hang(forest, x, y);
    }
}

// Each number becomes the root of its element.
pub fn flatten(forest: &mut [u32])
    requires { Forest forest.old }
    ensures { forest.new ≡ map (root_of forest.old) (from 0 (length forest.old)) }
{
    for i in 0..forest.len() {
        let up = parent(forest, i);
        forest[i] = low(forest[up]);
    }
}
