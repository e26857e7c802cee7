// Steps between items, linked by the lower item; and for each item how many steps below it lead to items that wait.
ghost use Rattle.std.specs.Prelude.{◌≡◌, ℕ, List, map};
ghost use Rattle.lists.specs.Lists.{at};
ghost use Rattle.lists.specs.Counts.{lowered};
ghost use Rattle.items.specs.Chains.{Chained};
ghost use Rattle.items.specs.Steps.{StepRows, StepsLinked, CanLower};

use crate::links::linked_from;

// Links the places of two rows in which an item stands below another, and counts the steps down from each item.
pub fn link_steps(
    upper: &[u32],
    lower: &[u32],
    head: &mut [u16],
    next: &mut [u16],
    under: &mut [u16],
)
    requires { StepRows upper.now lower.now head.old next.old under.old }
    ensures { StepsLinked upper.now lower.now head.new next.new
        under.new }
{
    for i in (0..upper.len()).rev() {
        let a = upper[i] as usize;
        let b = lower[i] as usize;
        if (a != 0) & (b != 0) & (a != b) {
            next[i + 1] = head[b];
            head[b] = (i + 1) as u16;
            under[a] += 1;
        }
    }
}

// Lowers the count of the upper item of each place linked from `start`.
pub fn lower_above(upper: &[u32], next: &[u16], start: u16, under: &mut [u16])
    requires { CanLower upper.now next.now start under.old }
    ensures { (cs : List ℕ) → Chained next.now start cs
        → under.new ≡ lowered (map (at upper.now) cs) under.old }
{
    for c in linked_from(next, start) {
        let a = upper[c - 1] as usize;
        under[a] -= 1;
    }
}
