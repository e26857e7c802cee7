// The fewest steps down to one net from every other, by a breadth-first search against the steps.
ghost use Rattle.std.specs.Prelude.{ℕ, List, map};
ghost use Rattle.lists.specs.Lists.{at};
ghost use Rattle.items.specs.Chains.{Chained};
ghost use Rattle.items.specs.Steps.{Stepped};
ghost use Rattle.rings.specs.Search.{numbers, CanNote, NoteDone, Searchable, Searched};

// Notes `distance` for the upper net of each place linked from `start` that has none yet, and puts it behind the first
// `queued` of the queue. Answers how many there are then.
// The queue is lent room and a count: `nearest` clears the room once for all searches, as measured.
fn note_above(
    upper: &[u32],
    next: &[u16],
    start: u16,
    distance: u16,
    far: &mut [u16],
    queue: &mut [u16],
    mut queued: usize,
) -> usize
    requires { CanNote upper.now next.now start distance far.old queue.old queued }
    ensures { (cs : List ℕ) → Chained next.now start cs
        → NoteDone (map (at upper.now) cs) distance far.old queue.old queued
        far.new queue.new result }
{
    let mut c = start as usize;
    // a `while`: the next place is read from the links; by an iterator it would be no plainer, since `items` would
    // export its own and the laws of it for this loop
    while c != 0 {
        let a = upper[c - 1] as usize;
        c = next[c] as usize;
        if far[a] == 0 {
            far[a] = distance;
            queue[queued] = a as u16;
            queued += 1;
        }
    }
    queued
}

// For each net number the fewest steps down, one or more, from it to net `to`: 0 if none lead there. `far` holds 0
// everywhere; `queue` is room for the nets found. Kept out of line, since inlined it is slower by a twentieth.
// 0 is none, since a distance is one or more: an Option says no more, and is twice as large to clear.
// Three tables and no struct of them: through one the searches of large rings take a tenth more instructions, as measured.
#[inline(never)]
pub fn search(
    upper: &[u32],
    head: &[u16],
    next: &[u16],
    to: usize,
    far: &mut [u16],
    queue: &mut [u16],
)
    requires { Searchable upper.now head.now next.now to far.old queue.old }
    ensures { (below : ℕ → List ℕ) → Stepped below numbers upper.now head.now next.now
        → Searched below to far.new }
{
    let mut queued = note_above(upper, next, head[to], 1, far, queue, 0);
    let mut done: usize = 0;
    // a `while`: the queue grows while it is gone along
    while done < queued {
        let n = queue[done] as usize;
        let distance = far[n] + 1;
        queued = note_above(upper, next, head[n], distance, far, queue, queued);
        done += 1;
    }
}
