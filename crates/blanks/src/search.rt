// The search of a table of blanks.
ghost use Rattle.std.specs.Prelude.{◌≡◌, find, nat_le};

// The first entry that holds the tracks.
pub fn first_that_holds(table: &[u32], tracks: u32) -> Option<u32>
    ensures { result ≡ find (nat_le tracks) table.now }
{
    table.iter().copied().find(|&entry| tracks <= entry)
}
