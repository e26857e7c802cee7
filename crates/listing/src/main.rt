// Reads a pin list on standard input and writes its listing. One byte more than the limit is read, to see that there is
// more. A read or write that fails ends the program with an error.
#![tactic(auto)]

use std::io;

// Not shared with the other programs: the clauses on a closure would be longer than these lines, and could not say what
// is written, as the library has no clause of it.
fn main(rt: HostRuntime) -> io::Result<()> {
    // no Vec: no more than one byte over the limit is ever read, and a Vec could run out of memory
    let mut text = [0u8; programs::INPUT_ROOM];
    let size = files::read_full(&mut rt.stdin(), &mut text)?;
    let mut out = [0u8; programs::OUTPUT_ROOM];
    let count = programs::listing_output(&text[..size], &mut out);
    rt.write_all(&out[..count])
}
