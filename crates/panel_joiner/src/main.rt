// Joins the pin lists in the files `first` and `second` on one panel. A file that cannot be opened counts as empty, and
// `second` is read only where `first` passes. A read or write that fails ends the program with an error.
#![tactic(auto)]

use std::io;

// Not shared with the other programs: the clauses on a closure would be longer than these lines, and could not say what
// is written, as the library has no clause of it.
fn main(rt: HostRuntime) -> io::Result<()> {
    // no Vec: no more than one byte over the limit is ever read, and a Vec could run out of memory
    let mut first = [0u8; programs::INPUT_ROOM];
    let mut second = [0u8; programs::INPUT_ROOM];
    let mut out = [0u8; programs::OUTPUT_ROOM];
    let length = files::read_file(&rt, b"first", &mut first)?;
    if !programs::pins_pass(&first[..length]) {
        let count = programs::panel_output(&first[..length], b"", &mut out);
        return rt.write_all(&out[..count]);
    }
    let size = files::read_file(&rt, b"second", &mut second)?;
    let count = programs::panel_output(&first[..length], &second[..size], &mut out);
    rt.write_all(&out[..count])
}
