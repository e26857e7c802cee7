// Judges the file `board` against the pin list in the file `pins`. A file that cannot be opened counts as empty, and
// `board` is read only where `pins` passes. A read or write that fails ends the program with an error.
#![tactic(auto)]

use std::io;

// Not shared with the other programs: the clauses on a closure would be longer than these lines, and could not say what
// is written, as the library has no clause of it.
fn main(rt: HostRuntime) -> io::Result<()> {
    // no Vec: no more than one byte over the limit is ever read, and a Vec could run out of memory
    let mut pins = [0u8; programs::INPUT_ROOM];
    let mut board = [0u8; programs::INPUT_ROOM];
    let mut out = [0u8; programs::OUTPUT_ROOM];
    let length = files::read_file(&rt, b"pins", &mut pins)?;
    if !programs::pins_pass(&pins[..length]) {
        let count = programs::judge_output(&pins[..length], b"", &mut out);
        return rt.write_all(&out[..count]);
    }
    let size = files::read_file(&rt, b"board", &mut board)?;
    let count = programs::judge_output(&pins[..length], &board[..size], &mut out);
    rt.write_all(&out[..count])
}
