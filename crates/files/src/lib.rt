// Reading to the end, or as far as there is room, for the programs.
#![tactic(auto)]

ghost use Rattle.std.specs.Prelude.{ℕ, ◌-◌, ◌<◌, ◌≤◌, IfErr, IfOk, length, take};
ghost use Rattle.std.specs.Io.KnownBytes.{Consumes, IsAtEnd};
ghost use Rattle.io.specs.Counts.{IsPrefixLen};

use std::fs;
use std::io::{self, Read};
use std::rt::Files;

// Reads to the end, or as far as there is room, and answers how many bytes there are. A read that fails is answered as
// its error; what was read before it then stands at the front of `bytes`.
// Lent room and an answered count, as `read` of the library has them.
pub fn read_full<R: Read>(reader: &mut R, bytes: &mut [u8]) -> io::Result<usize>
    ensures prefix_len { IfOk result (λ n. IsPrefixLen n bytes.new) }
    ensures read { IfOk result (λ n. Consumes (R.remaining reader.old) (R.remaining reader.new) (take n bytes.new)) }
    ensures whole { IfOk result (λ n. n < length bytes.new → IsAtEnd (R.remaining reader.new)) }
    ensures failed { IfErr result (λ _. (n : ℕ) × (n ≤ length bytes.new)
        × Consumes (R.remaining reader.old) (R.remaining reader.new) (take n bytes.new)) }
{
    // a `while`: each step is as long as the reader makes it, and std has no call that fills a lent buffer as far as the
    // reader goes and answers how many bytes came (`read_exact` fails at the end)
    let mut done = 0;
    while done < bytes.len() {
        let n = reader.read(&mut bytes[done..])?;
        if n == 0 {
            break;
        }
        done += n;
    }
    Ok(done)
}

// Reads a file as `read_full` does. One that cannot be opened counts as empty; one that opens and cannot be read is the
// error, and so is a name that is no UTF-8, which std has no call for.
pub fn read_file<F: Files>(rt: &F, path: &[u8], bytes: &mut [u8]) -> io::Result<usize>
    ensures { IfOk result (λ n. IsPrefixLen n bytes.new) }
{
    let Ok(name) = str::from_utf8(path) else {
        return Err(io::Error::from(io::ErrorKind::InvalidInput));
    };
    let Ok(mut file) = fs::open(rt, name) else {
        return Ok(0);
    };
    read_full(&mut file, bytes)
}
