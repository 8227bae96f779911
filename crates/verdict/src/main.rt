// Reads a record from standard input and prints document 01's verdict on it. `judge` is proved to write what is to be printed for all bytes of its
// input. Trusted is that the system's read and write move these bytes: no contract can say so.
#![tactic(auto)]

ghost use Rattle.std.specs.Prelude.{OnOk, IfSome};
ghost use Rattle.std.specs.Io.KnownBytes.{Appends};
ghost use Rattle.paper.specs.Program.{printed};

use std::io;
use std::io::{Read, Write};

// One byte more than a record may have, so that a longer input is seen.
const MOST_READ: usize = 65537;

// Reads an input, but of a long one only as much as shows that it is too long, and writes the verdict on it.
fn judge<R: Read, W: Write>(input: &mut R, output: &mut W) -> io::Result<()>
    ensures { OnOk result (IfSome (R.remaining input.old)
        (λ bytes. Appends (W.contents output.old) (W.contents output.new) (printed bytes))) }
{
    let mut record = [0u8; MOST_READ];
    let read = lines::read_start(input, &mut record)?;
    let mut work = [0u8; 65536];
    let mut lines = [0u8; 128];
    let length = lines::report(&record[..read], &mut work, &mut lines);
    output.write_all(&lines[..length])
}

fn main(rt: HostRuntime) -> io::Result<()> {
    judge(&mut rt.stdin(), &mut rt.stdout())
}
