// The lines that the program prints, as bytes: document 01's "Program". `paper` says what they are; here they are written into an output,
// for what was found of a record, and for the bytes of an input. An input is read into lent memory, as far as that reaches.
#![tactic(auto)]

ghost use Rattle.std.specs.Prelude.{◌++◌, ◌+◌, ◌≤◌, length, IfOk};
ghost use Rattle.paper.specs.Program.{digits, spaced, line_end, closest_line, lines};
ghost use Rattle.paper.specs.Refusals.{given};
ghost use Rattle.paper.specs.Answers.{refuses, told};
ghost use Rattle.lines.specs.Printing.{Put, refusal_line, count_lines, Holds, Reports};
ghost use Rattle.lines.specs.Reading.{Filled};

use itoa::Buffer;
use paper::Refusal;
use std::io;
use std::io::Read;

// Writes a text, and gives the place after it, as each put_ does. They are no `write!`: its contract does not rule out that a Display fails, and what the
// program prints is written whatever it is.
fn put_text(out: &mut [u8], at: usize, text: &[u8]) -> usize
    requires { at + length text.now ≤ length out.old }
    ensures { Put (length text.now) out.old out.new at result text.now }
{
    words::copy(out, at, text);
    at + text.len()
}

// Writes a space and a number, which has at most 20 digits.
fn put_spaced(out: &mut [u8], at: usize, x: u64) -> usize
    requires { at + 21 ≤ length out.old }
    ensures { Put 21 out.old out.new at result (spaced x) }
{
    let next = put_text(out, at, b" ");
    let mut buffer = Buffer::new();
    put_text(out, next, buffer.format(x).as_bytes())
}

// Writes a word and two numbers.
fn put_two(out: &mut [u8], at: usize, word: &[u8], x: u64, y: u64) -> usize
    requires { at + length word.now + 42 ≤ length out.old }
    ensures { Put (length word.now + 42) out.old out.new at result (word.now ++ spaced x ++ spaced y) }
{
    let first = put_text(out, at, word);
    let second = put_spaced(out, first, x);
    put_spaced(out, second, y)
}

// Writes a line of a word and a number.
fn put_count(out: &mut [u8], at: usize, word: &[u8], x: u64) -> usize
    requires { at + length word.now + 22 ≤ length out.old }
    ensures { Put (length word.now + 22) out.old out.new at result (word.now ++ spaced x ++ line_end) }
{
    let number = put_text(out, at, word);
    let end = put_spaced(out, number, x);
    put_text(out, end, b"\n")
}

// Writes the line of a refused record.
fn put_refusal(out: &mut [u8; 128], x: Refusal) -> usize
    ensures { Put 50 out.old out.new 0 result (refusal_line x) }
{
    let end = put_two(out, 0, b"refused", x.number(), x.value());
    put_text(out, end, b"\n")
}

// Writes the first two lines of a taken record.
fn put_counts(out: &mut [u8; 128], n: u64, m: u64) -> usize
    ensures { Put 55 out.old out.new 0 result (count_lines n m) }
{
    let next = put_count(out, 0, b"points", n);
    put_count(out, next, b"pairs", m)
}

// Writes the line of two closest holes and their squared distance.
fn put_holes(out: &mut [u8], at: usize, i: u64, j: u64, d: u64) -> usize
    requires { at + 71 ≤ length out.old }
    ensures { Put 71 out.old out.new at result (closest_line (given (i, j, d))) }
{
    let third = put_two(out, at, b"closest", i, j);
    let end = put_spaced(out, third, d);
    put_text(out, end, b"\n")
}

// Writes the last line where there is no closest pair: one hole, or a ratio that is too low.
fn put_no_holes(out: &mut [u8], at: usize, why: Refusal) -> usize
    requires { at + 71 ≤ length out.old }
    ensures { Put 71 out.old out.new at result (closest_line (refuses why)) }
{
    match why {
        Refusal::Single => put_text(out, at, b"closest none\n"),
        _ => put_text(out, at, b"closest low\n"),
    }
}

// Writes the last line of a taken record.
fn put_closest(out: &mut [u8], at: usize, closest: Result<(u64, u64, u64), Refusal>) -> usize
    requires { at + 71 ≤ length out.old }
    ensures { Put 71 out.old out.new at result (closest_line (told closest)) }
{
    match closest {
        Ok((i, j, d)) => put_holes(out, at, i, j, d),
        Err(x) => put_no_holes(out, at, x),
    }
}

// Writes all the lines.
fn put_lines(
    out: &mut [u8; 128],
    checked: Result<(u64, u64), Refusal>,
    closest: Result<(u64, u64, u64), Refusal>,
) -> usize
    ensures { Put 128 out.old out.new 0 result (lines (told checked) (told closest)) }
{
    match checked {
        Err(x) => put_refusal(out, x),
        Ok((n, m)) => {
            let at = put_counts(out, n, m);
            put_closest(out, at, closest)
        }
    }
}

// Writes the lines for what was found, followed by zeros, and gives how many bytes they are. Any numbers fit.
pub fn write_lines(
    out: &mut [u8; 128],
    checked: Result<(u64, u64), Refusal>,
    closest: Result<(u64, u64, u64), Refusal>,
) -> usize
    ensures { Holds (lines (told checked) (told closest)) out.new result }
{
    words::zero(out);
    put_lines(out, checked, closest)
}

// What the program prints for the bytes that it read, followed by zeros; the work area ends all zero. Gives how many bytes it prints.
// Refusal 17 comes before all others. An array and a length: this is a public promise. The output and a place in it go on together in what follows the
// same way, since a struct that holds the output has every function ensure that it still holds it.
pub fn report(bytes: &[u8], work: &mut [u8; 65536], out: &mut [u8; 128]) -> usize
    ensures { Reports bytes.now work.new out.new result }
{
    if 65536 < bytes.len() {
        words::zero(work);
        return write_lines(out, Err(Refusal::Long), Err(Refusal::Long));
    }
    let seen = questions::look(bytes, work);
    write_lines(out, seen.checked, seen.closest)
}

// Reads the start of an input into a buffer, as much as the input has and the buffer holds, and gives how many bytes that is.
pub fn read_start<R: Read>(input: &mut R, buffer: &mut [u8]) -> io::Result<usize>
    ensures { IfOk result (λ n. Filled (R.remaining input.old) buffer.new n) }
{
    // A `while`: a read gives as much as there is. std's read_exact wants all of the buffer filled, and read_to_end wants memory.
    let mut n = 0;
    while n < buffer.len() {
        let got = input.read(&mut buffer[n..])?;
        if got == 0 {
            break;
        }
        n += got;
    }
    Ok(n)
}
