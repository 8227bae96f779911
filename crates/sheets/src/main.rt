// Runs document 01's sheets that no theorem has, and cases that were made outside the project, and prints a line for each: `NAME ok`, or
// what was got. The arguments name the files of the cases. A file has ten numbers of eight bytes: the call, as `Call` numbers them, its
// two numbers, the lengths of work area and output, the answer in four numbers, and the length of the input; then the input, and the
// output that is expected.
#![tactic(auto)]

ghost use Rattle.std.specs.Prelude.{◌<◌, ◌≤◌, IfOk};

use paper::Refusal;
use record::{Place, Section};
use std::env::FillError;
use std::rt::{Env, Files};
use std::{fmt, fs, io};

// An answer in numbers, as the files have it: 0 and what is given, or a refusal's number and its value. It is not press's Answer: press is
// what C links, and no library of this repository.
#[derive(Clone, Copy, PartialEq, Eq)]
struct Told {
    number: u64,
    first: u64,
    second: u64,
    third: u64,
}

impl fmt::Display for Told {
    fn fmt<W: fmt::Write>(&self, f: &mut fmt::Formatter<W>) -> fmt::Result {
        let Told {
            number,
            first,
            second,
            third,
        } = *self;
        write!(f, "{number} {first} {second} {third}")
    }
}

// What is given.
impl From<(u64, u64, u64)> for Told {
    fn from((first, second, third): (u64, u64, u64)) -> Told {
        Told {
            number: 0,
            first,
            second,
            third,
        }
    }
}

// A refusal.
impl From<Refusal> for Told {
    fn from(x: Refusal) -> Told {
        Told {
            number: x.number(),
            first: x.value(),
            second: 0,
            third: 0,
        }
    }
}

// What a call said.
impl From<Result<(u64, u64, u64), Refusal>> for Told {
    fn from(said: Result<(u64, u64, u64), Refusal>) -> Told {
        match said {
            Ok(values) => values.into(),
            Err(x) => x.into(),
        }
    }
}

// The calls.
#[derive(Clone, Copy)]
enum Call {
    Build,
    Check,
    Section(Section),
    Closest,
    Pitch,
    Links,
    Printed,
}

// As the cases number them: any number that no other call has is the printed lines.
impl From<usize> for Call {
    fn from(number: usize) -> Call {
        match number {
            1 => Call::Build,
            2 => Call::Check,
            3 => Call::Section(Section::Holes),
            4 => Call::Section(Section::Nodes),
            5 => Call::Section(Section::Pairs),
            6 => Call::Closest,
            7 => Call::Pitch,
            8 => Call::Links,
            _ => Call::Printed,
        }
    }
}

// What a case or a sheet comes to: nothing more to say where it is right, or else the answer that was got.
type Outcome = Result<(), Told>;

// The answer of a file that is no case, or of one with longer areas than those here. Four zeros and no None: they are what the program prints.
const UNFIT: Told = Told {
    number: 0,
    first: 0,
    second: 0,
    third: 0,
};

// Writes the bytes at the start of an output that has room for them.
fn put(out: &mut [u8], bytes: &[u8]) {
    if bytes.len() <= out.len() {
        out[..bytes.len()].copy_from_slice(bytes);
    }
}

// A section: its place, and its bytes at the start of the output.
fn handed(place: Place, part: &[u8], out: &mut [u8]) -> Told {
    put(out, part);
    Told::from((place.start as u64, place.size as u64, 0))
}

// What the program prints, at the start of the output.
fn printed(input: &[u8], out: &mut [u8]) -> Told {
    let mut work = [7u8; 65536];
    let mut text = [7u8; 128];
    let n = lines::report(input, &mut work, &mut text);
    put(out, &text);
    Told::from((n as u64, 0, 0))
}

// One call. A call that writes nothing leaves the output as it is.
fn called(call: Call, x: u64, y: u64, input: &[u8], work: &mut [u8], out: &mut [u8]) -> Told {
    match call {
        Call::Build => Told::from(record::build(input, x, y, work, out).map(|n| (n, 0, 0))),
        Call::Check => Told::from(record::check(input, work).map(|(n, m)| (n, m, 0))),
        Call::Section(section) => handed(
            record::place_of(input, work, section),
            record::section_of(input, work, section),
            out,
        ),
        Call::Closest => Told::from(questions::closest(input, work)),
        Call::Pitch => Told::from(questions::pitch(input, x, work).map(|kept| (
            u64::from(kept),
            0,
            0,
        ))),
        Call::Links => Told::from(questions::links(input, work, out).map(|n| (n, 0, 0))),
        Call::Printed => printed(input, out),
    }
}

fn judged(right: bool, got: Told) -> Outcome {
    if right { Ok(()) } else { Err(got) }
}

// Whether an area is all zero.
fn blank(area: &[u8]) -> bool {
    area.iter().all(|&x| x == 0)
}

// A case: its call with its two numbers, the lengths of work area and output, the answer that it expects, and the length of its input.
#[derive(Clone, Copy)]
struct Case {
    call: Call,
    x: u64,
    y: u64,
    work: usize,
    out: usize,
    expected: Told,
    input: usize,
}

// Number k of a case.
fn number(head: &[u8; 80], k: usize) -> usize
    requires { k < 10 }
{
    words::get::<8>(head, 8 * k)
}

// The numbers of a case, in the order in which a file has them.
impl From<&[u8; 80]> for Case {
    fn from(head: &[u8; 80]) -> Case {
        Case {
            call: Call::from(number(head, 0)),
            x: number(head, 1) as u64,
            y: number(head, 2) as u64,
            work: number(head, 3),
            out: number(head, 4),
            expected: Told {
                number: number(head, 5) as u64,
                first: number(head, 6) as u64,
                second: number(head, 7) as u64,
                third: number(head, 8) as u64,
            },
            input: number(head, 9),
        }
    }
}

// Makes a case's call, and compares the answer, the whole output, and the work area with zero.
fn tried(case: &Case, input: &[u8], output: &[u8], work: &mut [u8], out: &mut [u8]) -> Outcome {
    let got = called(case.call, case.x, case.y, input, work, out);
    let right = got == case.expected && blank(work) && &*out == output;
    judged(right, got)
}

// Runs the case in a file. None is one that is no case, or that asks for longer areas than those here.
fn run(file: &[u8]) -> Option<Outcome> {
    let (head, rest) = file.split_first_chunk::<80>()?;
    let case = Case::from(head);
    let (input, output) = rest.split_at_checked(case.input)?;
    let mut work = [7u8; 65537];
    let mut out = [7u8; 4096];
    let work = work.get_mut(..case.work)?;
    let out = out.get_mut(..case.out)?;
    Some(tried(&case, input, output, work, out))
}

// The coordinates of 1,025 holes, 32 to a row.
fn laid_out() -> [u8; 4100] {
    let mut list = [0u8; 4100];
    for i in 0..1025 {
        words::put::<2>(&mut list, 4 * i, 64 * (i % 32));
        words::put::<2>(&mut list, 4 * i + 2, 64 * (i / 32));
    }
    list
}

// The first n bytes, or all where there are fewer.
fn first(bytes: &[u8], n: usize) -> &[u8] {
    &bytes[..n.min(bytes.len())]
}

// Builds the record of a field at 1/8, and checks what was built.
fn built(list: &[u8], work: &mut [u8], out: &mut [u8]) -> Result<(u64, u64, u64), Refusal> {
    let size = record::build(list, 1, 8, work, out)?;
    let (holes, pairs) = record::check(first(out, size as usize), work)?;
    Ok((holes, pairs, 0))
}

// The same with areas of 65,536 bytes.
fn full(list: &[u8]) -> Told {
    let mut work = [7u8; 65536];
    let mut out = [7u8; 65536];
    Told::from(built(list, &mut work, &mut out))
}

// Whether the holes in the list's first bytes are answered with this number and this first value.
fn counted(list: &[u8], size: usize, number: u64, value: u64) -> Outcome {
    let got = full(first(list, size));
    judged(got.number == number && got.first == value, got)
}

// An input of more than 65,536 bytes is refused before all else.
fn long_input() -> Outcome {
    let input = [0u8; 65537];
    let mut out = [7u8; 128];
    let got = printed(&input, &mut out);
    judged(
        got.first == 17 && first(&out, 17) == b"refused 17 65536\n".as_slice(),
        got,
    )
}

// Prints the line of a case or a sheet, and gives whether it agrees.
fn shown(rt: &impl Print, name: &str, outcome: Outcome) -> io::Result<bool> {
    match outcome {
        Ok(()) => {
            println!(rt; "{name} ok")?;
            Ok(true)
        }
        Err(got) => {
            println!(rt; "{name} differs: answer {got}")?;
            Ok(false)
        }
    }
}

// How many of the sheets agree. "1,024 distinct holes pass, 1,025 give 3."
fn sheets(rt: &impl Print) -> io::Result<u64>
    ensures { IfOk result (λ right. right ≤ 3) }
{
    let list = laid_out();
    let first = shown(rt, "1024-holes", counted(&list, 4096, 0, 1024))?;
    let second = shown(rt, "1025-holes", counted(&list, 4100, 3, 1025))?;
    let third = shown(rt, "long-input", long_input())?;
    Ok(u64::from(first) + u64::from(second) + u64::from(third))
}

// Runs the case in a file, of which at most 8,192 bytes are looked at, and gives whether it agrees. Of one that cannot be opened standard
// error has the reason.
fn filed<R: Files + Print + Eprint>(rt: &R, name: &str) -> io::Result<bool> {
    match fs::open(rt, name) {
        Ok(mut file) => {
            let mut bytes = [0u8; 8192];
            let read = lines::read_start(&mut file, &mut bytes)?;
            shown(rt, name, run(&bytes[..read]).unwrap_or(Err(UNFIT)))
        }
        Err(e) => {
            eprintln!(rt; "{name}: {e}")?;
            Ok(false)
        }
    }
}

// The name of a file that argument i is. None is one that no file can have here.
fn named<'a>(rt: &impl Env, i: usize, path: &'a mut [u8; 4096]) -> Option<&'a str> {
    let n = rt.arg(i, path).ok()?;
    str::from_utf8(&path[..n]).ok()
}

// Runs the case that argument i names, and gives whether it agrees; one that names no file does not. An error is one of the streams or of a
// file.
fn case_at<R: Env + Files + Print + Eprint>(rt: &R, i: usize) -> io::Result<bool> {
    let mut path = [0u8; 4096];
    let Some(name) = named(rt, i, &mut path) else {
        eprintln!(rt; "argument {i} names no file")?;
        return Ok(false);
    };
    filed(rt, name)
}

// How many of the cases agree. The program's own name is the first of the arguments.
fn cases<R: Env + Files + Print + Eprint>(rt: &R, n: usize) -> io::Result<u64>
    requires { (1 ≤ n) × (n ≤ 1000) }
    ensures { IfOk result (λ right. right < n) }
{
    let mut right = 0;
    for i in 1..n {
        right += u64::from(case_at(rt, i)?);
    }
    Ok(right)
}

// How many arguments there are; more than 1,000 are not counted further.
fn argument_count(rt: &impl Env) -> usize
    ensures { result ≤ 1001 }
{
    let mut path = [0u8; 4096];
    (0..1001)
        .find(|&i| matches!(rt.arg(i, &mut path), Err(FillError::NotPresent)))
        .unwrap_or(1001)
}

fn main(rt: HostRuntime) -> io::Result<()> {
    let n = argument_count(&rt);
    if n < 1 || 1000 < n {
        return Ok(());
    }
    let right = sheets(&rt)? + cases(&rt, n)?;
    println!(rt; "{right} of {} agree", n + 2)
}
