// The library as C sees it: each call of include/antlophis.h. An answer is plain numbers, a part of a record is its place.
#![tactic(auto)]

ghost use Rattle.paper.specs.Record.{holes_part, nodes_part, pairs_part};
ghost use Rattle.paper.specs.Refusals.{build, check};
ghost use Rattle.paper.specs.Questions.{closest, pitch, links};
ghost use Rattle.paper.specs.Answers.{told};
ghost use Rattle.press.specs.Flat.{flat, counts, three, yes_or_no, Says, Tells, Finishes, HandsOver};
ghost use Rattle.std.specs.Prelude.{◌≡◌, length};

use paper::Refusal;
use record::{Place, Section};

// Number 0 is done, with the values that the call gives; any other is the refusal, with its value first. What is not used is 0.
#[repr(C)]
#[derive(Clone, Copy)]
pub struct Answer {
    pub number: u64,
    pub first: u64,
    pub second: u64,
    pub third: u64,
}

// A part of the caller's record: record's Place, as C has it.
#[repr(C)]
#[derive(Clone, Copy)]
pub struct Part {
    pub start: u64,
    pub length: u64,
}

// What a call said, in numbers.
impl From<Result<(u64, u64, u64), Refusal>> for Answer {
    ghost from_gives = { λ said r. Says (flat three (told said)) r };

    fn from(said: Result<(u64, u64, u64), Refusal>) -> Answer {
        match said {
            Ok((first, second, third)) => Answer {
                number: 0,
                first,
                second,
                third,
            },
            Err(x) => Answer {
                number: x.number(),
                first: x.value(),
                second: 0,
                third: 0,
            },
        }
    }
}

impl From<Place> for Part {
    ghost from_gives = { λ p r. (r.start ≡ p.start) × (r.length ≡ p.size) };

    fn from(place: Place) -> Part {
        Part {
            start: place.start as u64,
            length: place.size as u64,
        }
    }
}

// Builds the record of a field at the ratio a/b into an output: the first number is how many bytes it has.
#[unsafe(no_mangle)]
pub extern "C" fn antlophis_build(
    holes: &[u8],
    a: u64,
    b: u64,
    work: &mut [u8],
    out: &mut [u8],
) -> Answer
    ensures { Finishes (build holes.now a b (length work.old) (length out.old)) result work.old work.new out.old out.new }
{
    Answer::from(record::build(holes, a, b, work, out).map(|n| (n, 0, 0)))
}

// Takes a record exactly when it meets document 01's record rules: the first number is its holes, the second its pairs.
#[unsafe(no_mangle)]
pub extern "C" fn antlophis_check(bytes: &[u8], work: &mut [u8]) -> Answer
    ensures { Tells (flat counts (check bytes.now (length work.old))) result work.old work.new }
{
    Answer::from(record::check(bytes, work).map(|(n, m)| (n, m, 0)))
}

// The closest pair of a record's holes: the first two numbers are the holes, the third is their squared distance.
#[unsafe(no_mangle)]
pub extern "C" fn antlophis_closest(bytes: &[u8], work: &mut [u8]) -> Answer
    ensures { Tells (flat three (closest bytes.now (length work.old))) result work.old work.new }
{
    Answer::from(questions::closest(bytes, work))
}

// Whether every two holes of a record are at least p apart: the first number is 1 for yes and 0 for no.
#[unsafe(no_mangle)]
pub extern "C" fn antlophis_pitch(bytes: &[u8], p: u64, work: &mut [u8]) -> Answer
    ensures { Tells (flat yes_or_no (pitch bytes.now p (length work.old))) result work.old work.new }
{
    Answer::from(questions::pitch(bytes, p, work).map(|kept| (u64::from(kept), 0, 0)))
}

// Writes the links of a record into an output: the first number is how many bytes they have.
#[unsafe(no_mangle)]
pub extern "C" fn antlophis_links(bytes: &[u8], work: &mut [u8], out: &mut [u8]) -> Answer
    ensures { Finishes (links bytes.now (length work.old) (length out.old)) result work.old work.new out.old out.new }
{
    Answer::from(questions::links(bytes, work, out).map(|n| (n, 0, 0)))
}

// The holes, the nodes, the pairs of a record, without their count; the empty part at the start of one that is refused. Three functions: the names are C's.
#[unsafe(no_mangle)]
pub extern "C" fn antlophis_holes(bytes: &[u8], work: &mut [u8]) -> Part
    ensures { HandsOver holes_part bytes.now result work.old work.new }
{
    Part::from(record::place_of(bytes, work, Section::Holes))
}

#[unsafe(no_mangle)]
pub extern "C" fn antlophis_nodes(bytes: &[u8], work: &mut [u8]) -> Part
    ensures { HandsOver nodes_part bytes.now result work.old work.new }
{
    Part::from(record::place_of(bytes, work, Section::Nodes))
}

#[unsafe(no_mangle)]
pub extern "C" fn antlophis_pairs(bytes: &[u8], work: &mut [u8]) -> Part
    ensures { HandsOver pairs_part bytes.now result work.old work.new }
{
    Part::from(record::place_of(bytes, work, Section::Pairs))
}
