// The paper: document 01 as definitions, in specs/, one file for each of its headings; the refusals as an enum, the `Err` of each
// public call. Everything that a reader of a contract must believe stands here. There is almost no code.
#![tactic(auto)]

ghost use Rattle.std.specs.Prelude.{◌≡◌, ◌+◌, ◌<◌, ◌≤◌, length};
ghost use Rattle.words.specs.Words.{Written};
ghost use Rattle.paper.specs.Record.{two_numbers, two_numbers_at};
ghost use Rattle.paper.specs.Refusals.{number, value};

// Document 01's refusals, 1 to 17 in order. A case carries its value where the value is no constant.
#[derive(Clone, Copy)]
pub enum Refusal {
    Odd(u64),
    None,
    Many(u64),
    Ratio,
    Work,
    Twice(u64),
    Room(u64),
    Short(u64),
    Count(u64),
    Over(u64),
    Tree(u64),
    Loose(u64),
    Pair(u64),
    Cover(u64),
    Single,
    Low(u64),
    Long,
}

impl Refusal {
    // Its number in document 01's table.
    // A match: the cases carry values, so there is no cast, and a From would not say which of the two numbers it gives.
    pub fn number(self) -> u64
        ensures { result ≡ number self }
    {
        match self {
            Refusal::Odd(_) => 1,
            Refusal::None => 2,
            Refusal::Many(_) => 3,
            Refusal::Ratio => 4,
            Refusal::Work => 5,
            Refusal::Twice(_) => 6,
            Refusal::Room(_) => 7,
            Refusal::Short(_) => 8,
            Refusal::Count(_) => 9,
            Refusal::Over(_) => 10,
            Refusal::Tree(_) => 11,
            Refusal::Loose(_) => 12,
            Refusal::Pair(_) => 13,
            Refusal::Cover(_) => 14,
            Refusal::Single => 15,
            Refusal::Low(_) => 16,
            Refusal::Long => 17,
        }
    }

    // The value that it carries.
    pub fn value(self) -> u64
        ensures { result ≡ value self }
    {
        match self {
            Refusal::Odd(x)
            | Refusal::Many(x)
            | Refusal::Twice(x)
            | Refusal::Room(x)
            | Refusal::Short(x)
            | Refusal::Count(x)
            | Refusal::Over(x)
            | Refusal::Tree(x)
            | Refusal::Loose(x)
            | Refusal::Pair(x)
            | Refusal::Cover(x)
            | Refusal::Low(x) => x,
            Refusal::None | Refusal::Ratio | Refusal::Single => 0,
            Refusal::Work | Refusal::Long => 65536,
        }
    }
}

// The two numbers of a node or of a pair, which stand at `at` in a record.
pub fn two_numbers_at(bytes: &[u8], at: usize) -> (usize, usize)
    requires { at + 4 ≤ length bytes.now }
    ensures is { result ≡ two_numbers_at bytes.now at }
    ensures small { (result.0 < 65536) × (result.1 < 65536) }
{
    (words::get::<2>(bytes, at), words::get::<2>(bytes, at + 2))
}

// Writes the two numbers of a node or of a pair at `at`.
pub fn put_two_numbers(out: &mut [u8], at: usize, two: (usize, usize))
    requires { at + 4 ≤ length out.old }
    ensures { Written out.old out.new at (two_numbers two) }
{
    words::put::<2>(out, at, two.0);
    words::put::<2>(out, at + 2, two.1);
}
