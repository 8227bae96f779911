// The questions over a taken record: the closest pair, the pitch test and the links.
// Known is asked in each call: it relates the lent slate with a record's bytes. Each inspects the record once and answers from what then stands on the slate; every call ends with the slate wiped.
#![tactic(auto)]

ghost use Rattle.std.specs.Prelude.{◌≡◌, ◌+◌, ◌*◌, ◌<◌, ◌≤◌, leb, length};
ghost use Rattle.words.specs.Words.{Written};
ghost use Rattle.paper.specs.Field.{square};
ghost use Rattle.paper.specs.Record.{two_numbers, two_numbers_at};
ghost use Rattle.paper.specs.Questions.{closest, pitch, links};
ghost use Rattle.paper.specs.Answers.{told, FindsClosest, TestsPitch, WritesLinks};
ghost use Rattle.field.specs.Boxes.{NodeOn};
ghost use Rattle.record.specs.Outputs.{Blank, Made};
ghost use Rattle.questions.specs.Nearest.{near_at, PairNearer, PairThere, PairsThere, NearestPair, Wanted, NearestHoles};
ghost use Rattle.questions.specs.Asking.{Known, LooksOn, Looks};
ghost use Rattle.questions.specs.Linking.{link_on, links_on, LinkFits, LinksFit};

use field::Ratio;
use paper::Refusal;
use record::{Parts, Section};

// What one inspection gives: the checker's answer and the closest pair.
#[derive(Clone, Copy)]
pub struct Looked {
    pub checked: Result<(u64, u64), Refusal>,
    pub closest: Result<(u64, u64, u64), Refusal>,
}

// Two holes and how far they are apart. The order is that in which one is nearer: by the squared distance, then by the first hole, then by the second.
#[derive(Clone, Copy, PartialEq, Eq, PartialOrd, Ord)]
struct Near {
    far: usize,
    first: usize,
    second: usize,
}

// Farther apart than any two holes. No plainer as an Option: its None is below every Some, so that each comparison would need a match.
const FARTHEST: Near = Near {
    far: usize::MAX,
    first: 0,
    second: 0,
};

// The link of nodes p and q: the lowest-numbered hole under each, smaller number first.
fn link_of(work: &[u8], p: usize, q: usize) -> (usize, usize)
    requires node_on { NodeOn work.now 2 p }
    requires q_bound { q < 2048 }
    ensures is { result ≡ link_on work.now (p, q) }
    ensures small { (result.0 < 65536) × (result.1 < 65536) }
{
    let i = slate::cell(work, slate::LOWEST, p);
    let j = slate::cell(work, slate::LOWEST, q);
    (i.min(j), i.max(j))
}

// The two holes of nodes p and q, of one hole each, for the squared distance far.
fn near_of(work: &[u8], p: usize, q: usize, far: usize) -> Near
    requires node_on { NodeOn work.now 2 p }
    requires q_bound { q < 2048 }
    ensures { result ≡ near_at work.now (p, q) far }
{
    let (first, second) = link_of(work, p, q);
    Near { far, first, second }
}

// The nearer of two holes and those of nodes p and q. Their low corners are looked at before their holes: most nodes are farther apart than the least,
// which a processor foresees, and whether they have one hole it would have to guess.
fn nearer_nodes(work: &[u8], p: usize, q: usize, least: Near) -> Near
    requires node_on { NodeOn work.now 2 p }
    requires q_bound { q < 2048 }
    ensures { PairNearer work.now (p, q) least result }
{
    let far = field::corners_apart(work, 2, p, q);
    if least.far < far {
        return least;
    }
    if slate::cell(work, slate::HOLES, p) != 1 || slate::cell(work, slate::HOLES, q) != 1 {
        return least;
    }
    least.min(near_of(work, p, q, far))
}

// The nearer of two holes and those of pair k. Many pairs are far apart on the first axis alone.
fn nearer_pair(work: &[u8], list: &[u8], k: usize, least: Near) -> Near
    requires { PairThere work.now list.now k }
    ensures { PairNearer work.now (two_numbers_at list.now (4 * k)) least result }
{
    let (p, q) = paper::two_numbers_at(list, 4 * k);
    if least.far < field::squared(field::lows_apart(work, 0, p, q)) {
        return least;
    }
    nearer_nodes(work, p, q, least)
}

// The nearest two holes of m pairs. The walk is a function of its own when it runs, for what it keeps then fits in registers.
#[inline(never)]
fn nearest_pair(work: &[u8], list: &[u8], m: usize) -> Near
    requires { PairsThere work.now list.now m }
    ensures { NearestPair work.now list.now m result }
{
    // A `for`: a fold would need the same invariant, and the closure's states beside it.
    let mut least = FARTHEST;
    for k in 0..m {
        least = nearer_pair(work, list, k, least);
    }
    least
}

// The closest two holes of a record of two or more at a ratio above 2: the nearest of its pairs'.
fn nearest(bytes: &[u8], work: &[u8], p: Parts) -> Near
    requires known { Known bytes.now work.now p }
    requires wanted { Wanted p }
    ensures { NearestHoles bytes.now result }
{
    let list = p.slice(bytes, Section::Pairs);
    nearest_pair(work, list, p.m)
}

// Refusal 16: the ratio is too low.
fn low(ratio: Ratio) -> Refusal
    ensures { result ≡ Refusal.Low (256 * ratio.a + ratio.b) }
{
    Refusal::Low((256 * ratio.a + ratio.b) as u64)
}

// The closest pair of a taken record: refusals 15 and 16, then the nearest two holes and their squared distance.
fn closest_of(bytes: &[u8], work: &[u8], p: Parts) -> Result<(u64, u64, u64), Refusal>
    requires { Known bytes.now work.now p }
    ensures { told result ≡ closest bytes.now (length work.now) }
{
    if p.n == 1 {
        return Err(Refusal::Single);
    }
    if p.ratio.a <= 2 * p.ratio.b {
        return Err(low(p.ratio));
    }
    let near = nearest(bytes, work, p);
    Ok((near.first as u64, near.second as u64, near.far as u64))
}

// Both answers, before the slate is wiped.
fn look_on(bytes: &[u8], work: &mut [u8]) -> Looked
    ensures { LooksOn bytes.now (length work.old) result }
{
    match record::inspect(bytes, work) {
        Err(x) => Looked {
            checked: Err(x),
            closest: Err(x),
        },
        Ok(p) => Looked {
            checked: Ok((p.n as u64, p.m as u64)),
            closest: closest_of(bytes, work, p),
        },
    }
}

// The checker's answer and the closest pair, by one inspection.
pub fn look(bytes: &[u8], work: &mut [u8]) -> Looked
    ensures { Looks bytes.now result work.old work.new }
{
    slate::lend(work, &mut |work| look_on(bytes, work))
}

// The closest pair: two holes and their squared distance.
pub fn closest(bytes: &[u8], work: &mut [u8]) -> Result<(u64, u64, u64), Refusal>
    ensures { FindsClosest bytes.now result work.old work.new }
{
    look(bytes, work).closest
}

// Whether a squared distance is at least p². A p² that is no u64 is more than any.
fn keeps_pitch(p: u64, far: u64) -> bool
    ensures { result ≡ leb (square p) far }
{
    p.checked_mul(p).is_some_and(|square| square <= far)
}

// The pitch test of a taken record: one hole keeps every pitch, and more keep it where the closest two do.
fn pitch_of(bytes: &[u8], work: &[u8], p: u64, parts: Parts) -> Result<bool, Refusal>
    requires { Known bytes.now work.now parts }
    ensures { told result ≡ pitch bytes.now p (length work.now) }
{
    if parts.n == 1 {
        return Ok(true);
    }
    let (_, _, far) = closest_of(bytes, work, parts)?;
    Ok(keeps_pitch(p, far))
}

// The pitch test, before the slate is wiped.
fn pitch_on(bytes: &[u8], p: u64, work: &mut [u8]) -> Result<bool, Refusal>
    ensures { told result ≡ pitch bytes.now p (length work.old) }
{
    let parts = record::inspect(bytes, work)?;
    pitch_of(bytes, work, p, parts)
}

// Whether every two holes are at least p apart.
pub fn pitch(bytes: &[u8], p: u64, work: &mut [u8]) -> Result<bool, Refusal>
    ensures { TestsPitch bytes.now p result work.old work.new }
{
    slate::lend(work, &mut |work| pitch_on(bytes, p, work))
}

// Writes the link of pair k.
fn put_link(out: &mut [u8], work: &[u8], list: &[u8], k: usize)
    requires { LinkFits out.old work.now list.now k }
    ensures { Written out.old out.new (4 * k) (two_numbers (link_on work.now (two_numbers_at list.now (4 * k)))) }
{
    let (p, q) = paper::two_numbers_at(list, 4 * k);
    let link = link_of(work, p, q);
    paper::put_two_numbers(out, 4 * k, link);
}

// Writes the links of m pairs, in order.
fn put_links(out: &mut [u8], work: &[u8], list: &[u8], m: usize)
    requires { LinksFit out.old work.now list.now m }
    ensures { Written out.old out.new 0 (links_on work.now list.now m) }
{
    for k in 0..m {
        put_link(out, work, list, k);
    }
}

// The links of a taken record, into an output that is all zero: refusals 16 and 7, then the links.
fn links_of(bytes: &[u8], work: &[u8], p: Parts, out: &mut [u8]) -> Result<u64, Refusal>
    requires known { Known bytes.now work.now p }
    requires blank { Blank out.old }
    ensures { Made (links bytes.now) (length work.now) out.old out.new result }
{
    if p.ratio.a <= 4 * p.ratio.b {
        return Err(low(p.ratio));
    }
    let m = p.m;
    if out.len() < 4 * m {
        return Err(Refusal::Room((4 * m) as u64));
    }
    let list = p.slice(bytes, Section::Pairs);
    put_links(out, work, list, m);
    Ok((4 * m) as u64)
}

// The links, before the slate is wiped.
fn links_on(bytes: &[u8], work: &mut [u8], out: &mut [u8]) -> Result<u64, Refusal>
    requires { Blank out.old }
    ensures { Made (links bytes.now) (length work.old) out.old out.new result }
{
    let p = record::inspect(bytes, work)?;
    links_of(bytes, work, p, out)
}

// The links: for each pair in order the lowest-numbered hole on each side, smaller number first, followed by zeros; or only zeros where refused.
pub fn links(bytes: &[u8], work: &mut [u8], out: &mut [u8]) -> Result<u64, Refusal>
    ensures { WritesLinks bytes.now result work.old work.new out.old out.new }
{
    words::zero(out);
    slate::lend(work, &mut |work| links_on(bytes, work, out))
}
