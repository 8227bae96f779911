// Records: cutting one into its parts, inspecting it, checking it, and handing back its sections.
// Only `cut` knows how the bytes are laid out and that holes have two coordinates; what comes after it works on the parts.
#![tactic(auto)]

ghost use Rattle.std.specs.Prelude.{◌≡◌, ◌+◌, ◌*◌, ◌-◌, ◌/◌, ◌<◌, ◌≤◌, length};
ghost use Rattle.slate.specs.Columns.{FIRST, SECOND};
ghost use Rattle.slate.specs.Slate.{cell, Grid};
ghost use Rattle.paper.specs.Record.{two_numbers};
ghost use Rattle.paper.specs.Refusals.{build};
ghost use Rattle.paper.specs.Answers.{PartAt, Builds, Checks, HandsBack};
ghost use Rattle.record.specs.Cutting.{CutSays, Begun, PartsOf, CountsFit, slice_of};
ghost use Rattle.record.specs.Sections.{part_of, named_place};
ghost use Rattle.record.specs.Inspecting.{InspectSays, TakeSays, Measured, Located};
ghost use Rattle.words.specs.Words.{bytes, Written};
ghost use Rattle.paper.specs.Lists.{joined};
ghost use Rattle.tree.specs.Standing.{tree_on, Stands};
ghost use Rattle.record.specs.Building.{HeadFits, NodesFit, head, node_bytes, front, Buildable, Sized, Drawn, FrontFits};
ghost use Rattle.record.specs.Outputs.{Blank, Made};
ghost use Rattle.field.specs.Boxes.{HolesIn};

use field::Ratio;
use paper::Refusal;

// A record's ratio, its counts, and where its parts start. Places and no slices: C is given places, and of a struct that holds references clauses would
// have to say at which moment. So the record's bytes stand beside it in each call.
#[derive(Clone, Copy)]
pub struct Parts {
    pub ratio: Ratio,
    pub n: usize,
    pub m: usize,
    pub holes: usize,
    pub nodes: usize,
    pub pairs: usize,
}

// Where a section of a record stands.
#[derive(Clone, Copy)]
pub struct Place {
    pub start: usize,
    pub size: usize,
}

// The sections of a record, each without its count.
#[derive(Clone, Copy)]
pub enum Section {
    Holes,
    Nodes,
    Pairs,
}

// Cuts a record into its parts: the ratio, the counts and the length are tested, in document 01's order.
pub fn cut(bytes: &[u8]) -> Result<Parts, Refusal>
    ensures { CutSays bytes.now result }
{
    if bytes.len() < 4 {
        return Err(Refusal::Short(4));
    }
    let ratio = Ratio::new(bytes[0] as usize, bytes[1] as usize)?;
    let n = words::get::<2>(bytes, 2);
    if n == 0 {
        return Err(Refusal::None);
    }
    if 1024 < n {
        return Err(Refusal::Many(n as u64));
    }
    cut_parts(bytes, ratio, n)
}

// The same from the node count on.
fn cut_parts(bytes: &[u8], ratio: Ratio, n: usize) -> Result<Parts, Refusal>
    requires { Begun bytes.now ratio n }
    ensures { CutSays bytes.now result }
{
    let len = bytes.len();
    if len < 6 + 4 * n {
        return Err(Refusal::Short((6 + 4 * n) as u64));
    }
    let nodes = words::get::<2>(bytes, 4 + 4 * n);
    if nodes != 2 * n - 1 {
        return Err(Refusal::Count(nodes as u64));
    }
    if len < 6 + 12 * n {
        return Err(Refusal::Short((6 + 12 * n) as u64));
    }
    let m = words::get::<4>(bytes, 2 + 12 * n);
    if n * (n - 1) / 2 < m {
        return Err(Refusal::Count(m as u64));
    }
    let end = 6 + 12 * n + 4 * m;
    if len < end {
        return Err(Refusal::Short(end as u64));
    }
    if end < len {
        return Err(Refusal::Over(len as u64));
    }
    Ok(Parts {
        ratio,
        n,
        m,
        holes: 4,
        nodes: 6 + 4 * n,
        pairs: 6 + 12 * n,
    })
}

// The part of a record at a place.
fn part_at(bytes: &[u8], place: Place) -> &[u8]
    requires { place.start + place.size ≤ length bytes.now }
    ensures { PartAt bytes.entry result (record { start = place.start; size = place.size }) }
{
    &bytes[place.start..place.start + place.size]
}

impl Parts {
    // Where a section stands.
    fn place(self, section: Section) -> Place
        requires { CountsFit self }
        ensures { result ≡ named_place self section }
    {
        match section {
            Section::Holes => Place {
                start: self.holes,
                size: 4 * self.n,
            },
            Section::Nodes => Place {
                start: self.nodes,
                size: 4 * (2 * self.n - 1),
            },
            Section::Pairs => Place {
                start: self.pairs,
                size: 4 * self.m,
            },
        }
    }

    // The part of a record that holds a section.
    pub fn slice(self, bytes: &[u8], section: Section) -> &[u8]
        requires { PartsOf bytes.now self }
        ensures { result.now ≡ slice_of section bytes.now }
    {
        part_at(bytes, self.place(section))
    }
}

// Tests a record, in document 01's order, and leaves what it found on the slate: the tree, and for each node how many holes are under it, the
// lowest of them, their box and their ranks. The questions build on this.
pub fn inspect(bytes: &[u8], work: &mut [u8]) -> Result<Parts, Refusal>
    ensures { InspectSays bytes.now work.old work.new result }
{
    if work.len() < 65536 {
        return Err(Refusal::Work);
    }
    let p = cut(bytes)?;
    inspect_nodes(bytes, work, p)
}

// From the holes on: refusals 6, 11 and 12.
fn inspect_nodes(bytes: &[u8], work: &mut [u8], p: Parts) -> Result<Parts, Refusal>
    requires parts_of { PartsOf bytes.now p }
    requires grid { Grid work.old }
    ensures { InspectSays bytes.now work.old work.new result }
{
    let n = p.n;
    let holes = p.slice(bytes, Section::Holes);
    let nodes = p.slice(bytes, Section::Nodes);
    if let Some(i) = field::repeated(work, holes, 2, n) {
        return Err(Refusal::Twice(i as u64));
    }
    if let Some(k) = tree::load(work, nodes, n) {
        return Err(Refusal::Tree(k as u64));
    }
    if let Some(k) = tree::loose(work, n) {
        return Err(Refusal::Loose(k as u64));
    }
    tree::sum_up(work, holes, 2, n);
    inspect_pairs(bytes, work, p)
}

// From the pairs on: refusals 13 and 14. The covering takes the columns of the boxes for its own, so that a taken record is summed up once more.
fn inspect_pairs(bytes: &[u8], work: &mut [u8], p: Parts) -> Result<Parts, Refusal>
    requires parts_of { PartsOf bytes.now p }
    requires measured { Measured bytes.now work.old }
    ensures { InspectSays bytes.now work.old work.new result }
{
    let n = p.n;
    let m = p.m;
    let list = p.slice(bytes, Section::Pairs);
    if let Some(k) = pairs::check_pairs(work, list, 2, p.ratio, n, m) {
        return Err(Refusal::Pair(k as u64));
    }
    tree::rank(work, n);
    if let Some((i, j)) = cover::uncovered(work, list, n, m) {
        return Err(Refusal::Cover((1024 * i + j) as u64));
    }
    let holes = p.slice(bytes, Section::Holes);
    tree::sum_up(work, holes, 2, n);
    Ok(p)
}

// Inspects a record and wipes the slate: a taken record's parts, or why it is refused.
fn taken_parts(bytes: &[u8], work: &mut [u8]) -> Result<Parts, Refusal>
    ensures { TakeSays bytes.now work.old work.new result }
{
    slate::lend(work, &mut |work| inspect(bytes, work))
}

// Takes a record exactly when it meets document 01's rules, and gives its holes and its pairs.
pub fn check(bytes: &[u8], work: &mut [u8]) -> Result<(u64, u64), Refusal>
    ensures { Checks bytes.now result work.old work.new }
{
    let p = taken_parts(bytes, work)?;
    Ok((p.n as u64, p.m as u64))
}

// The place of a section of a record; the empty place at the start of one that is refused, and no Option: HandsBack and the C interface promise it.
pub fn place_of(bytes: &[u8], work: &mut [u8], section: Section) -> Place
    ensures { Located (part_of section) bytes.now work.old work.new result }
{
    match taken_parts(bytes, work) {
        Ok(p) => p.place(section),
        Err(_) => Place { start: 0, size: 0 },
    }
}

// The section itself: the part of the caller's record at that place.
pub fn section_of<'a>(bytes: &'a [u8], work: &mut [u8], section: Section) -> &'a [u8]
    ensures { HandsBack (part_of section) bytes.entry result work.old work.new }
{
    part_at(bytes, place_of(bytes, work, section))
}

// Writes the ratio, the hole count and the holes. That the output is blank before is asked in each call from here on: it is C's.
fn put_head(out: &mut [u8], holes: &[u8], ratio: Ratio, n: usize)
    requires { HeadFits out.old holes.now n }
    ensures { Written out.old out.new 0 (head holes.now ratio.a ratio.b n) }
{
    words::put::<2>(out, 0, 256 * ratio.a + ratio.b);
    words::put::<2>(out, 2, n);
    words::copy(out, 4, holes);
}

// Writes node k's two numbers.
fn put_entry(out: &mut [u8], work: &[u8], at: usize, k: usize)
    requires at_in_bounds { at + 4 ≤ length out.old }
    requires grid { Grid work.now × (k < 2048) }
    ensures { Written out.old out.new at (two_numbers (cell work.now FIRST k, cell work.now SECOND k)) }
{
    paper::put_two_numbers(out, at, tree::node_at(work, k).into());
}

// Writes the nodes, and the node count before them.
fn put_entries(out: &mut [u8], work: &[u8], n: usize)
    requires { NodesFit out.old work.now n }
    ensures { Written out.old out.new (6 + 4 * n) (joined two_numbers (tree_on work.now n).nodes) }
{
    for k in 0..2 * n - 1 {
        put_entry(out, work, 6 + 4 * n + 4 * k, k);
    }
}

fn put_nodes(out: &mut [u8], work: &[u8], n: usize)
    requires { NodesFit out.old work.now n }
    ensures { Written out.old out.new (4 + 4 * n) (node_bytes work.now n) }
{
    words::put::<2>(out, 4 + 4 * n, 2 * n - 1);
    put_entries(out, work, n);
}

// Writes how many pairs a record of n holes has that is `end` bytes long.
fn put_count(out: &mut [u8], n: usize, end: usize)
    requires { (n ≤ 1024) × (6 + 12 * n ≤ end) × (6 + 12 * n ≤ length out.old) }
    ensures { Written out.old out.new (2 + 12 * n) (bytes 4 ((end - (6 + 12 * n)) / 4)) }
{
    words::put::<4>(out, 2 + 12 * n, (end - (6 + 12 * n)) / 4);
}

// Writes all that stands before the pairs of a record that is `end` bytes long: the ratio, the holes, the nodes, and the pair count.
fn put_front(holes: &[u8], ratio: Ratio, n: usize, end: usize, work: &[u8], out: &mut [u8])
    requires front_fits { FrontFits holes.now n work.now out.old }
    requires n_bound { 6 + 12 * n ≤ end }
    ensures { Written out.old out.new 0 (front holes.now ratio.a ratio.b n ((end - (6 + 12 * n)) / 4) work.now) }
{
    put_head(out, holes, ratio, n);
    put_nodes(out, work, n);
    put_count(out, n, end);
}

// Writes the record of the field whose tree is on the slate. The pairs are listed first, as many as fit: how far they go is the record's length,
// and where the output is shorter it is zeroed again.
fn write_record(
    holes: &[u8],
    ratio: Ratio,
    n: usize,
    work: &[u8],
    out: &mut [u8],
) -> Result<u64, Refusal>
    requires buildable { Buildable holes.now n }
    requires drawn { Drawn holes.now ratio.a ratio.b n work.now }
    requires blank { Blank out.old }
    ensures { Made (build holes.now ratio.a ratio.b) (length work.now) out.old out.new result }
{
    let end = pairs::list_pairs(work, out, 2, ratio, n, 6 + 12 * n);
    if out.len() < end {
        words::zero(out);
        return Err(Refusal::Room(end as u64));
    }
    put_front(holes, ratio, n, end, work, out);
    Ok(end as u64)
}

// Sums the tree on the slate up, and puts what comparisons ask of each node beside it.
fn size_up(work: &mut [u8], holes: &[u8], ratio: Ratio, n: usize)
    requires stands { Stands work.old n }
    requires holes_in { HolesIn holes.now 2 n }
    ensures { Sized holes.now ratio.a ratio.b n work.old work.new }
{
    tree::sum_up(work, holes, 2, n);
    pairs::put_shapes(work, 2, ratio, n);
}

// Cuts the field into its tree, sums it up on the slate, and writes its record.
fn fill(
    holes: &[u8],
    ratio: Ratio,
    n: usize,
    work: &mut [u8],
    out: &mut [u8],
) -> Result<u64, Refusal>
    requires buildable { Buildable holes.now n }
    requires grid { Grid work.old }
    requires blank { Blank out.old }
    ensures { Made (build holes.now ratio.a ratio.b) (length work.old) out.old out.new result }
{
    tree::plant(work, holes, 2, n);
    size_up(work, holes, ratio, n);
    write_record(holes, ratio, n, work, out)
}

// Builds into an output that is all zero: the refusals in document 01's order, then the record. The tests of the area and of the count stand in `inspect` and
// in `cut` too: as functions with `?` they are no plainer, since each return after them has to say again what they found.
fn build_clean(
    holes: &[u8],
    a: u64,
    b: u64,
    work: &mut [u8],
    out: &mut [u8],
) -> Result<u64, Refusal>
    requires { Blank out.old }
    ensures { Made (build holes.now a b) (length work.old) out.old out.new result }
{
    if work.len() < 65536 {
        return Err(Refusal::Work);
    }
    let len = holes.len();
    if len % 4 != 0 {
        return Err(Refusal::Odd(len as u64));
    }
    let n = len / 4;
    if n == 0 {
        return Err(Refusal::None);
    }
    if 1024 < n {
        return Err(Refusal::Many(n as u64));
    }
    let ratio = Ratio::new(a as usize, b as usize)?;
    if let Some(i) = field::repeated(work, holes, 2, n) {
        return Err(Refusal::Twice(i as u64));
    }
    fill(holes, ratio, n, work, out)
}

// Builds the record of a field at the ratio a/b: the holes, their tree and its pairs, followed by zeros; or only zeros where it is refused.
pub fn build(holes: &[u8], a: u64, b: u64, work: &mut [u8], out: &mut [u8]) -> Result<u64, Refusal>
    ensures { Builds holes.now a b result work.old work.new out.old out.new }
{
    words::zero(out);
    slate::lend(work, &mut |work| build_clean(holes, a, b, work, out))
}
