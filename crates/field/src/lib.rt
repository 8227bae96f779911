// Holes and boxes: a hole's coordinates in a list of bytes, holes that stand at one place, the box of a node on the slate, and separation.
// Everything is over d coordinates, one to three of them. d stands beside the list in each call: clauses would say `holes.entry.bytes.now` of a struct
// of both, since a struct with a reference has a value before and after a call, and the boxes of nodes ask for d without a list.
#![tactic(auto)]

ghost use Rattle.std.specs.Prelude.{ℕ, map, ◌≡◌, ◌&&◌, not, ◌+◌, ◌*◌, ◌<◌, ◌≤◌, min, max, eqb, leb, get_or};
ghost use Rattle.words.specs.Words.{Read};
ghost use Rattle.slate.specs.Slate.{Grid};
ghost use Rattle.paper.specs.Lists.{same, below};
ghost use Rattle.paper.specs.Field.{hole_at, holes_at, gap, square, distance²};
ghost use Rattle.paper.specs.Tree.{Side, point, spot, around, long, longest, axis};
ghost use Rattle.paper.specs.Separation.{G, D, separated};
ghost use Rattle.paper.specs.Rules.{repeats};
ghost use Rattle.field.specs.Boxes.{HolesIn, HoleIn, NodeOn, Boxed, side_on, box_on, low_end, corner};
ghost use Rattle.field.specs.Buckets.{Bucketed, Chained, Pushed, Searched};
ghost use Rattle.field.specs.Reach.{reach};
ghost use Rattle.field.specs.Sides.{side_around, twice_centre, gap_on, squares, SideIn, Sided, LeftFrom, Squared};

use std::marker::Model;

mod ratio;

pub use ratio::Ratio;

// Coordinate x of hole i.
pub fn coordinate(holes: &[u8], d: usize, i: usize, x: usize) -> usize
    requires hole_in { HoleIn holes.now d i }
    requires x_lt_d { x < d }
    ensures { Read 2 holes.now (2 * d * i + 2 * x) result }
{
    words::get::<2>(holes, 2 * d * i + 2 * x)
}

// Whether holes i and j stand at one place.
pub fn same_place(holes: &[u8], d: usize, i: usize, j: usize) -> bool
    requires hole_in { HoleIn holes.now d i }
    requires hole_in_2 { HoleIn holes.now d j }
    ensures { result ≡ same (hole_at d holes.now (2 * d * i)) (hole_at d holes.now (2 * d * j)) }
{
    (0..d).all(|x| coordinate(holes, d, i, x) == coordinate(holes, d, j, x))
}

// How many buckets holes are sorted into; a prime, so that holes on a grid are spread.
const BUCKETS: usize = 2039;

// The bucket of hole i: a number that its coordinates make, so the same for holes at one place.
fn bucket(holes: &[u8], d: usize, i: usize) -> usize
    requires { HoleIn holes.now d i }
    ensures { Bucketed holes.now d (2 * d * i) result }
{
    // A `for`: the proof of a fold speaks of the closure's states too, and was 40 lines longer for this and `longest_side`.
    let mut b = 0;
    for x in 0..d {
        b = (37 * b + coordinate(holes, d, i, x)) % BUCKETS;
    }
    b
}

// Whether hole i stands where a lower-numbered one does: such a hole is on the chain of its bucket b.
fn is_repeat(work: &[u8], holes: &[u8], d: usize, i: usize, b: usize) -> bool
    requires hole_in { HoleIn holes.now d i }
    requires chained { Chained holes.now d work.now i }
    requires bucketed { Bucketed holes.now d (2 * d * i) b }
    ensures { result ≡ repeats (holes_at d holes.now 0 (i + 1)) i }
{
    let mut c = slate::cell(work, slate::MARKS, b);
    // A `while`: a chain goes on where its cell says.
    while 0 < c {
        if same_place(holes, d, c - 1, i) {
            return true;
        }
        c = slate::cell(work, slate::SCRATCH, c - 1);
    }
    false
}

// Puts hole i at the head of the chain of bucket b. 0 ends a chain and c is hole c - 1: a cell holds numbers.
fn push(work: &mut [u8], i: usize, b: usize)
    requires grid { Grid work.old }
    requires i_bound { (i < 1024) × (b < 2048) }
    ensures { Pushed work.old work.new i b }
{
    let head = slate::cell(work, slate::MARKS, b);
    slate::set_cell(work, slate::SCRATCH, i, head);
    slate::set_cell(work, slate::MARKS, b, i + 1);
}

// The least of n holes that stands where a lower-numbered one does. Each is compared only with those of its bucket. n stands beside the list, which may
// go on after it.
pub fn repeated(work: &mut [u8], holes: &[u8], d: usize, n: usize) -> Option<usize>
    requires grid { Grid work.old }
    requires holes_in { HolesIn holes.now d n }
    ensures { Searched holes.now d n work.old work.new result }
{
    slate::clear(work, slate::MARKS, BUCKETS);
    for i in 0..n {
        let b = bucket(holes, d, i);
        if is_repeat(work, holes, d, i, b) {
            return Some(i);
        }
        push(work, i, b);
    }
    None
}

// One side of a box: from its low end to its high end, both included and both coordinates.
#[derive(Clone, Copy)]
struct Side {
    low: usize,
    high: usize,
}

impl Model for Side {
    ghost Value = { Side };

    ghost view = { λ s. record { low = s.low; high = s.high } };

    ghost inverse = { λ s. record { low = s.low; high = s.high } };

    ghost invariant = { λ s. (s.low < 65536) × (s.high < 65536) };
}

impl Side {
    // The side that is one coordinate.
    fn point(c: usize) -> Self
        requires { c < 65536 }
        ensures { result ≡ point c }
    {
        Side { low: c, high: c }
    }

    // The smallest side that holds both.
    fn around(self, other: Self) -> Self
        ensures { result ≡ side_around self other }
    {
        Side {
            low: self.low.min(other.low),
            high: self.high.max(other.high),
        }
    }

    // How far it is from its low end to its high end.
    fn length(self) -> usize
        ensures { (result ≡ long self) × (result < 65536) }
    {
        self.high.saturating_sub(self.low)
    }

    // Twice its centre.
    fn centre(self) -> usize
        ensures { (result ≡ twice_centre self) × (result < 131072) }
    {
        self.low + self.high
    }
}

// Node k's side on axis x.
fn side_on(work: &[u8], x: usize, k: usize) -> Side
    requires { SideIn work.now x k }
    ensures { result ≡ side_on work.now k x }
{
    Side {
        low: slate::cell(work, slate::LOW + 2 * x, k),
        high: slate::cell(work, slate::HIGH + 2 * x, k),
    }
}

// Node k's side on axis x becomes s.
fn set_side(work: &mut [u8], x: usize, k: usize, s: Side)
    requires { SideIn work.old x k }
    ensures { Sided work.old work.new x k s }
{
    slate::set_cell(work, slate::LOW + 2 * x, k, s.low);
    slate::set_cell(work, slate::HIGH + 2 * x, k, s.high);
}

// Sets node k's box, one side after another, to what `of` makes of the slate and of an axis whose side is still as it was.
fn set_box<F: Fn(&[u8], usize) -> Side>(work: &mut [u8], d: usize, k: usize, of: F)
    requires node_on { NodeOn work.old d k }
    requires callable { (w : _) (x : _) → x < d → LeftFrom work.old w.now k x → F.pre of w x }
    ensures { (f : ℕ → Side) → ((w : _) (x : _) (s : _) → x < d → LeftFrom work.old w.now k x → F.post of w x s → s ≡ f x) → Boxed work.old work.new d k (map f (below d)) }
{
    for x in 0..d {
        let s = of(work, x);
        set_side(work, x, k, s);
    }
}

// Node k's box is the place of hole h.
pub fn set_point(work: &mut [u8], holes: &[u8], d: usize, k: usize, h: usize)
    requires node_on { NodeOn work.old d k }
    requires hole_in { HoleIn holes.now d h }
    ensures { Boxed work.old work.new d k (spot (hole_at d holes.now (2 * d * h))) }
{
    set_box(work, d, k, |_, x| Side::point(coordinate(holes, d, h, x)));
}

// Node k's box is the smallest that holds the boxes of nodes i and j, which are other nodes.
pub fn set_around(work: &mut [u8], d: usize, k: usize, i: usize, j: usize)
    requires node_on { NodeOn work.old d k }
    requires k_lt_i { (k < i) × (i < 2048) }
    requires k_lt_j { (k < j) × (j < 2048) }
    ensures { Boxed work.old work.new d k (around (box_on work.old d i) (box_on work.old d j)) }
{
    set_box(work, d, k, |w, x| side_on(w, x, i).around(side_on(w, x, j)));
}

// Makes node k's box the smallest that holds hole h too.
pub fn set_beside(work: &mut [u8], holes: &[u8], d: usize, k: usize, h: usize)
    requires node_on { NodeOn work.old d k }
    requires hole_in { HoleIn holes.now d h }
    ensures { Boxed work.old work.new d k (around (box_on work.old d k) (spot (hole_at d holes.now (2 * d * h)))) }
{
    set_box(work, d, k, |w, x| {
        let c = coordinate(holes, d, h, x);
        side_on(w, x, k).around(Side::point(c))
    });
}

// The square of a number that is no larger than twice a coordinate.
pub fn squared(x: usize) -> usize
    requires { x < 131072 }
    ensures { Squared x result }
{
    x * x
}

// The sum of the squares of what `of` makes of each axis.
fn sum_of_squares<F: Fn(usize) -> usize>(d: usize, of: F) -> usize
    requires d_bound { d ≤ 3 }
    requires callable { (x : _) → x < d → F.pre of x }
    requires small { (x r : _) → x < d → F.post of x r → r < 131072 }
    ensures is { (f : ℕ → ℕ) → ((x r : _) → x < d → F.post of x r → r ≡ f x) → result ≡ squares f d }
    ensures bound { result < 51539607552 }
{
    // A `for`, as in `bucket`: its invariant bounds the sum.
    let mut sum = 0;
    for x in 0..d {
        sum += squared(of(x));
    }
    sum
}

// G of node k's box.
pub fn girth(work: &[u8], d: usize, k: usize) -> usize
    requires { NodeOn work.now d k }
    ensures { (result ≡ G (box_on work.now d k)) × (result < 51539607552) }
{
    sum_of_squares(d, |x| side_on(work, x, k).length())
}

// The longest side of node k's box.
pub fn longest_side(work: &[u8], d: usize, k: usize) -> usize
    requires { NodeOn work.now d k }
    ensures { (result ≡ longest (box_on work.now d k)) × (result < 65536) }
{
    // A `for`, as in `bucket`.
    let mut most = 0;
    for x in 0..d {
        most = most.max(side_on(work, x, k).length());
    }
    most
}

// D of the boxes of nodes j and k.
pub fn distance(work: &[u8], d: usize, j: usize, k: usize) -> usize
    requires node_on { NodeOn work.now d j }
    requires k_bound { k < 2048 }
    ensures { (result ≡ D (box_on work.now d j) (box_on work.now d k)) × (result < 51539607552) }
{
    sum_of_squares(
        d,
        |x| side_on(work, x, j)
            .centre()
            .abs_diff(side_on(work, x, k).centre()),
    )
}

// How far the low ends of nodes j and k are apart on axis x.
pub fn lows_apart(work: &[u8], x: usize, j: usize, k: usize) -> usize
    requires side_in { SideIn work.now x j }
    requires k_bound { k < 2048 }
    ensures { (result ≡ gap_on low_end work.now j k x) × (result < 65536) }
{
    side_on(work, x, j).low.abs_diff(side_on(work, x, k).low)
}

// The squared distance of the low corners of the boxes of nodes j and k. Of two nodes of one hole each it is the squared distance of their holes,
// at half the reads that D takes.
pub fn corners_apart(work: &[u8], d: usize, j: usize, k: usize) -> usize
    requires node_on { NodeOn work.now d j }
    requires k_bound { k < 2048 }
    ensures { (result ≡ distance² (corner (box_on work.now d j)) (corner (box_on work.now d k))) × (result < 51539607552) }
{
    sum_of_squares(d, |x| lows_apart(work, x, j, k))
}

// x²·y, for x one of b and 2b + a, and y one of G and D.
fn weighed(x: usize, y: usize) -> usize
    requires { (x ≤ 80) × (y < 51539607552) }
    ensures { result ≡ square x * y }
{
    x * x * y
}

// Whether D, here far, is not 0 and b²·D >= (2b + a)²·G, here size.
fn wide_enough(ratio: Ratio, size: usize, far: usize) -> bool
    requires { (size < 51539607552) × (far < 51539607552) }
    ensures { result ≡ (not (eqb far 0) && leb (square (2 * ratio.b + ratio.a) * size) (square ratio.b * far)) }
{
    far != 0 && weighed(2 * ratio.b + ratio.a, size) <= weighed(ratio.b, far)
}

// Whether nodes j and k are separated at the ratio.
pub fn is_separated(work: &[u8], d: usize, ratio: Ratio, j: usize, k: usize) -> bool
    requires node_on { NodeOn work.now d j }
    requires k_bound { k < 2048 }
    ensures { result ≡ separated ratio.a ratio.b (box_on work.now d j) (box_on work.now d k) }
{
    let far = distance(work, d, j, k);
    let size = girth(work, d, j).max(girth(work, d, k));
    wide_enough(ratio, size, far)
}

// The reach of node k at the ratio: the least D at which it is separated from a node of no larger G.
pub fn reach(work: &[u8], d: usize, ratio: Ratio, k: usize) -> usize
    requires { NodeOn work.now d k }
    ensures { (result ≡ reach ratio.a ratio.b (box_on work.now d k)) × (result < 562949953421312) }
{
    let size = weighed(2 * ratio.b + ratio.a, girth(work, d, k));
    let parts = squared(ratio.b);
    size.div_ceil(parts).max(1)
}

// The axis on which node k's box is longest, the first of them on a tie.
pub fn cut_axis(work: &[u8], d: usize, k: usize) -> usize
    requires { NodeOn work.now d k }
    ensures { (result ≡ axis (box_on work.now d k)) × (result < d) }
{
    // A `for`: std's max_by_key gives the last of equals.
    let mut best = 0;
    for x in 1..d {
        if side_on(work, best, k).length() < side_on(work, x, k).length() {
            best = x;
        }
    }
    best
}

// Whether hole h is in the first part where node k's box is cut on axis x: not above the middle.
pub fn goes_first(work: &[u8], holes: &[u8], d: usize, k: usize, x: usize, h: usize) -> bool
    requires node_on { NodeOn work.now d k }
    requires hole_in { HoleIn holes.now d h }
    requires x_lt_d { x < d }
    ensures { result ≡ leb (2 * get_or (hole_at d holes.now (2 * d * h)) x 0) ((side_on work.now k x).low + (side_on work.now k x).high) }
{
    2 * coordinate(holes, d, h, x) <= side_on(work, x, k).centre()
}
