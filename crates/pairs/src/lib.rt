// Pairs: listing those of a tree, and the test that each pair of a record is separated.
#![tactic(auto)]

ghost use Rattle.std.specs.Prelude.{◌≡◌, ◌↔◌, [], ◌∷◌, ◌+◌, ◌*◌, ◌<◌, ◌≤◌, IsTrue, false};
ghost use Rattle.slate.specs.Slate.{Grid};
ghost use Rattle.paper.specs.Record.{two_numbers_at};
ghost use Rattle.field.specs.Found.{Finds};
ghost use Rattle.paper.specs.Separation.{separated};
ghost use Rattle.field.specs.Boxes.{Axes, NodeOn, box_on};
ghost use Rattle.pairs.specs.Checking.{PairsIn, PairIn, PairOn};
ghost use Rattle.pairs.specs.Listing.{Boxes, ShapePut, ShapesPut, Listable, Listed, pairs_on};
ghost use Rattle.pairs.specs.Comparing.{Laid, Faces, Halves, Comparing, compared_on, NodeListing, node_pairs};

use field::Ratio;
use tree::Node;

// The least of m pairs that does not name two separated nodes of a tree of n holes. The list may go on after them, as lists may wherever a count stands
// beside one.
pub fn check_pairs(
    work: &[u8],
    pairs: &[u8],
    d: usize,
    ratio: Ratio,
    n: usize,
    m: usize,
) -> Option<usize>
    requires pairs_in { PairsIn work.now pairs.now n m }
    requires axes { Axes d }
    ensures { Finds (λ k. PairOn work.now d ratio.a ratio.b n (two_numbers_at pairs.now (4 * k)) → ⊥) m result }
{
    (0..m).find(|&k| !check_pair(work, pairs, d, ratio, n, k))
}

// Whether pair k names two separated nodes.
fn check_pair(work: &[u8], pairs: &[u8], d: usize, ratio: Ratio, n: usize, k: usize) -> bool
    requires pair_in { PairIn work.now pairs.now n k }
    requires axes { Axes d }
    ensures { IsTrue result ↔ PairOn work.now d ratio.a ratio.b n (two_numbers_at pairs.now (4 * k)) }
{
    let (p, q) = paper::two_numbers_at(pairs, 4 * k);
    let count = 2 * n - 1;
    p < count && q < count && field::is_separated(work, d, ratio, p, q)
}

// Writes a pair of numbers at a place of the output, where it fits, and gives the place after it.
fn put_pair(out: &mut [u8], at: usize, pair: (usize, usize)) -> usize
    requires { at + 4 ≤ 1099511627776 }
    ensures { Laid (pair ∷ []) at out.old out.new result }
{
    let next = at + 4;
    if out.len() < next {
        return next;
    }
    paper::put_two_numbers(out, at, pair);
    next
}

// Writes what comparisons ask of each node of a tree of n holes, again and again: its longest side and its reach.
pub fn put_shapes(work: &mut [u8], d: usize, ratio: Ratio, n: usize)
    requires { Boxes work.old d n }
    ensures { ShapesPut d ratio.a ratio.b n work.old work.new }
{
    for k in 0..2 * n - 1 {
        put_shape(work, d, ratio, k);
    }
}

// The same of node k.
fn put_shape(work: &mut [u8], d: usize, ratio: Ratio, k: usize)
    requires { NodeOn work.old d k }
    ensures { ShapePut d ratio.a ratio.b k work.old work.new }
{
    let side = field::longest_side(work, d, k);
    let reach = field::reach(work, d, ratio, k);
    slate::set_cell(work, slate::SIDE, k, side);
    slate::set_cells::<4>(work, slate::REACH, k, reach);
}

// Whether nodes i and j, which face each other, are separated: neither reaches further than D. The slate, the axes, the ratio and the hole count go on
// together from here: a struct of them would hold the lent slate.
fn apart(work: &[u8], d: usize, ratio: Ratio, n: usize, i: usize, j: usize) -> bool
    requires { Faces work.now d ratio.a ratio.b n i j }
    ensures { result ≡ separated ratio.a ratio.b (box_on work.now d i) (box_on work.now d j) }
{
    let far = field::distance(work, d, i, j);
    slate::cells::<4>(work, slate::REACH, i) <= far
        && slate::cells::<4>(work, slate::REACH, j) <= far
}

// The two comparisons that take the place of that of two nodes: the node with the longer side is split, the second on a tie, and each part is
// compared with the other node.
fn halves(work: &[u8], pair: (usize, usize)) -> ((usize, usize), (usize, usize))
    requires { Grid work.now × (pair.0 < 2048) × (pair.1 < 2048) }
    ensures { Halves work.now pair.0 pair.1 result }
{
    let (i, j) = pair;
    if slate::cell(work, slate::SIDE, j) < slate::cell(work, slate::SIDE, i) {
        (
            (slate::cell(work, slate::FIRST, i), j),
            (slate::cell(work, slate::SECOND, i), j),
        )
    } else {
        (
            (i, slate::cell(work, slate::FIRST, j)),
            (i, slate::cell(work, slate::SECOND, j)),
        )
    }
}

// Compares two nodes, and gives the place after the pairs that come of it.
#[cycle(compare_split)]
fn compare(
    work: &[u8],
    out: &mut [u8],
    d: usize,
    ratio: Ratio,
    n: usize,
    pair: (usize, usize),
    at: usize,
) -> usize
    requires { Comparing work.now d ratio.a ratio.b n pair.0 pair.1 at }
    ensures { Laid (compared_on work.now d ratio.a ratio.b n pair.0 pair.1) at out.old out.new result }
{
    if apart(work, d, ratio, n, pair.0, pair.1) {
        put_pair(out, at, pair)
    } else {
        split(work, out, d, ratio, n, pair, at)
    }
}

// The same of two nodes that are not separated: one of them is split, and each of its parts is compared with the other node.
#[cycle(compare_split)]
fn split(
    work: &[u8],
    out: &mut [u8],
    d: usize,
    ratio: Ratio,
    n: usize,
    pair: (usize, usize),
    at: usize,
) -> usize
    requires comparing { Comparing work.now d ratio.a ratio.b n pair.0 pair.1 at }
    requires near { separated ratio.a ratio.b (box_on work.now d pair.0) (box_on work.now d pair.1) ≡ false }
    ensures { Laid (compared_on work.now d ratio.a ratio.b n pair.0 pair.1) at out.old out.new result }
{
    let (one, two) = halves(work, pair);
    let middle = compare(work, out, d, ratio, n, one, at);
    compare(work, out, d, ratio, n, two, middle)
}

// Compares the two parts of node k; a leaf has none.
fn list_node(
    work: &[u8],
    out: &mut [u8],
    d: usize,
    ratio: Ratio,
    n: usize,
    k: usize,
    at: usize,
) -> usize
    requires { NodeListing work.now d ratio.a ratio.b n k at }
    ensures { Laid (node_pairs work.now d ratio.a ratio.b n k) at out.old out.new result }
{
    match tree::node_at(work, k) {
        Node::Leaf(_) => at,
        Node::Fork(one, two) => compare(work, out, d, ratio, n, (one, two), at),
    }
}

// Lists the pairs of the tree on the slate from the place start of the output on, each where it fits, and gives the place after the last: an empty
// output counts them.
pub fn list_pairs(
    work: &[u8],
    out: &mut [u8],
    d: usize,
    ratio: Ratio,
    n: usize,
    start: usize,
) -> usize
    requires listable { Listable work.now d ratio.a ratio.b n }
    requires start_bound { start ≤ 1048576 }
    ensures { Listed (pairs_on work.now d ratio.a ratio.b n) start out.old out.new result }
{
    let mut at = start;
    for k in 0..2 * n - 1 {
        at = list_node(work, out, d, ratio, n, k, at);
    }
    at
}
