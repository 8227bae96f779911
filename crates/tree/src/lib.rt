// Trees on the slate: loading a record's nodes with the test of their rules, summing up what is under each node, ranking the holes, and
// planting a field's tree. Only planting recurses, at most 16 cuts per coordinate deep: a tree from outside may be as deep as it has leaves,
// but its parts have higher numbers than their node.
#![tactic(auto)]

ghost use Rattle.std.specs.Prelude.{◌≡◌, ◌↔◌, ◌+◌, ◌*◌, ◌<◌, ◌≤◌, min, IsTrue};
ghost use Rattle.slate.specs.Columns.{FIRST, SECOND, MARKS, LOWEST, ORDER};
ghost use Rattle.slate.specs.Slate.{cell, Grid, Within, Columned};
ghost use Rattle.paper.specs.Record.{nodes_of};
ghost use Rattle.field.specs.Found.{Finds};
ghost use Rattle.field.specs.Boxes.{HolesIn, HoleIn, NodeOn, Boxed, box_on};
ghost use Rattle.paper.specs.Tree.{box_at, axis, first};
ghost use Rattle.tree.specs.Standing.{Stands};
ghost use Rattle.tree.specs.Nodes.{numbers, IsNode};
ghost use Rattle.tree.specs.Steps.{NodesIn, Loading, Summed, Counted, Ranked};
ghost use Rattle.tree.specs.Loading.{NodeRow, Nameable, BothNameable, NodePut, Next, LeafTried, ForkTried, NodeTried};
ghost use Rattle.tree.specs.Summing.{SumsPut, LeafFilled, PartsAbove, ForkFilled, Summable, NodeSummed};
ghost use Rattle.tree.specs.Ranking.{LeafReady, LeafRanked, ForkReady, ForkRanked, NodeReady, NodeRanked};
ghost use Rattle.paper.specs.Field.{holes_at};
ghost use Rattle.tree.specs.Planting.{StretchOn, PartReady, Parted, CutInTwo, Plantable, Forked, Planted, FieldIn, Numbered, Grown, stretch};
ghost use Rattle.tree.specs.Parting.{Sifted, TakenBack};

// The first number of a leaf, which is no node's.
const LEAF: usize = 65535;

// A node: a leaf has a hole, and any other node two parts.
#[derive(Clone, Copy)]
pub enum Node {
    Leaf(usize),
    Fork(usize, usize),
}

// A node by the two numbers that a record or the slate has for it.
impl From<(usize, usize)> for Node {
    ghost from_gives = { λ two r. IsNode two.0 two.1 r };

    fn from(two: (usize, usize)) -> Node {
        match two {
            (LEAF, hole) => Node::Leaf(hole),
            (one, two) => Node::Fork(one, two),
        }
    }
}

// A node's two numbers.
impl From<Node> for (usize, usize) {
    ghost from_gives = { λ node r. r ≡ numbers node };

    fn from(node: Node) -> (usize, usize) {
        match node {
            Node::Leaf(hole) => (LEAF, hole),
            Node::Fork(one, two) => (one, two),
        }
    }
}

// Node k of the tree on the slate.
pub fn node_at(work: &[u8], k: usize) -> Node
    requires { Grid work.now × (k < 2048) }
    ensures { IsNode (cell work.now FIRST k) (cell work.now SECOND k) result }
{
    Node::from((
        slate::cell(work, slate::FIRST, k),
        slate::cell(work, slate::SECOND, k),
    ))
}

// Puts node k on the slate.
fn put_node(work: &mut [u8], k: usize, node: Node)
    requires { Grid work.old × (k < 2048) × ((numbers node).0 < 65536) × ((numbers node).1 < 65536) }
    ensures { NodePut work.old work.new k (numbers node).0 (numbers node).1 }
{
    let (one, two) = node.into();
    slate::set_cell(work, slate::FIRST, k, one);
    slate::set_cell(work, slate::SECOND, k, two);
}

// Puts a record's nodes on the slate, one by one, up to the least that breaks its rule. MARKS tells the nodes that are named, SCRATCH
// the holes that are held. n stands beside the list, which may go on after it. NodeRow and Stands are asked in each call: they relate the lent slate with
// numbers.
pub fn load(work: &mut [u8], nodes: &[u8], n: usize) -> Option<usize>
    requires { NodesIn work.old nodes.now n }
    ensures { Loading nodes.now n work.old work.new result }
{
    let count = 2 * n - 1;
    slate::clear(work, slate::MARKS, count);
    slate::clear(work, slate::SCRATCH, n);
    for k in 0..count {
        if !load_node(work, nodes, n, k) {
            return Some(k);
        }
    }
    None
}

// Takes node k of a record, where it meets its rule.
fn load_node(work: &mut [u8], nodes: &[u8], n: usize, k: usize) -> bool
    requires { Next nodes.now n k work.old }
    ensures { NodeTried nodes.now n k work.old work.new result }
{
    match Node::from(paper::two_numbers_at(nodes, 4 * k)) {
        Node::Leaf(hole) => load_leaf(work, n, k, hole),
        Node::Fork(one, two) => load_fork(work, n, k, one, two),
    }
}

// Takes a leaf that names the hole h, where h is below n and no leaf names it yet.
fn load_leaf(work: &mut [u8], n: usize, k: usize, h: usize) -> bool
    requires { NodeRow work.old n k }
    ensures { LeafTried n k h work.old work.new result }
{
    if n <= h || slate::cell(work, slate::SCRATCH, h) != 0 {
        return false;
    }
    slate::set_cell(work, slate::SCRATCH, h, 1);
    put_node(work, k, Node::Leaf(h));
    true
}

// Takes a node that names two nodes, where it may name both.
fn load_fork(work: &mut [u8], n: usize, k: usize, one: usize, two: usize) -> bool
    requires { NodeRow work.old n k }
    ensures { ForkTried n k one two work.old work.new result }
{
    if !may_name_both(work, n, k, one, two) {
        return false;
    }
    slate::set_cell(work, slate::MARKS, one, 1);
    slate::set_cell(work, slate::MARKS, two, 1);
    put_node(work, k, Node::Fork(one, two));
    true
}

// Whether node k may name one and two: they are different, and it may name each.
fn may_name_both(work: &[u8], n: usize, k: usize, one: usize, two: usize) -> bool
    requires { NodeRow work.now n k }
    ensures { IsTrue result ↔ BothNameable work.now n k one two }
{
    one != two && may_name(work, n, k, one) && may_name(work, n, k, two)
}

// Whether node k may name c. That c is above k and a node is tested before its mark is looked at.
fn may_name(work: &[u8], n: usize, k: usize, c: usize) -> bool
    requires { NodeRow work.now n k }
    ensures { IsTrue result ↔ Nameable work.now n k c }
{
    k < c && c < 2 * n - 1 && slate::cell(work, slate::MARKS, c) == 0
}

// The least node above 0 that no node names, by the marks.
pub fn loose(work: &[u8], n: usize) -> Option<usize>
    requires grid { Grid work.now }
    requires le_n { (1 ≤ n) × (n ≤ 1024) }
    ensures { Finds (λ k. (0 < k) × (cell work.now MARKS k ≡ 0)) (nodes_of n) result }
{
    (1..2 * n - 1).find(|&k| slate::cell(work, slate::MARKS, k) == 0)
}

// How many holes are under each node, the lowest of them and their box, from the last node down to the root.
pub fn sum_up(work: &mut [u8], holes: &[u8], d: usize, n: usize)
    requires stands { Stands work.old n }
    requires holes_in { HolesIn holes.now d n }
    ensures { Summed holes.now d n work.old work.new }
{
    for k in (0..2 * n - 1).rev() {
        sum_node(work, holes, d, k);
    }
}

// One node, whose parts are summed up already.
fn sum_node(work: &mut [u8], holes: &[u8], d: usize, k: usize)
    requires { Summable work.old holes.now d k }
    ensures { NodeSummed holes.now d k work.old work.new }
{
    match node_at(work, k) {
        Node::Leaf(hole) => sum_leaf(work, holes, d, k, hole),
        Node::Fork(one, two) => sum_fork(work, d, k, one, two),
    }
}

// A leaf has one hole, h.
fn sum_leaf(work: &mut [u8], holes: &[u8], d: usize, k: usize, h: usize)
    requires node_on { NodeOn work.old d k }
    requires hole_in { HoleIn holes.now d h }
    ensures { LeafFilled holes.now d k h work.old work.new }
{
    put_sums(work, k, 1, h);
    field::set_point(work, holes, d, k, h);
}

// Any other node has the holes of its parts, nodes i and j.
fn sum_fork(work: &mut [u8], d: usize, k: usize, i: usize, j: usize)
    requires node_on { NodeOn work.old d k }
    requires parts_above { PartsAbove work.old k i j }
    ensures { ForkFilled d k i j work.old work.new }
{
    let m = slate::cell(work, slate::HOLES, i) + slate::cell(work, slate::HOLES, j);
    let l = lowest_of(work, i, j);
    put_sums(work, k, m, l);
    field::set_around(work, d, k, i, j);
}

// The lowest hole under node i or node j.
fn lowest_of(work: &[u8], i: usize, j: usize) -> usize
    requires within { Within work.now LOWEST i }
    requires within_2 { Within work.now LOWEST j }
    ensures { (result ≡ min (cell work.now LOWEST i) (cell work.now LOWEST j)) × (result < 65536) }
{
    slate::cell(work, slate::LOWEST, i).min(slate::cell(work, slate::LOWEST, j))
}

// Node k has m holes, the lowest of them l.
fn put_sums(work: &mut [u8], k: usize, m: usize, l: usize)
    requires within { Within work.old LOWEST k }
    requires m_bound { (m < 65536) × (l < 65536) }
    ensures { SumsPut work.old work.new k m l }
{
    slate::set_cell(work, slate::HOLES, k, m);
    slate::set_cell(work, slate::LOWEST, k, l);
}

// The holes in the order in which they are under the root, each node's stretch of it, and each hole's rank, from the root down.
pub fn rank(work: &mut [u8], n: usize)
    requires stands { Stands work.old n }
    requires counted { Counted work.old n }
    ensures { Ranked n work.old work.new }
{
    slate::set_cell(work, slate::FROM, 0, 0);
    for k in 0..2 * n - 1 {
        rank_node(work, k);
    }
}

// One node, whose own FROM is set already.
fn rank_node(work: &mut [u8], k: usize)
    requires { NodeReady work.old k }
    ensures { NodeRanked work.old work.new k }
{
    match node_at(work, k) {
        Node::Leaf(hole) => rank_leaf(work, k, hole),
        Node::Fork(one, two) => rank_fork(work, k, one, two),
    }
}

// A leaf's hole has the leaf's place in the order.
fn rank_leaf(work: &mut [u8], k: usize, hole: usize)
    requires { LeafReady work.old k hole }
    ensures { LeafRanked work.old work.new k hole }
{
    let from = slate::cell(work, slate::FROM, k);
    slate::set_cell(work, slate::ORDER, from, hole);
    slate::set_cell(work, slate::RANK, hole, from);
}

// The first part starts where its node does, and the second where the first ends.
fn rank_fork(work: &mut [u8], k: usize, one: usize, two: usize)
    requires { ForkReady work.old k one two }
    ensures { ForkRanked work.old work.new k one two }
{
    let from = slate::cell(work, slate::FROM, k);
    let holes = slate::cell(work, slate::HOLES, one);
    slate::set_cell(work, slate::FROM, one, from);
    slate::set_cell(work, slate::FROM, two, from + holes);
}

// A stretch of ORDER, which is a set of holes: where it starts and how many holes it has. It is not record's Place: that is bytes of a record, this is
// ranks.
#[derive(Clone, Copy)]
struct Stretch {
    from: usize,
    size: usize,
}

// Cuts the field into its tree: a node, then all of its first part, then all of its second.
pub fn plant(work: &mut [u8], holes: &[u8], d: usize, n: usize)
    requires grid { Grid work.old }
    requires field_in { FieldIn holes.now d n }
    ensures { Grown (holes_at d holes.now 0 n) n work.old work.new }
{
    number_holes(work, n);
    plant_from(work, holes, d, n, Stretch { from: 0, size: n }, 0);
}

// Plants the holes of a stretch as node k and those after it. A set of one hole is a leaf.
fn plant_from(work: &mut [u8], holes: &[u8], d: usize, n: usize, s: Stretch, k: usize)
    requires { Plantable work.old holes.now d n s.from s.size k }
    ensures { Planted (holes_at d holes.now 0 n) s.from s.size k work.old work.new }
{
    if s.size == 1 {
        let hole = slate::cell(work, slate::ORDER, s.from);
        put_node(work, k, Node::Leaf(hole));
        return;
    }
    let f = plant_fork(work, holes, d, n, s, k);
    plant_from(
        work,
        holes,
        d,
        n,
        Stretch {
            from: s.from,
            size: f,
        },
        k + 1,
    );
    plant_from(
        work,
        holes,
        d,
        n,
        Stretch {
            from: s.from + f,
            size: s.size - f,
        },
        k + 2 * f,
    );
}

// Puts the numbers of the holes in ORDER, from 0 on.
fn number_holes(work: &mut [u8], n: usize)
    requires { Columned work.old ORDER n }
    ensures { Numbered n work.old work.new }
{
    for i in 0..n {
        slate::set_cell(work, slate::ORDER, i, i);
    }
}

// Cuts a stretch of two or more holes in two and puts its node k, which names the roots of the parts. Gives how many holes the first has.
fn plant_fork(work: &mut [u8], holes: &[u8], d: usize, n: usize, s: Stretch, k: usize) -> usize
    requires plantable { Plantable work.old holes.now d n s.from s.size k }
    requires many { 2 ≤ s.size }
    ensures { Forked (holes_at d holes.now 0 n) s.from s.size k work.old work.new result }
{
    let f = cut_in_two(work, holes, d, n, s, k);
    put_node(work, k, Node::Fork(k + 1, k + 2 * f));
    f
}

// Cuts a stretch in two and gives how many holes the first part has. Node k's box serves to hold the stretch's.
fn cut_in_two(work: &mut [u8], holes: &[u8], d: usize, n: usize, s: Stretch, k: usize) -> usize
    requires stretch_on { StretchOn work.old holes.now d n s.from s.size }
    requires k_bound { k < 2048 }
    ensures { CutInTwo (holes_at d holes.now 0 n) s.from s.size work.old work.new result }
{
    box_of(work, holes, d, n, s, k);
    part(work, holes, d, n, s, k)
}

// Node k's box is that of the stretch.
fn box_of(work: &mut [u8], holes: &[u8], d: usize, n: usize, s: Stretch, k: usize)
    requires stretch_on { StretchOn work.old holes.now d n s.from s.size }
    requires k_bound { k < 2048 }
    ensures { Boxed work.old work.new d k (box_at (holes_at d holes.now 0 n) (stretch work.old s.from s.size)) }
{
    let first = slate::cell(work, slate::ORDER, s.from);
    field::set_point(work, holes, d, k, first);
    for i in 1..s.size {
        let hole = slate::cell(work, slate::ORDER, s.from + i);
        field::set_beside(work, holes, d, k, hole);
    }
}

// Puts the first part of a stretch in front, in its order, and the second after it; gives how many holes the first has. SCRATCH holds the second
// on the way.
fn part(work: &mut [u8], holes: &[u8], d: usize, n: usize, s: Stretch, k: usize) -> usize
    requires { PartReady work.old holes.now d n s.from s.size k }
    ensures { Parted (holes_at d holes.now 0 n) s.from s.size work.old work.new result }
{
    let x = field::cut_axis(work, d, k);
    let f = sift(work, holes, d, n, s, k, x);
    take_back(
        work,
        Stretch {
            from: s.from + f,
            size: s.size - f,
        },
    );
    f
}

// Puts the holes of a stretch that go first in front, and the others in SCRATCH, each in their order; gives how many go first.
fn sift(work: &mut [u8], holes: &[u8], d: usize, n: usize, s: Stretch, k: usize, x: usize) -> usize
    requires part_ready { PartReady work.old holes.now d n s.from s.size k }
    requires x_value { (x ≡ axis (box_on work.old d k)) × (x < d) }
    ensures { Sifted (first (holes_at d holes.now 0 n) (stretch work.old s.from s.size)) s.from s.size work.old work.new result }
{
    let mut f = 0;
    for i in 0..s.size {
        let hole = slate::cell(work, slate::ORDER, s.from + i);
        if field::goes_first(work, holes, d, k, x, hole) {
            slate::set_cell(work, slate::ORDER, s.from + f, hole);
            f += 1;
        } else {
            slate::set_cell(work, slate::SCRATCH, i - f, hole);
        }
    }
    f
}

// Puts the first holes of SCRATCH into a stretch. A copy within the slate's bytes would be one more function of slate for this one caller.
fn take_back(work: &mut [u8], s: Stretch)
    requires grid { Grid work.old }
    requires fits { s.from + s.size ≤ 2048 }
    ensures { TakenBack s.from s.size work.old work.new }
{
    for i in 0..s.size {
        let hole = slate::cell(work, slate::SCRATCH, i);
        slate::set_cell(work, slate::ORDER, s.from + i, hole);
    }
}
