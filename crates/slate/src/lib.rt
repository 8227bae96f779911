// The slate: the lent work area as 16 columns of 2,048 two-byte cells, one column for each thing known of a node or a hole.
// All state the size of a field stands here and nowhere else, so that wiping the area leaves nothing of it.
// The area is C's, and of fixed size: so nodes are rows of columns and no boxes, and what is unknown or over is a number that a cell can hold. It is
// passed as the slice that it is: a struct that holds a `&mut` has every function ensure that it still holds the same one, which is more to read in
// each contract than `Grid`.
#![tactic(auto)]

ghost use Rattle.std.specs.Prelude.{◌≡◌, ◌^◌, ◌<◌, ◌≤◌, length, replicate};
ghost use Rattle.slate.specs.Slate.{Within, CellsWithin, WordsIn, Columned, Held, CellsHeld, Set, CellsSet, WordsCleared, Cleared};

// The columns are numbers and no enum, since LOW + 2 * x is computed. A node's first part; 65,535 for a leaf.
pub const FIRST: usize = 0;

// A node's second part; a leaf's hole.
pub const SECOND: usize = 1;

// How many holes are under a node.
pub const HOLES: usize = 2;

// The lowest-numbered hole under a node.
pub const LOWEST: usize = 3;

// How far a node reaches, in large cells and so in four columns, while pairs are listed; ranks and marks are not asked for then.
pub const REACH: usize = 4;

// The rank of the first hole under a node.
pub const FROM: usize = 4;

// The hole of a rank.
pub const ORDER: usize = 5;

// The rank of a hole.
pub const RANK: usize = 6;

// Marks, scratch and tallies: a step's own, for as long as it runs.
pub const MARKS: usize = 7;

pub const SCRATCH: usize = 8;

pub const TALLY: usize = 9;

// The longest side of a node's box, while pairs are listed; tallies are not taken then.
pub const SIDE: usize = 9;

// The low end of a node's box on axis 0; axis x has LOW + 2 * x, for up to three axes.
pub const LOW: usize = 10;

// The high end; axis x has HIGH + 2 * x.
pub const HIGH: usize = 11;

// 0 at a rank that is kept, else how many ranks to pass over: a number, since it is in a cell of lent memory. A step's own too, in the last column of
// the boxes.
pub const SKIP: usize = 15;

// What cell k of column c holds.
pub fn cell(work: &[u8], c: usize, k: usize) -> usize
    requires { Within work.now c k }
    ensures { Held work.now c k result }
{
    words::load(work, 2048 * c + k)
}

// Sets cell k of column c to v.
pub fn set_cell(work: &mut [u8], c: usize, k: usize, v: usize)
    requires within { Within work.old c k }
    requires v_bound { v < 65536 }
    ensures { Set work.old work.new c k v }
{
    words::save(work, 2048 * c + k, v);
}

// Zeroes all of the area, used or not, whatever its length.
pub fn wipe(work: &mut [u8])
    ensures { work.new ≡ replicate (length work.old) 0 }
{
    words::zero(work);
}

// Lends the area to a step, and wipes it when the step is done. The step is lent too: what it leaves in an output of its own is known after it.
pub fn lend<T, F: FnMut(&mut [u8]) -> T>(work: &mut [u8], step: &mut F) -> T
    requires { (lent : _) → lent.now ≡ work.old → F.pre step.old lent }
    ensures wiped { work.new ≡ replicate (length work.old) 0 }
    ensures said { (lent left : _) × F.step step.old lent result left step.new × (lent.now ≡ work.old) }
{
    let said = step(work);
    wipe(work);
    said
}

// Sets the n words from word i on to 0.
pub fn clear_words(work: &mut [u8], i: usize, n: usize)
    requires { WordsIn work.old i n }
    ensures { WordsCleared work.old work.new i n }
{
    words::zero(&mut work[2 * i..2 * (i + n)]);
}

// Sets the first n cells of column c to 0.
pub fn clear(work: &mut [u8], c: usize, n: usize)
    requires { Columned work.old c n }
    ensures { Cleared work.old work.new c n }
{
    clear_words(work, 2048 * c, n);
}

// What entry k from column c on holds: the number in its N cells, low cell first. A wide cell is an entry of 2, a large cell one of 4.
pub fn cells<const N: usize>(work: &[u8], c: usize, k: usize) -> usize
    requires width { N ≤ 4 }
    requires within { CellsWithin N work.now c k }
    ensures { CellsHeld N work.now c k result }
{
    let from = 2048 * c + N * k;
    let mut v = 0;
    // A loop over words: LLVM makes one load of it.
    for i in (0..N).rev() {
        v = 65536 * v + words::load(work, from + i);
    }
    v
}

// Sets entry k from column c on to v.
pub fn set_cells<const N: usize>(work: &mut [u8], c: usize, k: usize, v: usize)
    requires within { CellsWithin N work.old c k }
    requires v_bound { v < 65536 ^ N }
    ensures { CellsSet N work.old work.new c k v }
{
    let from = 2048 * c + N * k;
    let mut rest = v;
    // A loop over words: LLVM makes one store of it.
    for i in 0..N {
        words::save(work, from + i, rest % 65536);
        rest /= 65536;
    }
}
