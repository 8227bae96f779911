// The covering: the least two holes that are not covered by exactly one pair of a record.
// A filter passes over the holes that are covered exactly once with every other; any other hole costs at most m + n steps, whatever the record says.
// The list and its two counts stand beside the slate in each call, since `Ready` is a fact of all four, and the slate is lent.
#![tactic(auto)]

ghost use Rattle.std.specs.Prelude.{◌≡◌, ◌&&◌, ◌+◌, ◌-◌, ◌*◌, ◌^◌, ◌<◌, ◌≤◌, leb, ltb, min, max};
ghost use Rattle.cover.specs.Spans.{Ready, Covering};
ghost use Rattle.cover.specs.Rows.{pair_at, meeting, Open, SpanOn, SpanOf, SpansOf, PairSpans, Counting, OneMore, Ranks, Emptied};
ghost use Rattle.cover.specs.Rows.{Uncounted, Tallying, Tallied, Spreading, Opening, Counted, Spread, Row};
ghost use Rattle.cover.specs.Bits.{between};
ghost use Rattle.cover.specs.Marks.{row_at, BitsIn, BitsSet, BitsFull, RunIn, RunSet, RunFull, RowIn, RowsIn, RanksIn, BlockIn};
ghost use Rattle.cover.specs.Marks.{Marked, RowsMarked, Gone, Passed, Advanced, PairMarking, PairsMarking};
ghost use Rattle.cover.specs.Marks.{crossing, by_pair, by_pairs, Block, Blank, Judging, JudgingAll, Judged, Sifted, Goods};

// A stretch of ranks, or of bits: from `from` up to, not including, `end`.
#[derive(Clone, Copy)]
struct Span {
    from: usize,
    end: usize,
}

impl Span {
    // Whether x is in it.
    fn contains(self, x: usize) -> bool
        ensures { result ≡ (leb self.from x && ltb x self.end) }
    {
        self.from <= x && x < self.end
    }

    // What it and another have in common.
    fn meet(self, other: Span) -> Span
        ensures from { result.from ≡ max self.from other.from }
        ensures end { result.end ≡ min self.end other.end }
    {
        Span {
            from: self.from.max(other.from),
            end: self.end.min(other.end),
        }
    }
}

// The span of node k: the ranks of the holes under it.
fn span_of(work: &[u8], k: usize) -> Span
    requires { SpanOn work.now k }
    ensures { SpanOf work.now k result.from result.end }
{
    let from = slate::cell(work, slate::FROM, k);
    Span {
        from,
        end: from + slate::cell(work, slate::HOLES, k),
    }
}

// The spans of the two nodes of pair k.
fn spans_of(work: &[u8], pairs: &[u8], k: usize) -> (Span, Span)
    requires { PairSpans work.now pairs.now k }
    ensures { SpansOf work.now pairs.now k result.0.from result.0.end result.1.from result.1.end }
{
    let (p, q) = paper::two_numbers_at(pairs, 4 * k);
    (span_of(work, p), span_of(work, q))
}

// Sets the counts of all n ranks to 0.
fn empty_counts(work: &mut [u8], n: usize)
    requires { Ranks work.old n }
    ensures { Emptied n work.old work.new }
{
    slate::clear(work, slate::MARKS, 2 * n);
    slate::clear(work, slate::TALLY, 2 * n);
}

// Counts one more in wide cell k of column c, where k is below n.
fn count_one(work: &mut [u8], c: usize, n: usize, k: usize)
    requires { Counting work.old c n }
    ensures { OneMore c n k work.old work.new }
{
    if k < n {
        let v = slate::cells::<2>(work, c, k);
        slate::set_cells::<2>(work, c, k, v + 1);
    }
}

// Counts a span once more: in MARKS where it starts, and in TALLY where it ends.
fn tally_span(work: &mut [u8], n: usize, span: Span)
    requires tallying { Tallying work.old n }
    requires order { span.from ≤ span.end }
    ensures { Tallied n 1 (between span.from span.end) work.old work.new }
{
    count_one(work, slate::MARKS, n, span.from);
    count_one(work, slate::TALLY, n, span.end);
}

// Counts what pair k covers with rank x: where x is in one node's span, the span of the other node.
fn tally_pair(work: &mut [u8], pairs: &[u8], n: usize, k: usize, x: usize)
    requires pair_spans { PairSpans work.old pairs.now k }
    requires tallying { Tallying work.old n }
    ensures { Tallied n 1 (meeting work.old x (pair_at pairs.now k)) work.old work.new }
{
    let (first, second) = spans_of(work, pairs, k);
    if first.contains(x) {
        tally_span(work, n, second);
    } else if second.contains(x) {
        tally_span(work, n, first);
    }
}

// Counts what every pair covers with rank x.
fn tally_pairs(work: &mut [u8], pairs: &[u8], n: usize, m: usize, x: usize)
    requires ready { Ready work.old pairs.now n m }
    requires uncounted { Uncounted work.old n }
    ensures { Counted pairs.now n m x work.old work.new }
{
    for k in 0..m {
        tally_pair(work, pairs, n, k, x);
    }
}

// How many spans are open at rank r, where `running` are at the rank before it.
#[tactic(auto, using(crate::proofs::RowLaws::upto_more))]
fn open_at(work: &[u8], r: usize, running: usize) -> usize
    requires { Opening work.now r running }
    ensures { Open work.now (r + 1) result }
{
    running + slate::cells::<2>(work, slate::MARKS, r) - slate::cells::<2>(work, slate::TALLY, r)
}

// Sets SCRATCH at each rank to the number of spans that are open there, two standing for more.
fn spread(work: &mut [u8], n: usize)
    requires { Spreading work.old n }
    ensures { Spread n work.old work.new }
{
    let mut running = 0;
    for r in 0..n {
        running = open_at(work, r, running);
        slate::set_cell(work, slate::SCRATCH, r, running.min(2));
    }
}

// Sets SCRATCH at the rank of each hole to the number of pairs that cover it and hole i, two standing for more.
fn row(work: &mut [u8], pairs: &[u8], n: usize, m: usize, i: usize)
    requires ready { Ready work.old pairs.now n m }
    requires i_lt_n { i < n }
    ensures { Row pairs.now n m i work.old work.new }
{
    empty_counts(work, n);
    let x = slate::cell(work, slate::RANK, i);
    tally_pairs(work, pairs, n, m, x);
    spread(work, n);
}

// The number whose bits are those of a stretch.
fn mask(bits: Span) -> usize
    requires { (bits.from ≤ bits.end) × (bits.end ≤ 16) }
    ensures { result ≡ 2 ^ bits.end - 2 ^ bits.from }
{
    (1 << bits.end) - (1 << bits.from)
}

// Sets a stretch of the bits of word i; false, and sets none, where one is set already.
#[tactic(auto, using(crate::proofs::BitLaws::set_bits, crate::proofs::BitLaws::set_small))]
fn set_bits(work: &mut [u8], i: usize, bits: Span) -> bool
    requires { BitsIn work.old i bits.from bits.end }
    ensures { BitsSet i bits.from bits.end work.old work.new result }
{
    let ones = mask(bits);
    let v = words::load(work, i);
    if v & ones != 0 {
        return false;
    }
    words::save(work, i, v + ones);
    true
}

// Whether a stretch of the bits of word i are all set.
#[tactic(auto, using(crate::proofs::BitLaws::full_bits))]
fn has_bits(work: &[u8], i: usize, bits: Span) -> bool
    requires { BitsIn work.now i bits.from bits.end }
    ensures { BitsFull work.now i bits.from bits.end result }
{
    let ones = mask(bits);
    words::load(work, i) & ones == ones
}

// The part of a run of bits of a row that is in the row's word i, as bits of that word.
fn bits_in(run: Span, i: usize) -> Span
    requires { 16 * i ≤ run.end }
    ensures from { result.from ≡ run.from - 16 * i }
    ensures end { result.end ≡ min (run.end - 16 * i) 16 }
{
    let from = run.from.saturating_sub(16 * i);
    let end = (run.end - 16 * i).min(16);
    Span { from, end }
}

// Sets a run of the bits of the row at `at`, word by word; false where one is set already.
fn set_run(work: &mut [u8], at: usize, run: Span) -> bool
    requires { RunIn work.old at run.from run.end }
    ensures { RunSet at run.from run.end work.old work.new result }
{
    // A `for` and no `all`: each turn changes the slate, and the loop's invariant says what is on it between two turns.
    for i in run.from / 16..run.end.div_ceil(16) {
        if !set_bits(work, at + i, bits_in(run, i)) {
            return false;
        }
    }
    true
}

// Whether a run of the bits of the row at `at` are all set.
fn has_run(work: &[u8], at: usize, run: Span) -> bool
    requires { RunIn work.now at run.from run.end }
    ensures { RunFull work.now at run.from run.end result }
{
    (run.from / 16..run.end.div_ceil(16)).all(|i| has_bits(work, at + i, bits_in(run, i)))
}

// The first word of the row of rank x, in the block whose first rank is start.
fn row_at(start: usize, x: usize) -> usize
    requires { (start ≤ x) × (x < start + 256) }
    ensures { result ≡ row_at start x }
{
    2048 * slate::MARKS + 64 * (x - start)
}

// Marks columns in the row of rank x, and gives the row up where one is marked already.
fn mark_row(work: &mut [u8], start: usize, x: usize, columns: Span)
    requires { RowIn work.old start x columns.from columns.end }
    ensures { RowsMarked start x (x + 1) (between columns.from columns.end) work.old work.new }
{
    if !set_run(work, row_at(start, x), columns) {
        slate::set_cell(work, slate::SKIP, x, 1);
    }
}

// The first of a stretch of ranks whose row is kept, else its end.
fn next_kept(work: &[u8], ranks: Span) -> usize
    requires { RanksIn work.now ranks.from ranks.end }
    ensures { Gone work.now ranks.from ranks.end result }
{
    // A `while`: it goes on by as many ranks as the cell says.
    let mut x = ranks.from;
    while x < ranks.end {
        let s = slate::cell(work, slate::SKIP, x);
        if s == 0 {
            return x;
        }
        x += s;
    }
    ranks.end
}

// The same, and notes at the first how many rows are passed over, so that the next time it takes one step.
fn pass(work: &mut [u8], ranks: Span) -> usize
    requires { RanksIn work.old ranks.from ranks.end }
    ensures { Passed ranks.from ranks.end work.old work.new result }
{
    let x = next_kept(work, ranks);
    let passed = x - ranks.from;
    if slate::cell(work, slate::SKIP, ranks.from) < passed {
        slate::set_cell(work, slate::SKIP, ranks.from, passed);
    }
    x
}

// Marks columns in the next row that is kept of a stretch of ranks, and gives the rank after it.
fn mark_next(work: &mut [u8], start: usize, ranks: Span, columns: Span) -> usize
    requires { RowsIn work.old start ranks.from ranks.end columns.from columns.end }
    ensures { Advanced start ranks.from ranks.end columns.from columns.end work.old work.new result }
{
    let x = pass(work, ranks);
    if ranks.end <= x {
        return x;
    }
    mark_row(work, start, x, columns);
    x + 1
}

// Marks columns in those rows of a stretch of ranks that the block has.
fn mark_rows(work: &mut [u8], block: Span, ranks: Span, columns: Span)
    requires { BlockIn work.old block.from block.end columns.from columns.end }
    ensures { Marked block.from block.end (crossing ranks.from ranks.end columns.from columns.end) work.old work.new }
{
    // A `while`: rows that are given up are passed over at once.
    let mut left = ranks.meet(block);
    while left.from < left.end {
        left.from = mark_next(work, block.from, left, columns);
    }
}

// Marks what pair k covers: in the rows of each node's span the span of the other.
fn mark_pair(work: &mut [u8], pairs: &[u8], block: Span, k: usize)
    requires { PairMarking work.old pairs.now block.from block.end k }
    ensures { Marked block.from block.end (by_pair work.old pairs.now k) work.old work.new }
{
    let (first, second) = spans_of(work, pairs, k);
    mark_rows(work, block, first, second);
    mark_rows(work, block, second, first);
}

// Marks what every pair covers.
fn mark_pairs(work: &mut [u8], pairs: &[u8], m: usize, block: Span)
    requires { PairsMarking work.old pairs.now m block.from block.end }
    ensures { Marked block.from block.end (by_pairs work.old pairs.now m) work.old work.new }
{
    for k in 0..m {
        mark_pair(work, pairs, block, k);
    }
}

// Gives the row of rank x up unless it is marked at each of the n ranks but x.
fn judge_row(work: &mut [u8], n: usize, start: usize, x: usize)
    requires { Judging work.old n start x }
    ensures { Judged n start x (x + 1) work.old work.new }
{
    let at = row_at(start, x);
    let below = Span { from: 0, end: x };
    let above = Span {
        from: x + 1,
        end: n,
    };
    if !(has_run(work, at, below) && has_run(work, at, above)) {
        slate::set_cell(work, slate::SKIP, x, 1);
    }
}

// The same for each rank of a block.
fn judge_rows(work: &mut [u8], n: usize, block: Span)
    requires { JudgingAll work.old n block.from block.end }
    ensures { Judged n block.from block.from block.end work.old work.new }
{
    for x in block.from..block.end {
        judge_row(work, n, block.from, x);
    }
}

// Every row of a block is kept, and nothing is marked in it.
fn empty_rows(work: &mut [u8], block: Span)
    requires { Block work.old block.from block.end }
    ensures { Blank block.from block.end work.old work.new }
{
    let rows = block.end - block.from;
    slate::clear_words(work, 2048 * slate::MARKS, 64 * rows);
    slate::clear_words(work, 2048 * slate::SKIP + block.from, rows);
}

// Keeps of a block only ranks whose hole is covered exactly once with every other hole.
fn sift_block(work: &mut [u8], pairs: &[u8], n: usize, m: usize, block: Span)
    requires ready { Ready work.old pairs.now n m }
    requires judging_all { JudgingAll work.old n block.from block.end }
    ensures { Sifted pairs.now n m block.from block.end work.old work.new }
{
    empty_rows(work, block);
    mark_pairs(work, pairs, m, block);
    judge_rows(work, n, block);
}

// The same for all n ranks, the last block first.
fn sift(work: &mut [u8], pairs: &[u8], n: usize, m: usize)
    requires { Ready work.old pairs.now n m }
    ensures { Sifted pairs.now n m 0 n work.old work.new }
{
    for b in (0..n.div_ceil(256)).rev() {
        let from = 256 * b;
        let end = n.min(from + 256);
        sift_block(work, pairs, n, m, Span { from, end });
    }
}

// The least two of n holes, by the first and then by the second, that are not covered exactly once: the search stops for good at the first two that
// it comes to. A hole whose rank is kept is passed over, and SCRATCH says for the rank of each other hole how often it is covered.
fn least_two(work: &mut [u8], pairs: &[u8], n: usize, m: usize) -> Option<(usize, usize)>
    requires ready { Ready work.old pairs.now n m }
    requires goods { Goods work.old pairs.now n m }
    ensures { Covering pairs.now n m work.old work.new result }
{
    let mut found = None;
    'search: for i in 0..n {
        let x = slate::cell(work, slate::RANK, i);
        if slate::cell(work, slate::SKIP, x) == 0 {
            continue;
        }
        row(work, pairs, n, m, i);
        for j in i + 1..n {
            let r = slate::cell(work, slate::RANK, j);
            if slate::cell(work, slate::SCRATCH, r) != 1 {
                found = Some((i, j));
                break 'search;
            }
        }
    }
    found
}

// The least two of n holes that are not covered exactly once.
pub fn uncovered(work: &mut [u8], pairs: &[u8], n: usize, m: usize) -> Option<(usize, usize)>
    requires { Ready work.old pairs.now n m }
    ensures { Covering pairs.now n m work.old work.new result }
{
    sift(work, pairs, n, m);
    least_two(work, pairs, n, m)
}
