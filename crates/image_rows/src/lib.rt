// The rows of an image's tables, cases first and ranges behind them, with a word of the lent scratch for each. Marks are left at
// the targets of rows, no row twice, and runs of rows with one mark are counted.
#![tactic(auto)]

ghost use Rattle.std.specs.Prelude.{◌≡◌, ◌+◌, ◌*◌, ◌<◌, ◌≤◌, min, max, set, eqb};
ghost use Rattle.words.specs.Count.{all_below};
ghost use Rattle.lowering.specs.Words as words;
ghost use Rattle.lowering.specs.Run as runs;
ghost use Rattle.image_rule.specs.Marks as marks;
ghost use Rattle.image_rows.specs.AllRows.{Pooled, row_of, first_row};
ghost use Rattle.image_rows.specs.Scratch.{Does, Stepped, Runs, Counted};

use image_read::{Image, Rows, word_of};
use lowering::{CASE_WIDTH, RANGE_TARGET, RANGE_WIDTH};

// Where row `q` goes.
// Kept: no `Image::target_at`, which takes the row of a pool as a word. `count_image_runs` asks here for each row, and a number that is made
// a word first costs it one instruction in seven.
fn row_target(image: &Image, q: usize) -> u32
    ensures { result ≡ row_of image.now.words.now q }
{
    let cases = image.sizes.cases as usize;
    if q < cases {
        return word_of(image.words, image.starts.cases + CASE_WIDTH * q);
    }
    let j = q - cases;
    if j < (image.sizes.ranges as usize) {
        return word_of(
            image.words,
            image.starts.ranges + (RANGE_WIDTH * j + RANGE_TARGET),
        );
    }
    0
}

// The first row of table `i`.
fn first_row(image: &Image, i: u32) -> usize
    ensures first { result ≡ first_row image.now.words.now i }
    ensures small { result ≤ 8589934592 }
{
    let before = Rows::from(image.table_word(i, 0)).rows_before(image.sizes.cases);
    (before as usize) + (image.table_word(i, 1) as usize)
}

// A word is written, if it is there.
// Kept: no `get_mut`. That was tried: std's contract says nothing of what the slice ends as. `scratch::put` is the same, but nothing else
// of that crate is of use here.
fn put(out: &mut [u32], at: usize, v: u32)
    ensures { out.new ≡ set out.old at v }
{
    if at < out.len() {
        out[at] = v;
    }
}

// The first run that comes to `t` leaves its mark.
// Kept: 0 for no mark, here and below, and for a row that was not seen (`note`): one word of the scratch holds each.
#[tactic(auto, unfolding(image_rule::specs::Marks::come))]
pub fn come(m: u32, found: &mut [u32], t: usize)
    ensures { found.new ≡ marks.come m found.old t }
{
    if word_of(found, t) == 0 {
        put(found, t, m);
    }
}

// What is noted of row `k`; from now on it is at least `n`.
fn note(rows: &mut [u32], k: usize, n: u32) -> u32
    ensures was { result ≡ words.word rows.old k }
    ensures raised { rows.new ≡ set rows.old k (max result n) }
{
    let was = word_of(rows, k);
    put(rows, k, was.max(n));
    was
}

// Row `k` of `left` rows is come to if it was not seen. Tells how many rows to go on.
// Kept: marks and rows as two slices and no struct of both. `come`, `note` and each read take one of them, for which a struct would be
// taken apart again; in the second pass the marks are only read, and the rows written.
fn come_row(image: &Image, m: u32, found: &mut [u32], rows: &mut [u32], k: usize, left: u32) -> u32
    ensures forth { 0 < left → (0 < result) × (result ≤ left) }
    ensures step { Stepped image.now.words.now m k left result found.old rows.old found.new rows.new }
{
    let was = note(rows, k, left);
    if was == 0 {
        come(m, found, row_target(image, k) as usize);
        return 1;
    }
    was.min(left)
}

// All rows of table `i` are come to. Each row on the way is noted as seen up to the table's last one, and rows that were seen are passed
// over at once: for n rows and tables in all these are at most some n log n steps, however the tables share rows, since a step
// either at least doubles what is noted of a row or halves the way that is left.
// Kept: that the mark is not 0 is a premise, and no `NonZeroU32`: `enter` of image_depths, which calls this, says why.
pub fn come_table_rows(image: &Image, m: u32, found: &mut [u32], rows: &mut [u32], i: u32)
    ensures { let image = image.now.words.now in
        let change = marks.comes m (runs.row_target image i) (words.switch_word image i 2) in
        (Pooled image i → 0 < m → Does image change found.old rows.old found.new rows.new) }
{
    let first = first_row(image, i);
    let count = image.table_word(i, 2);
    // Kept: the loop counts no index. Each step passes over as many rows as were seen, so no range has its places.
    let mut r: u32 = 0;
    while r < count {
        r += come_row(image, m, found, rows, first + (r as usize), count - r);
    }
}

// As `come_table_rows`, of an image by its words.
// Kept: beside `come_table_rows`, and so are `count_runs` and `rows_right` beside `count_image_runs` and `table_rows_right`. A caller may
// have the words alone; an `Image` is made once for all tables, where an image is checked as a whole.
pub fn come_rows(image: &[u32], m: u32, found: &mut [u32], rows: &mut [u32], i: u32)
    ensures { let image = image.now in
        let change = marks.comes m (runs.row_target image i) (words.switch_word image i 2) in
        (Pooled image i → 0 < m → Does image change found.old rows.old found.new rows.new) }
{
    let image = Image::of(image);
    come_table_rows(&image, m, found, rows, i);
}

// One more in a run of rows, where a word has room for it.
fn run_on(run: u32, before: u32, m: u32) -> u32
    ensures same { m ≡ before → result ≡ min (run + 1) 4294967295 }
    ensures other { (m ≡ before → ⊥) → result ≡ 1 }
{
    if m == before {
        run.saturating_add(1)
    } else {
        1
    }
}

// The word of each row becomes the length of the run of rows with one mark that ends there. It is not drawn into the image check, where
// the loop would have to read again what has no register left.
#[inline(never)]
pub fn count_image_runs(image: &Image, found: &[u32], rows: &mut [u32])
    ensures { Counted image.now.words.now found.now rows.old rows.new }
{
    let total = (image.sizes.cases as usize) + (image.sizes.ranges as usize);
    // Kept: by number. A row is in one of two pools (`row_target`), and `rows` may be shorter than they are.
    let mut before: u32 = 0;
    let mut run: u32 = 0;
    for q in 0..total.min(rows.len()) {
        let m = word_of(found, row_target(image, q) as usize);
        run = run_on(run, before, m);
        rows[q] = run;
        before = m;
    }
}

// As `count_image_runs`, of an image by its words.
pub fn count_runs(image: &[u32], found: &[u32], rows: &mut [u32])
    ensures { Counted image.now found.now rows.old rows.new }
{
    let image = Image::of(image);
    count_image_runs(&image, found, rows);
}

// Whether all rows of table `i` lead to the mark `m`, by the runs that were counted.
pub fn table_rows_right(image: &Image, found: &[u32], rows: &[u32], i: u32, m: u32) -> bool
    ensures { let image = image.now.words.now in
        let found = found.now in
        (Pooled image i
        → Runs image found rows.now
        → result ≡ all_below (words.switch_word image i 2) (λ j. eqb (marks.mark found (runs.row_target image i j)) m)) }
{
    let count = image.table_word(i, 2);
    if count == 0 {
        return true;
    }
    let last = first_row(image, i) + (count as usize) - 1;
    let t = row_target(image, last);
    (word_of(found, t as usize) == m) & (count <= word_of(rows, last))
}

// As `table_rows_right`, of an image by its words.
pub fn rows_right(image: &[u32], found: &[u32], rows: &[u32], i: u32, m: u32) -> bool
    ensures { let image = image.now in
        let found = found.now in
        (Pooled image i
        → Runs image found rows.now
        → result ≡ all_below (words.switch_word image i 2) (λ j. eqb (marks.mark found (runs.row_target image i j)) m)) }
{
    let image = Image::of(image);
    table_rows_right(&image, found, rows, i, m)
}
